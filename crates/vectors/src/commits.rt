ghost use Rattle.std.specs.Prelude.{◌≡◌, length, IfOk};

use committer::{
    attempt_output, begin_sealed, commit_job, commit_task, drop_folder, is_whole, open_folder,
    part_path, shuffle_folder, task_input, task_output,
};
use dir_disk::SilentDir;
use peg_base::{Attempt, Name, Path, Phase, TaskId};
use peg_text::NoMemory;
use std::alloc::Global;
use std::process::Abort;
use std::test::Fail;

fn folder(rt: &impl Abort, alloc: Global) -> Result<Path, NoMemory>
    ensures { IfOk result (λ path. length path ≡ 1) }
{
    let name = Name::new(alloc, b"f")?.expect(rt, "a name");
    Path::root(alloc).child(alloc, &name)
}

fn attempt_of(folder: Path, phase: Phase, task: u32) -> Attempt {
    Attempt {
        task: TaskId {
            job: folder,
            phase,
            task,
        },
        number: 3,
    }
}

/// The names of a path, each with a `/` in front.
fn text_of(alloc: Global, path: &Path) -> Result<Vec<u8>, NoMemory> {
    let mut text = Vec::new(alloc);
    for name in path.names() {
        text.push(b'/')?;
        text.extend_from_slice(name.text().as_bytes())?;
    }
    Ok(text)
}

#[test]
fn paths_have_parts_of_five_digits_and_tasks_of_six(rt: HostRuntime) -> Result<(), Fail> {
    let alloc = rt.alloc();
    let job = folder(&rt, alloc)?;
    let map = attempt_of(folder(&rt, alloc)?, Phase::Map, 524287);
    let combine = attempt_of(folder(&rt, alloc)?, Phase::Combine, 20);
    let reduce = attempt_of(folder(&rt, alloc)?, Phase::Reduce, 63);
    let cases = [
        (part_path(alloc, &job, 63)?, b"/f/part-00063".as_slice()),
        (
            attempt_output(alloc, &job, &map)?,
            b"/f/_temporary/attempt-m-524287-3/out",
        ),
        (
            attempt_output(alloc, &job, &combine)?,
            b"/f/_temporary/attempt-c-000020-3/out",
        ),
        (
            attempt_output(alloc, &job, &reduce)?,
            b"/f/_temporary/attempt-r-000063-3/part-00063",
        ),
        (
            task_output(alloc, &job, Phase::Map, 7)?,
            b"/f/_temporary/task-m-000007/out",
        ),
        (
            task_output(alloc, &job, Phase::Combine, 1)?,
            b"/f/_temporary/task-c-000001/out",
        ),
        (
            task_input(alloc, &job, Phase::Map, 524287)?,
            b"/f/_temporary/m-524287.in",
        ),
        (
            task_input(alloc, &job, Phase::Reduce, 63)?,
            b"/f/_temporary/r-000063.in",
        ),
        (shuffle_folder(alloc, &job)?, b"/f/_temporary/shuffle"),
    ];
    for (path, want) in cases {
        let text = text_of(alloc, &path)?;
        assert_eq!(rt; text.as_slice(), want);
    }
    Ok(())
}

#[test]
fn each_call_is_carried_out_over_a_directory_that_tells_nothing(
    rt: HostRuntime,
) -> Result<(), Fail> {
    let alloc = rt.alloc();
    let job = folder(&rt, alloc)?;
    let attempt = attempt_of(folder(&rt, alloc)?, Phase::Reduce, 0);
    let mut dir = SilentDir;
    assert_eq!(rt; is_whole(alloc, &mut dir, &job), Ok(false));
    assert_eq!(rt; drop_folder(alloc, &mut dir, &job), Ok(()));
    assert_eq!(rt; open_folder(alloc, &mut dir, &job), Ok(()));
    let mut sealing = begin_sealed(alloc, &mut dir, &job)?;
    assert_eq!(rt; sealing.piece(alloc, &mut dir, b"x\n"), Ok(()));
    assert_eq!(rt; sealing.finish(alloc, &mut dir), Ok(()));
    assert_eq!(rt; commit_task(alloc, &mut dir, &job, &attempt), Ok(()));
    assert_eq!(rt; commit_job(alloc, &mut dir, &job, 3), Ok(()));
    Ok(())
}

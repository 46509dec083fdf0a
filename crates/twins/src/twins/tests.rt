ghost use Rattle.std.specs.Prelude.{◌≡◌, IsTrue};
ghost use Rattle.task_core.specs.Board.{Runs, has, running_in};
ghost use Rattle.twins.specs.Tasks.{list_of, twin_tried};

use super::*;
use std::process::Abort;
use std::test::Fail;

fn is_among(pair: Pair, number: u8) -> bool
    ensures { result ≡ has number (list_of pair) }
{
    match pair {
        Pair::Neither => false,
        Pair::One(a) => a == number,
        Pair::Both(a, b) => a == number || b == number,
    }
}

fn running_of(twin: Twin) -> Pair
    ensures { list_of result ≡ running_in (twin_tried twin) }
{
    match twin {
        Twin::Open(_, pair) | Twin::Finished(pair) => pair,
    }
}

fn is_running(twins: &Twins, task: u32, number: u8) -> bool
    ensures { IsTrue result → Runs twins.now.tasks task number }
{
    match twins.tasks.get(task as usize) {
        Some(twin) => is_among(running_of(*twin), number),
        None => false,
    }
}

fn start_next(rt: &impl Abort, twins: &mut Twins) -> (u32, u8) {
    match twins.ready() {
        Some((task, number)) => {
            twins.start(task);
            (task, number)
        }
        None => panic!(rt; "nothing is ready"),
    }
}

fn end(rt: &impl Abort, twins: &mut Twins, task: u32, number: u8, ok: bool) -> bool {
    assert!(rt;
        is_running(twins, task, number),
        "attempt {number} of task {task} runs"
    );
    twins.end(task, number, ok)
}

#[test]
fn a_second_attempt_takes_the_free_slot(rt: HostRuntime) -> Result<(), Fail> {
    let mut twins = Twins::new(rt.alloc(), 2, 3)?;
    assert_eq!(rt; start_next(&rt, &mut twins), (0, 1));
    assert_eq!(rt; start_next(&rt, &mut twins), (1, 1));
    assert_eq!(rt; start_next(&rt, &mut twins), (0, 2));
    assert_eq!(rt; twins.ready(), None);
    assert!(rt; end(&rt, &mut twins, 0, 2, true));
    assert_eq!(rt; start_next(&rt, &mut twins), (1, 2));
    assert!(rt; !end(&rt, &mut twins, 0, 1, true));
    assert_eq!(rt; twins.ready(), None);
    assert!(rt; !end(&rt, &mut twins, 1, 1, false));
    assert_eq!(rt; start_next(&rt, &mut twins), (1, 3));
    assert!(rt; end(&rt, &mut twins, 1, 2, true));
    assert!(rt; twins.all_done());
    assert_eq!(rt; twins.running(), 1);
    Ok(())
}

#[test]
fn a_phase_with_no_tasks_is_done(rt: HostRuntime) -> Result<(), Fail> {
    let twins = Twins::new(rt.alloc(), 0, 1)?;
    assert!(rt; twins.all_done());
    assert_eq!(rt; twins.ready(), None);
    Ok(())
}

#[test]
fn a_large_phase_ends(rt: HostRuntime) -> Result<(), Fail> {
    const TASKS: u32 = 524_288;
    let mut twins = Twins::new(rt.alloc(), TASKS, 64)?;
    for task in 0..TASKS {
        assert_eq!(rt; start_next(&rt, &mut twins), (task, 1));
        if task >= 63 {
            end(&rt, &mut twins, task - 63, 1, true);
        }
    }
    for task in TASKS - 63..TASKS {
        assert_eq!(rt; start_next(&rt, &mut twins), (task, 2));
        end(&rt, &mut twins, task, 1, false);
        end(&rt, &mut twins, task, 2, true);
    }
    assert!(rt; twins.all_done());
    Ok(())
}

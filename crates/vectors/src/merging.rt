ghost use Rattle.std.specs.Prelude.{◌≡◌, length, IfOk};

use dir_disk::SilentDir;
use merge::merge_runs;
use peg_base::{Name, Path};
use peg_text::NoMemory;
use std::alloc::Global;
use std::process::Abort;
use std::test::Fail;

fn file(rt: &impl Abort, alloc: Global, name: &[u8]) -> Result<Path, NoMemory>
    ensures { IfOk result (λ path. length path ≡ 1) }
{
    let name = Name::new(alloc, name)?.expect(rt, "a name");
    Path::root(alloc).child(alloc, &name)
}

#[test]
fn runs_that_give_nothing_have_no_pair(rt: HostRuntime) -> Result<(), Fail> {
    let alloc = rt.alloc();
    let scratch = file(&rt, alloc, b"scratch")?;
    let out = file(&rt, alloc, b"out")?;
    let mut runs = Vec::new(alloc);
    for _run in 0..12 {
        runs.push(file(&rt, alloc, b"run")?)?;
    }
    assert!(rt; !out.under(&scratch));
    assert!(rt; !scratch.under(&out));
    let mut dir = SilentDir;
    assert_eq!(rt; merge_runs(alloc, &mut dir, &[], &scratch, &out), Ok(0));
    assert_eq!(rt; merge_runs(alloc, &mut dir, &runs, &scratch, &out), Ok(0));
    Ok(())
}

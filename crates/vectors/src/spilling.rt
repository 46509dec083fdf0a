ghost use Rattle.std.specs.Prelude.{◌≡◌, length, IfOk};

use dir_disk::{Dir, SilentDir};
use peg_base::{Name, Path};
use peg_text::NoMemory;
use spill::Spill;
use std::alloc::Global;
use std::process::Abort;
use std::test::Fail;

fn folder(rt: &impl Abort, alloc: Global) -> Result<Path, NoMemory>
    ensures { IfOk result (λ path. length path ≡ 1) }
{
    let name = Name::new(alloc, b"shuffle")?.expect(rt, "a name");
    Path::root(alloc).child(alloc, &name)
}

/// The names of paths, each with a `/` in front.
fn text_of(alloc: Global, paths: &[Path]) -> Result<Vec<u8>, NoMemory> {
    let mut text = Vec::new(alloc);
    for path in paths {
        for name in path.names() {
            text.push(b'/')?;
            text.extend_from_slice(name.text().as_bytes())?;
        }
    }
    Ok(text)
}

#[test]
fn full_counts_keys_and_values(rt: HostRuntime) -> Result<(), Fail> {
    let alloc = rt.alloc();
    let mut spill = Spill::new(alloc, 4, 1, &folder(&rt, alloc)?)?;
    assert!(rt; !spill.full());
    spill.push(alloc, b"a", b"1")?;
    assert!(rt; !spill.full());
    spill.push(alloc, b"b", b"2")?;
    assert!(rt; spill.full());
    Ok(())
}

#[test]
fn a_flush_with_pairs_makes_a_run_of_each_part_that_has_some(rt: HostRuntime) -> Result<(), Fail> {
    let alloc = rt.alloc();
    let mut dir = SilentDir;
    let mut spill = Spill::new(alloc, 4, 2, &folder(&rt, alloc)?)?;
    assert_eq!(rt; spill.flush(alloc, &mut dir), Ok(()));
    spill.push(alloc, b"1", b"x")?;
    assert_eq!(rt; spill.flush(alloc, &mut dir), Ok(()));
    spill.push(alloc, b"1", b"x")?;
    spill.push(alloc, b"0", b"y")?;
    assert_eq!(rt; spill.flush(alloc, &mut dir), Ok(()));
    assert!(rt; !spill.full());
    let even = text_of(alloc, spill.runs(0))?;
    let odd = text_of(alloc, spill.runs(1))?;
    assert_eq!(rt;
        even.as_slice(),
        b"/shuffle/run-00000-00000000000000000000/shuffle/run-00000-00000000000000000001".as_slice()
    );
    assert_eq!(rt;
        odd.as_slice(),
        b"/shuffle/run-00001-00000000000000000001".as_slice()
    );
    Ok(())
}

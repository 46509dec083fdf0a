ghost use Rattle.std.specs.Prelude.{◌≡◌, OnOk};
ghost use Rattle.dir_disk.specs.Causes.{HasCause};
ghost use Rattle.dir_disk.specs.State.{StandsOutside, absent};
ghost use Rattle.dir_disk.specs.Moments.{Both, Through, files};
ghost use Rattle.dir_disk.specs.Lent.{IsFree};

use dir_disk::*;
use peg_base::{Name, Path};
use std::alloc::Global;
use std::test::Fail;

/// Takes a file away for good, in any directory.
fn take_away<D: Dir>(dir: &mut D, alloc: Global, path: &Path) -> Result<(), DirFault>
    requires { IsFree (D.lent dir.old) path.now }
    ensures steps { D.tells → Through (Both (StandsOutside path.now (files (D.told dir.old)))) (D.told dir.old) (D.told dir.new) }
    ensures gone { D.tells → OnOk result (files (D.told dir.new) path.now ≡ absent) }
    ensures lent { D.lent dir.new ≡ D.lent dir.old }
    ensures beside { D.beside dir.new ≡ D.beside dir.old }
    ensures cause { HasCause DirFault.Failed (D.faults dir.old) (D.faults dir.new) result }
{
    dir.remove_tree(alloc, path)?;
    dir.settle(alloc, path)
}

#[test]
fn a_silent_directory_serves_code_for_any_directory(rt: HostRuntime) -> Result<(), Fail> {
    let alloc = rt.alloc();
    let name = Name::new(alloc, b"conf")?.expect(&rt, "a name");
    let path = Path::root(alloc).child(alloc, &name)?;
    let other = Path::root(alloc);
    let mut dir = SilentDir;
    assert_eq!(rt; take_away(&mut dir, alloc, &path), Ok(()));
    assert_eq!(rt; dir.append(alloc, &path, b"a"), Ok(()));
    assert_eq!(rt; dir.move_tree(alloc, &path, &other), Ok(()));
    assert_eq!(rt; dir.size(alloc, &path), Ok(None));
    let Ok(bytes) = dir.read(alloc, &path, 0, 9) else {
        return Err("no bytes")?;
    };
    assert!(rt; bytes.is_empty());
    Ok(())
}

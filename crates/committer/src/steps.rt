ghost use Rattle.std.specs.Prelude.{◌≡◌, [], ◌∷◌, None, OnOk};
ghost use Rattle.dir_disk.specs.Causes.{HasCause};
ghost use Rattle.dir_disk.specs.Moments.{Both, Through, files};
ghost use Rattle.dir_disk.specs.Calls.{Append, Remove, Settle, CanAppend, after_all};
ghost use Rattle.dir_disk.specs.Lent.{IsFree};
ghost use Rattle.committer.specs.Folders.{Less, More, IsUnmarked, Seals, IsSealed};
ghost use Rattle.committer.specs.Paths.{success_of};

use crate::fault::CommitFault;
use dir_disk::Dir;
use peg_base::Path;
use std::alloc::Global;

/// Takes all at and under a path away for good.
pub(crate) fn clear<D: Dir>(alloc: Global, dir: &mut D, top: &Path) -> Result<(), CommitFault>
    requires { IsFree (D.lent dir.old) top.now }
    ensures steps { D.tells
        → Through (Both (Less top.now (files (D.told dir.old)))) (D.told dir.old) (D.told dir.new) }
    ensures left { D.tells
        → OnOk result (files (D.told dir.new)
        ≡ after_all (Remove top.now ∷ Settle top.now ∷ []) (files (D.told dir.old))) }
    ensures lent { D.lent dir.new ≡ D.lent dir.old }
    ensures beside { D.beside dir.new ≡ D.beside dir.old }
    ensures cause { HasCause CommitFault.Disk (D.faults dir.old) (D.faults dir.new) result }
{
    dir.remove_tree(alloc, top)?;
    dir.settle(alloc, top)?;
    Ok(())
}

/// Makes an empty file that stands for good.
pub(crate) fn make_mark<D: Dir>(alloc: Global, dir: &mut D, mark: &Path) -> Result<(), CommitFault>
    requires lent { IsFree (D.lent dir.old) mark.now }
    requires can { D.tells → CanAppend (files (D.told dir.old)) mark.now }
    ensures steps { D.tells
        → Through (Both (More mark.now (files (D.told dir.old)))) (D.told dir.old) (D.told dir.new) }
    ensures left { D.tells
        → OnOk result (files (D.told dir.new)
        ≡ after_all (Append mark.now [] ∷ Settle mark.now ∷ []) (files (D.told dir.old))) }
    ensures lent { D.lent dir.new ≡ D.lent dir.old }
    ensures beside { D.beside dir.new ≡ D.beside dir.old }
    ensures cause { HasCause CommitFault.Disk (D.faults dir.old) (D.faults dir.new) result }
{
    dir.append(alloc, mark, b"")?;
    dir.settle(alloc, mark)?;
    Ok(())
}

/// Makes a folder whole that isn't whole yet: its files are settled first, and `_SUCCESS` is made then.
pub(crate) fn seal<D: Dir>(
    alloc: Global,
    dir: &mut D,
    folder: &Path,
    success: &Path,
) -> Result<(), CommitFault>
    requires success { success.now ≡ success_of folder.now }
    requires lent { IsFree (D.lent dir.old) folder.now }
    requires unmarked { D.tells → IsUnmarked folder.now (files (D.told dir.old)) }
    requires can { D.tells → CanAppend (files (D.told dir.old)) success.now }
    ensures steps { D.tells
        → Through (Seals folder.now (files (D.told dir.old))) (D.told dir.old) (D.told dir.new) }
    ensures sealed { D.tells
        → OnOk result (IsSealed folder.now (files (D.told dir.old)) (files (D.told dir.new))) }
    ensures lent { D.lent dir.new ≡ D.lent dir.old }
    ensures beside { D.beside dir.new ≡ D.beside dir.old }
    ensures cause { HasCause CommitFault.Disk (D.faults dir.old) (D.faults dir.new) result }
{
    dir.settle(alloc, folder)?;
    make_mark(alloc, dir, success)
}

ghost use Rattle.std.specs.Prelude.{◌≡◌, ◌<◌, length, IfOk, OnOk, is_some};
ghost use Rattle.dir_disk.specs.Causes.{HasCause};
ghost use Rattle.dir_disk.specs.Moments.{Both, Through, files};
ghost use Rattle.dir_disk.specs.Lent.{IsFree, IsNoOutput};
ghost use Rattle.committer.specs.Paths.{success_of};
ghost use Rattle.committer.specs.Folders.{Drops, Opens, IsEmpty, IsUnmarked};

use crate::fault::CommitFault;
use crate::paths::success_path;
use crate::steps::clear;
use dir_disk::Dir;
use peg_base::Path;
use std::alloc::Global;

/// Whether the folder is whole: whether its file `_SUCCESS` is there. No file is changed.
pub fn is_whole<D: Dir>(alloc: Global, dir: &mut D, folder: &Path) -> Result<bool, CommitFault>
    requires short { length folder.now < 8 }
    requires lent { IsNoOutput (D.lent dir.old) (success_of folder.now) }
    ensures whole { D.tells
        → IfOk result (λ whole. whole ≡ is_some (files (D.told dir.old) (success_of folder.now)).now) }
    ensures stands { D.tells
        → Through (Both (λ state. state ≡ files (D.told dir.old))) (D.told dir.old) (D.told dir.new) }
    ensures lent { D.lent dir.new ≡ D.lent dir.old }
    ensures beside { D.beside dir.new ≡ D.beside dir.old }
    ensures cause { HasCause CommitFault.Disk (D.faults dir.old) (D.faults dir.new) result }
{
    let success = success_path(alloc, folder)?;
    Ok(dir.size(alloc, &success)?.is_some())
}

/// Takes a folder's `_SUCCESS` away for good: the folder isn't whole any more, and nothing else of it was touched.
fn take_mark<D: Dir>(alloc: Global, dir: &mut D, folder: &Path) -> Result<(), CommitFault>
    requires short { length folder.now < 8 }
    requires lent { IsFree (D.lent dir.old) folder.now }
    ensures steps { D.tells
        → Through (Drops folder.now (files (D.told dir.old))) (D.told dir.old) (D.told dir.new) }
    ensures unmarked { D.tells → OnOk result (IsUnmarked folder.now (files (D.told dir.new))) }
    ensures lent { D.lent dir.new ≡ D.lent dir.old }
    ensures beside { D.beside dir.new ≡ D.beside dir.old }
    ensures cause { HasCause CommitFault.Disk (D.faults dir.old) (D.faults dir.new) result }
{
    let success = success_path(alloc, folder)?;
    clear(alloc, dir, &success)
}

/// Takes a folder away, its `_SUCCESS` first. After a refusal any of its files may be gone, but the others of them only
/// once a stop can't leave the folder whole.
pub fn drop_folder<D: Dir>(alloc: Global, dir: &mut D, folder: &Path) -> Result<(), CommitFault>
    requires short { length folder.now < 8 }
    requires lent { IsFree (D.lent dir.old) folder.now }
    ensures steps { D.tells
        → Through (Drops folder.now (files (D.told dir.old))) (D.told dir.old) (D.told dir.new) }
    ensures empty { D.tells → OnOk result (IsEmpty folder.now (files (D.told dir.new))) }
    ensures lent { D.lent dir.new ≡ D.lent dir.old }
    ensures beside { D.beside dir.new ≡ D.beside dir.old }
    ensures cause { HasCause CommitFault.Disk (D.faults dir.old) (D.faults dir.new) result }
{
    take_mark(alloc, dir, folder)?;
    clear(alloc, dir, folder)
}

/// Empties a folder that is whole in no image, so that it can be written anew. After a refusal any of its files may be
/// gone.
pub fn open_folder<D: Dir>(alloc: Global, dir: &mut D, folder: &Path) -> Result<(), CommitFault>
    requires lent { IsFree (D.lent dir.old) folder.now }
    requires unmarked { D.tells → IsUnmarked folder.now (files (D.told dir.old)) }
    ensures steps { D.tells
        → Through (Opens folder.now (files (D.told dir.old))) (D.told dir.old) (D.told dir.new) }
    ensures empty { D.tells → OnOk result (IsEmpty folder.now (files (D.told dir.new))) }
    ensures lent { D.lent dir.new ≡ D.lent dir.old }
    ensures beside { D.beside dir.new ≡ D.beside dir.old }
    ensures cause { HasCause CommitFault.Disk (D.faults dir.old) (D.faults dir.new) result }
{
    clear(alloc, dir, folder)
}

ghost use Rattle.std.specs.Prelude.{◌≡◌, ◌<◌, length, IfOk, OnOk};
ghost use Rattle.dir_disk.specs.Calls.{IsOpen};
ghost use Rattle.dir_disk.specs.Causes.{HasCause};
ghost use Rattle.dir_disk.specs.Lent.{IsFree, IsNoOutput};
ghost use Rattle.dir_disk.specs.Moments.{Both, Through, files};
ghost use Rattle.committer.specs.Folders.{IsUnmarked};
ghost use Rattle.store.specs.Differing.{DiffersFrom};
ghost use Rattle.store.specs.Sealed.{IsMade, Makes};

use crate::comparing::Compared;
use crate::fault::StoreFault;
use crate::sealed::{seal, send};
use committer::begin_sealed;
use dir_disk::Dir;
use peg_base::Path;
use std::alloc::Global;

/// The line at which the file at the path and a text differ, counted from 1, or `None` where they are the same. A
/// file that isn't there differs at line 1.
pub fn compare_text<D: Dir>(
    alloc: Global,
    dir: &mut D,
    path: &Path,
    text: &[u8],
) -> Result<Option<u64>, StoreFault>
    requires lent { IsNoOutput (D.lent dir.old) path.now }
    ensures found { D.tells
        → IfOk result (DiffersFrom (files (D.told dir.old) path.now).now text.now) }
    ensures stands { D.tells
        → Through (Both (λ state. state ≡ files (D.told dir.old))) (D.told dir.old) (D.told dir.new) }
    ensures lent { D.lent dir.new ≡ D.lent dir.old }
    ensures beside { D.beside dir.new ≡ D.beside dir.old }
    ensures cause { HasCause StoreFault.Disk (D.faults dir.old) (D.faults dir.new) result }
{
    if dir.size(alloc, path)?.is_none() {
        return Ok(Some(1));
    }
    let mut compared = Compared::new();
    if !compared.go_on(alloc, dir, path, text)? {
        return Ok(Some(compared.line));
    }
    compared.end(alloc, dir, path)
}

/// Makes a folder whole whose one part has this text.
pub fn write_text<D: Dir>(
    alloc: Global,
    dir: &mut D,
    folder: &Path,
    text: &[u8],
) -> Result<(), StoreFault>
    requires short { length folder.now < 8 }
    requires lent { IsFree (D.lent dir.old) folder.now }
    requires unmarked { D.tells → IsUnmarked folder.now (files (D.told dir.old)) }
    requires is_open { D.tells → IsOpen (files (D.told dir.old)) folder.now }
    ensures made { D.tells → OnOk result (IsMade folder.now text.now (files (D.told dir.new))) }
    ensures steps { D.tells
        → Through (Makes folder.now text.now (files (D.told dir.old))) (D.told dir.old) (D.told dir.new) }
    ensures lent { D.lent dir.new ≡ D.lent dir.old }
    ensures beside { D.beside dir.new ≡ D.beside dir.old }
    ensures cause { HasCause StoreFault.Disk (D.faults dir.old) (D.faults dir.new) result }
{
    let mut sealing = begin_sealed(alloc, dir, folder)?;
    send(alloc, dir, &mut sealing, text)?;
    seal(alloc, dir, sealing)
}

ghost use Rattle.std.specs.Prelude.{◌≡◌, ◌≢◌, ◌<◌, ℕ, Some, length, IfOk, IfSome};
ghost use Rattle.peg_base.specs.Names.{Names};
ghost use Rattle.dir_disk.specs.Causes.{HasCause};
ghost use Rattle.dir_disk.specs.Lent.{IsNoOutput};
ghost use Rattle.dir_disk.specs.Moments.{Both, Through, files};
ghost use Rattle.committer.specs.Paths.{part_of};
ghost use Rattle.store.specs.Parts.{AreThere, IsFirstMissing};

use crate::fault::StoreFault;
use committer::part_path;
use dir_disk::Dir;
use peg_base::Path;
use std::alloc::Global;

/// The first part of a folder that isn't there, of the parts below this number.
pub fn missing_part<D: Dir>(
    alloc: Global,
    dir: &mut D,
    folder: &Path,
    parts: u32,
) -> Result<Option<Path>, StoreFault>
    requires short { length folder.now < 8 }
    requires lent { (part : ℕ) → part < parts → IsNoOutput (D.lent dir.old) (part_of folder.now part) }
    ensures missing { let entry = files (D.told dir.old) in D.tells
        → IfOk result (λ missing. IfSome missing (IsFirstMissing entry folder.now parts)) }
    ensures there { D.tells → IfOk result (λ missing. ((path : Names) → missing ≢ Some path)
        → AreThere (files (D.told dir.old)) folder.now parts) }
    ensures stands { D.tells
        → Through (Both (λ state. state ≡ files (D.told dir.old))) (D.told dir.old) (D.told dir.new) }
    ensures lent { D.lent dir.new ≡ D.lent dir.old }
    ensures beside { D.beside dir.new ≡ D.beside dir.old }
    ensures cause { HasCause StoreFault.Disk (D.faults dir.old) (D.faults dir.new) result }
{
    for part in 0..parts {
        let path = part_path(alloc, folder, part)?;
        if dir.size(alloc, &path)?.is_none() {
            return Ok(Some(path));
        }
    }
    Ok(None)
}

ghost use Rattle.std.specs.Prelude.{◌≡◌, ◌<◌, [], Some, length, IfOk, OnOk};
ghost use Rattle.dir_disk.specs.Causes.{HasCause};
ghost use Rattle.dir_disk.specs.State.{after_append};
ghost use Rattle.dir_disk.specs.Moments.{Through, files};
ghost use Rattle.dir_disk.specs.Calls.{IsOpen};
ghost use Rattle.dir_disk.specs.Lent.{IsFree};
ghost use Rattle.committer.specs.Paths.{part_of};
ghost use Rattle.committer.specs.Folders.{IsUnmarked, Writes, IsBegun, Seals, IsSealed};

use crate::fault::CommitFault;
use crate::folders::open_folder;
use crate::paths::{part_path, success_path};
use crate::steps::seal;
use dir_disk::Dir;
use peg_base::Path;
use peg_text::NoMemory;
use std::alloc::Global;
use std::marker::Model;

/// A folder of one part that is being written, seen as the folder's path. Between its calls, which all take the same
/// directory, nothing else may change a path at or under the folder. One that was refused may only be dropped.
#[derive(Drop)]
pub struct Sealing {
    folder: Path,
    part: Path,
    success: Path,
}

impl Model for Sealing {
    ghost use Rattle.std.specs.Prelude.{◌≡◌};
    ghost use Rattle.peg_base.specs.Names.{Names};
    ghost use Rattle.committer.specs.Paths.{success_of, part_of};

    ghost Value = { Names };

    ghost view = { λ s. s.folder };

    ghost invariant = { λ s. (s.part ≡ part_of s.folder 0) × (s.success ≡ success_of s.folder) };
}

/// Opens a folder that is whole in no image, and begins its one part, `part-00000`. After a refusal the folder may have
/// lost any of its files, and isn't whole.
pub fn begin_sealed<D: Dir>(
    alloc: Global,
    dir: &mut D,
    folder: &Path,
) -> Result<Sealing, CommitFault>
    requires short { length folder.now < 8 }
    requires lent { IsFree (D.lent dir.old) folder.now }
    requires unmarked { D.tells → IsUnmarked folder.now (files (D.told dir.old)) }
    requires is_open { D.tells → IsOpen (files (D.told dir.old)) folder.now }
    ensures folder { IfOk result (λ sealing. sealing ≡ folder.now) }
    ensures steps { D.tells
        → Through (Writes folder.now (files (D.told dir.old))) (D.told dir.old) (D.told dir.new) }
    ensures begun { D.tells → OnOk result (IsBegun folder.now (files (D.told dir.new))) }
    ensures empty { D.tells
        → OnOk result ((files (D.told dir.new) (part_of folder.now 0)).now ≡ Some []) }
    ensures lent { D.lent dir.new ≡ D.lent dir.old }
    ensures beside { D.beside dir.new ≡ D.beside dir.old }
    ensures cause { HasCause CommitFault.Disk (D.faults dir.old) (D.faults dir.new) result }
{
    let sealing = Sealing::new(alloc, folder)?;
    open_folder(alloc, dir, folder)?;
    dir.append(alloc, &sealing.part, b"")?;
    Ok(sealing)
}

impl Sealing {
    fn new(alloc: Global, folder: &Path) -> Result<Sealing, NoMemory>
        requires { length folder.now < 8 }
        ensures { IfOk result (λ sealing. sealing ≡ folder.now) }
    {
        Ok(Sealing {
            folder: folder.copy(alloc)?,
            part: part_path(alloc, folder, 0)?,
            success: success_path(alloc, folder)?,
        })
    }

    /// Appends the bytes to the part. After a refusal the part may have anything, and the folder isn't whole.
    pub fn piece<D: Dir>(
        &mut self,
        alloc: Global,
        dir: &mut D,
        bytes: &[u8],
    ) -> Result<(), CommitFault>
        requires lent { IsFree (D.lent dir.old) self.old }
        requires begun { D.tells → IsBegun self.old (files (D.told dir.old)) }
        ensures folder { self.new ≡ self.old }
        ensures steps { D.tells
            → Through (Writes self.old (files (D.told dir.old))) (D.told dir.old) (D.told dir.new) }
        ensures begun { D.tells → OnOk result (IsBegun self.old (files (D.told dir.new))) }
        ensures appended { D.tells
            → OnOk result (files (D.told dir.new)
            ≡ after_append (part_of self.old 0) bytes.now (files (D.told dir.old))) }
        ensures lent { D.lent dir.new ≡ D.lent dir.old }
        ensures beside { D.beside dir.new ≡ D.beside dir.old }
        ensures cause { HasCause CommitFault.Disk (D.faults dir.old) (D.faults dir.new) result }
    {
        dir.append(alloc, &self.part, bytes)?;
        Ok(())
    }

    /// Settles the folder, and makes it whole then. After a refusal each image has the folder not whole, or whole with
    /// all its bytes.
    pub fn finish<D: Dir>(self, alloc: Global, dir: &mut D) -> Result<(), CommitFault>
        requires lent { IsFree (D.lent dir.old) self }
        requires begun { D.tells → IsBegun self (files (D.told dir.old)) }
        ensures steps { D.tells
            → Through (Seals self (files (D.told dir.old))) (D.told dir.old) (D.told dir.new) }
        ensures sealed { D.tells
            → OnOk result (IsSealed self (files (D.told dir.old)) (files (D.told dir.new))) }
        ensures lent { D.lent dir.new ≡ D.lent dir.old }
        ensures beside { D.beside dir.new ≡ D.beside dir.old }
        ensures cause { HasCause CommitFault.Disk (D.faults dir.old) (D.faults dir.new) result }
    {
        seal(alloc, dir, &self.folder, &self.success)
    }
}

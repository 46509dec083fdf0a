ghost use Rattle.std.specs.Prelude.{◌≡◌, ◌++◌, ℕ, List, OnOk};
ghost use Rattle.dir_disk.specs.Causes.{HasCause};
ghost use Rattle.dir_disk.specs.Lent.{IsFree};
ghost use Rattle.dir_disk.specs.Moments.{Through, Told, files};
ghost use Rattle.committer.specs.Folders.{IsBegun, Writes};
ghost use Rattle.store.specs.Sealed.{IsGathering, IsMade, IsWriting, Makes};

use crate::fault::StoreFault;
use crate::sizes::PIECE;
use committer::Sealing;
use dir_disk::Dir;
use std::alloc::Global;

/// Appends the text to the part that is written.
pub(crate) fn send<D: Dir>(
    alloc: Global,
    dir: &mut D,
    sealing: &mut Sealing,
    text: &[u8],
) -> Result<(), StoreFault>
    requires lent { IsFree (D.lent dir.old) sealing.old }
    requires begun { D.tells → IsBegun sealing.old (files (D.told dir.old)) }
    ensures folder { sealing.new ≡ sealing.old }
    ensures writing { D.tells → (entry : Told) (sofar : List ℕ)
        → IsWriting sealing.old sofar entry (D.told dir.old)
        → OnOk result (IsWriting sealing.old (sofar ++ text.now) entry (D.told dir.new)) }
    ensures steps { D.tells → (entry : Told) (sofar : List ℕ)
        → IsWriting sealing.old sofar entry (D.told dir.old)
        → Through (Writes sealing.old (files entry)) entry (D.told dir.new) }
    ensures begun { D.tells → OnOk result (IsBegun sealing.old (files (D.told dir.new))) }
    ensures lent { D.lent dir.new ≡ D.lent dir.old }
    ensures beside { D.beside dir.new ≡ D.beside dir.old }
    ensures cause { HasCause StoreFault.Disk (D.faults dir.old) (D.faults dir.new) result }
{
    sealing.piece(alloc, dir, text)?;
    Ok(())
}

/// Appends what is held, once that is a piece, and holds nothing then.
pub(crate) fn send_full<D: Dir>(
    alloc: Global,
    dir: &mut D,
    sealing: &mut Sealing,
    held: &mut Vec<u8>,
) -> Result<(), StoreFault>
    requires lent { IsFree (D.lent dir.old) sealing.old }
    requires begun { D.tells → IsBegun sealing.old (files (D.told dir.old)) }
    ensures folder { sealing.new ≡ sealing.old }
    ensures gathering { D.tells → (entry : Told) (text : List ℕ)
        → IsGathering sealing.old text held.old.items entry (D.told dir.old)
        → OnOk result (IsGathering sealing.old text held.new.items entry (D.told dir.new)) }
    ensures steps { D.tells → (entry : Told) (text : List ℕ)
        → IsGathering sealing.old text held.old.items entry (D.told dir.old)
        → Through (Writes sealing.old (files entry)) entry (D.told dir.new) }
    ensures lent { D.lent dir.new ≡ D.lent dir.old }
    ensures beside { D.beside dir.new ≡ D.beside dir.old }
    ensures cause { HasCause StoreFault.Disk (D.faults dir.old) (D.faults dir.new) result }
{
    if held.len() < PIECE as usize {
        return Ok(());
    }
    send(alloc, dir, sealing, held)?;
    held.clear();
    Ok(())
}

/// Makes the folder whole that was written.
pub(crate) fn seal<D: Dir>(alloc: Global, dir: &mut D, sealing: Sealing) -> Result<(), StoreFault>
    requires lent { IsFree (D.lent dir.old) sealing }
    requires begun { D.tells → IsBegun sealing (files (D.told dir.old)) }
    ensures made { D.tells → (entry : Told) (text : List ℕ) → IsWriting sealing text entry (D.told dir.old)
        → OnOk result (IsMade sealing text (files (D.told dir.new))) }
    ensures steps { D.tells → (entry : Told) (text : List ℕ) → IsWriting sealing text entry (D.told dir.old)
        → Through (Makes sealing text (files entry)) entry (D.told dir.new) }
    ensures lent { D.lent dir.new ≡ D.lent dir.old }
    ensures beside { D.beside dir.new ≡ D.beside dir.old }
    ensures cause { HasCause StoreFault.Disk (D.faults dir.old) (D.faults dir.new) result }
{
    sealing.finish(alloc, dir)?;
    Ok(())
}

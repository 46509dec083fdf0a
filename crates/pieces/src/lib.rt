//! Files that are written in pieces: bytes are gathered for a file, and appended where they are enough.
#![tactic(auto)]

ghost use Rattle.std.specs.Prelude.{◌≡◌, ◌<◌, length, IsOk, OnOk};
ghost use Rattle.dir_disk.specs.Calls.{CanAppend};
ghost use Rattle.dir_disk.specs.Causes.{HasCause};
ghost use Rattle.dir_disk.specs.Keeping.{StandsBut};
ghost use Rattle.dir_disk.specs.Lent.{IsFree};
ghost use Rattle.dir_disk.specs.Moments.{Both, Through, files};
ghost use Rattle.dir_disk.specs.State.{StandsOutside};
ghost use Rattle.pieces.specs.Pieces.{gathered};

use dir_disk::{Dir, DirFault};
use peg_base::Path;
use std::alloc::Global;

/// How many bytes are gathered before they are appended.
pub const PIECE: usize = 65_536;

/// Appends the bytes that were gathered for a file, once they are a piece, and gathers none then. With fewer bytes it
/// makes no call of the directory. After a refusal the file may have anything.
pub fn send_piece<D: Dir>(
    alloc: Global,
    dir: &mut D,
    path: &Path,
    piece: &mut Vec<u8>,
) -> Result<(), DirFault>
    requires lent { IsFree (D.lent dir.old) path.now }
    requires can { D.tells → CanAppend (files (D.told dir.old)) path.now }
    ensures few { length piece.old.items < 65536
        → IsOk result × (piece.new.items ≡ piece.old.items) × (D.told dir.new ≡ D.told dir.old) }
    ensures held { OnOk result (length piece.new.items < 65536) }
    ensures can { D.tells → OnOk result (CanAppend (files (D.told dir.new)) path.now) }
    ensures sent { D.tells
        → OnOk result (gathered path.now (files (D.told dir.new)) piece.new.items
        ≡ gathered path.now (files (D.told dir.old)) piece.old.items) }
    ensures others { D.tells → OnOk result (StandsBut path.now (files (D.told dir.old)) (files (D.told dir.new))) }
    ensures stands { D.tells
        → Through (Both (StandsOutside path.now (files (D.told dir.old)))) (D.told dir.old) (D.told dir.new) }
    ensures lent { D.lent dir.new ≡ D.lent dir.old }
    ensures beside { D.beside dir.new ≡ D.beside dir.old }
    ensures cause { HasCause DirFault.Failed (D.faults dir.old) (D.faults dir.new) result }
{
    if piece.len() < PIECE {
        return Ok(());
    }
    dir.append(alloc, path, piece)?;
    piece.clear();
    Ok(())
}

ghost use Rattle.std.specs.Prelude.{◌≡◌, IfOk, take};
ghost use Rattle.dir_disk.specs.Calls.{HasFile};
ghost use Rattle.dir_disk.specs.Causes.{HasCause};
ghost use Rattle.dir_disk.specs.Moments.{Both, Through, files};
ghost use Rattle.dir_disk.specs.Lent.{IsNoOutput};
ghost use Rattle.dir_disk.specs.State.{bytes_at};
ghost use Rattle.splits.specs.Copying.{BeginsAt, IsLineEnd};

use crate::copying::PIECE;
use crate::fault::SplitFault;
use crate::table::Split;
use dir_disk::Dir;
use memchr::memchr;
use peg_base::Path;
use std::alloc::Global;

/// Where the first line of a split begins; `None` only where the split has no line.
pub(crate) fn first_line<D: Dir>(
    alloc: Global,
    dir: &mut D,
    path: &Path,
    split: &Split,
) -> Result<Option<u64>, SplitFault>
    requires lent { IsNoOutput (D.lent dir.old) path.now }
    requires there { D.tells → HasFile (files (D.told dir.old)) path.now }
    ensures found { D.tells
        → IfOk result (λ found. BeginsAt (bytes_at (files (D.told dir.old)) path.now) split.now found) }
    ensures stands { D.tells
        → Through (Both (λ state. state ≡ files (D.told dir.old))) (D.told dir.old) (D.told dir.new) }
    ensures lent { D.lent dir.new ≡ D.lent dir.old }
    ensures beside { D.beside dir.new ≡ D.beside dir.old }
    ensures cause { HasCause SplitFault.Disk (D.faults dir.old) (D.faults dir.new) result }
{
    if split.start == 0 {
        return Ok(Some(0));
    }
    line_end(alloc, dir, path, split.start, split.end)
}

/// Where the line ends that goes on at the place `from`, if that is before the place `end`.
fn line_end<D: Dir>(
    alloc: Global,
    dir: &mut D,
    path: &Path,
    from: u64,
    end: u64,
) -> Result<Option<u64>, SplitFault>
    requires lent { IsNoOutput (D.lent dir.old) path.now }
    requires there { D.tells → HasFile (files (D.told dir.old)) path.now }
    ensures found { D.tells
        → IfOk result (λ found. IsLineEnd (take end (bytes_at (files (D.told dir.old)) path.now)) from found) }
    ensures stands { D.tells
        → Through (Both (λ state. state ≡ files (D.told dir.old))) (D.told dir.old) (D.told dir.new) }
    ensures lent { D.lent dir.new ≡ D.lent dir.old }
    ensures beside { D.beside dir.new ≡ D.beside dir.old }
    ensures cause { HasCause SplitFault.Disk (D.faults dir.old) (D.faults dir.new) result }
{
    let mut place = from;
    while place < end {
        let piece = dir.read(alloc, path, place, u64::from(PIECE).min(end - place) as u32)?;
        if let Some(found) = memchr(b'\n', &piece) {
            return Ok(Some(place + found as u64 + 1));
        }
        if piece.is_empty() {
            return Ok(None);
        }
        place += piece.len() as u64;
    }
    Ok(None)
}

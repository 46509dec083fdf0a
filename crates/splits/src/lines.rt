ghost use Rattle.std.specs.Prelude.{◌≡◌, None, length, IfOk, OnOk};
ghost use Rattle.dir_disk.specs.Calls.{CanAppend, HasFile};
ghost use Rattle.dir_disk.specs.Causes.{HasCause};
ghost use Rattle.dir_disk.specs.Keeping.{HasWritten};
ghost use Rattle.dir_disk.specs.Lent.{IsFree, IsNoOutput};
ghost use Rattle.dir_disk.specs.Moments.{Both, Through, files};
ghost use Rattle.dir_disk.specs.State.{StandsOutside, bytes_of};
ghost use Rattle.splits.specs.Lines.{lines_text, split_lines};

use crate::copying::copy_lines;
use crate::fault::SplitFault;
use crate::start::first_line;
use crate::table::Split;
use dir_disk::Dir;
use peg_base::Path;
use std::alloc::Global;

/// Writes the lines of a split of the file at `path` to the file `out`, which it makes, each followed by an LF, and
/// answers how many there are.
///
/// A line belongs to the split behind whose start, and not behind whose end, it begins; the first split has the file's
/// first line too. After a refusal `out` may have anything, or not be there.
pub fn lines_of_split<D: Dir>(
    alloc: Global,
    dir: &mut D,
    path: &Path,
    split: &Split,
    out: &Path,
) -> Result<u64, SplitFault>
    requires lent_path { IsNoOutput (D.lent dir.old) path.now }
    requires lent_out { IsFree (D.lent dir.old) out.now }
    requires there { D.tells → HasFile (files (D.told dir.old)) path.now }
    requires can { D.tells → CanAppend (files (D.told dir.old)) out.now }
    requires none { D.tells → (files (D.told dir.old) out.now).now ≡ None }
    ensures count { D.tells → IfOk result (λ count. count
        ≡ length (split_lines split.now (bytes_of (files (D.told dir.old) path.now).now))) }
    ensures written { D.tells → OnOk result (HasWritten out.now
        (lines_text (split_lines split.now (bytes_of (files (D.told dir.old) path.now).now)))
        (files (D.told dir.old)) (files (D.told dir.new))) }
    ensures stands { D.tells
        → Through (Both (StandsOutside out.now (files (D.told dir.old)))) (D.told dir.old) (D.told dir.new) }
    ensures lent { D.lent dir.new ≡ D.lent dir.old }
    ensures beside { D.beside dir.new ≡ D.beside dir.old }
    ensures cause { HasCause SplitFault.Disk (D.faults dir.old) (D.faults dir.new) result }
{
    dir.append(alloc, out, b"")?;
    match first_line(alloc, dir, path, split)? {
        None => Ok(0),
        Some(from) => copy_lines(alloc, dir, path, out, from, split.end),
    }
}

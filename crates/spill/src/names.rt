ghost use Rattle.std.specs.Prelude.{◌≡◌, ◌<◌, length, IfOk};
ghost use Rattle.spill.specs.Runs.{run_of};

use digit_names::{numbered, push_digits};
use peg_base::Path;
use peg_text::NoMemory;
use std::alloc::Global;

/// The path of the run that a flush of this number writes for a part.
pub(crate) fn run_path(
    alloc: Global,
    folder: &Path,
    part: u32,
    flush: u64,
) -> Result<Path, NoMemory>
    requires { length folder.now < 8 }
    ensures { IfOk result (λ path. path ≡ run_of folder.now part flush) }
{
    let mut front = Vec::from_slice(alloc, b"run-")?;
    push_digits(alloc, &mut front, u64::from(part), 5)?;
    front.push(b'-')?;
    folder.child(alloc, &numbered(alloc, &front, flush, 20)?)
}

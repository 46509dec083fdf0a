ghost use Rattle.std.specs.Prelude.{◌≡◌, ◌+◌, ◌*◌, ◌^◌, ◌<◌, ◌≤◌, ◌++◌, ◌∷◌, [], false, All, Some, drop, length, IfOk, OnOk};
ghost use Rattle.peg_base.specs.Names.{under};
ghost use Rattle.dir_disk.specs.Causes.{HasCause};
ghost use Rattle.dir_disk.specs.Keeping.{HasWritten};
ghost use Rattle.dir_disk.specs.Lent.{IsFree, IsNoOutput};
ghost use Rattle.dir_disk.specs.Moments.{Both, Through, files};
ghost use Rattle.dir_disk.specs.State.{StandsOutside};
ghost use Rattle.pairs.specs.Pairs.{pairs_text};
ghost use Rattle.merge.specs.Runs.{ArePassesFree, ArePassesVacant, HasPasses, IsAfterPasses, IsRun, StandsBesideMerge, StandsBesidePasses, StandsButMerge, lists_at, merge_of, merged_at, passes, queue_of, ten_merged};
ghost use Rattle.merge.specs.Sources.{all_of};
ghost use Rattle.pieces.specs.Pieces.{IsVacant};

use crate::fault::MergeFault;
use crate::merging::merge_files;
use digit_names::numbered;
use dir_disk::Dir;
use peg_base::Path;
use peg_text::NoMemory;
use std::alloc::Global;

/// How many runs are merged at a time.
const AT_ONCE: usize = 10;

/// How many passes so many runs need: each one makes one run of ten.
fn passes_for(runs: usize) -> usize
    ensures is { result ≡ passes runs }
    ensures fits { result < 2 ^ 64 }
{
    runs.saturating_sub(2) / (AT_ONCE - 1)
}

/// The path of the run that a pass makes.
fn merge_path(alloc: Global, scratch: &Path, number: usize) -> Result<Path, NoMemory>
    requires { length scratch.now < 8 }
    ensures { IfOk result (λ path. path ≡ merge_of scratch.now number) }
{
    let name = numbered(alloc, b"merge-", number as u64, 20)?;
    scratch.child(alloc, &name)
}

/// The same paths.
fn copied(alloc: Global, paths: &[Path]) -> Result<Vec<Path>, NoMemory>
    ensures { IfOk result (λ copies. copies.items ≡ paths.now) }
{
    let mut copies = Vec::new(alloc);
    for path in paths {
        copies.push(path.copy(alloc)?)?;
    }
    Ok(copies)
}

/// Adds a path.
fn queue_up(queue: &mut Vec<Path>, path: Path) -> Result<(), NoMemory>
    ensures { OnOk result (queue.new.items ≡ queue.old.items ++ path ∷ []) }
{
    queue.push(path)?;
    Ok(())
}

/// What so many passes have not merged.
fn unmerged(queue: &[Path], passes: usize) -> &[Path]
    requires { 10 * passes ≤ length queue.now }
    ensures { result.now ≡ drop (10 * passes) queue.now }
{
    &queue[AT_ONCE * passes..]
}

/// Merges the next ten runs into one that goes behind all others.
fn pass<D: Dir>(
    alloc: Global,
    dir: &mut D,
    scratch: &Path,
    number: usize,
    queue: &mut Vec<Path>,
) -> Result<(), MergeFault>
    requires short { length scratch.now < 8 }
    requires enough { 10 * number + 10 ≤ length queue.old.items }
    requires lent_queue { All (IsNoOutput (D.lent dir.old)) queue.old.items }
    requires lent_merge { IsFree (D.lent dir.old) (merge_of scratch.now number) }
    requires runs { D.tells → All (IsRun (files (D.told dir.old))) queue.old.items }
    requires vacant { D.tells → IsVacant (merge_of scratch.now number) (files (D.told dir.old)) }
    ensures queued { OnOk result (queue.new.items ≡ queue.old.items ++ merge_of scratch.now number ∷ []) }
    ensures written { let entry = files (D.told dir.old) in D.tells
        → OnOk result (HasWritten (merge_of scratch.now number) (pairs_text (ten_merged number (lists_at entry queue.old.items))) entry (files (D.told dir.new))) }
    ensures stands { D.tells
        → Through (Both (StandsOutside (merge_of scratch.now number) (files (D.told dir.old)))) (D.told dir.old) (D.told dir.new) }
    ensures lent { D.lent dir.new ≡ D.lent dir.old }
    ensures beside { D.beside dir.new ≡ D.beside dir.old }
    ensures cause { HasCause MergeFault.Disk (D.faults dir.old) (D.faults dir.new) result }
{
    let path = merge_path(alloc, scratch, number)?;
    let first = AT_ONCE * number;
    merge_files(alloc, dir, &queue[first..first + AT_ONCE], &path)?;
    queue_up(queue, path)?;
    Ok(())
}

/// Runs the passes. The answer has the runs and those of the passes behind them.
fn run_passes<D: Dir>(
    alloc: Global,
    dir: &mut D,
    runs: &[Path],
    scratch: &Path,
) -> Result<Vec<Path>, MergeFault>
    requires short { length scratch.now < 8 }
    requires lent_runs { All (IsNoOutput (D.lent dir.old)) runs.now }
    requires lent_scratch { ArePassesFree scratch.now (passes (length runs.now)) (D.lent dir.old) }
    requires runs { D.tells → All (IsRun (files (D.told dir.old))) runs.now }
    requires vacant { D.tells → ArePassesVacant scratch.now (passes (length runs.now)) (files (D.told dir.old)) }
    ensures queue { IfOk result (λ queue. queue.items ≡ queue_of runs.now scratch.now (passes (length runs.now))) }
    ensures done { let entry = files (D.told dir.old) in D.tells
        → OnOk result (IsAfterPasses runs.now scratch.now (passes (length runs.now)) entry (files (D.told dir.new))) }
    ensures steps { let entry = files (D.told dir.old) in D.tells
        → Through (Both (StandsBesidePasses scratch.now (passes (length runs.now)) entry)) (D.told dir.old) (D.told dir.new) }
    ensures lent { D.lent dir.new ≡ D.lent dir.old }
    ensures beside { D.beside dir.new ≡ D.beside dir.old }
    ensures cause { HasCause MergeFault.Disk (D.faults dir.old) (D.faults dir.new) result }
{
    let mut queue = copied(alloc, runs)?;
    for number in 0..passes_for(runs.len()) {
        pass(alloc, dir, scratch, number, &mut queue)?;
    }
    Ok(queue)
}

/// Writes the pairs of all runs to the file `out`, each as a line, in order, each as often as the runs have it, and
/// answers how many they are. Without runs the file is empty.
///
/// Ten runs are read at a time at most. While there are more, the first ten are merged into a new run that goes last,
/// the file `merge-N` in the folder `scratch`, with N from 0 in twenty digits. Nothing changes but `out` and these files;
/// after a refusal they may have anything, or not be there.
pub fn merge_runs<D: Dir>(
    alloc: Global,
    dir: &mut D,
    runs: &[Path],
    scratch: &Path,
    out: &Path,
) -> Result<u64, MergeFault>
    requires short { length scratch.now < 8 }
    requires outside { under scratch.now out.now ≡ false }
    requires above { under out.now scratch.now ≡ false }
    requires lent_runs { All (IsNoOutput (D.lent dir.old)) runs.now }
    requires lent_scratch { ArePassesFree scratch.now (passes (length runs.now)) (D.lent dir.old) }
    requires lent_out { IsFree (D.lent dir.old) out.now }
    requires runs { D.tells → All (IsRun (files (D.told dir.old))) runs.now }
    requires vacant_scratch { D.tells → ArePassesVacant scratch.now (passes (length runs.now)) (files (D.told dir.old)) }
    requires vacant_out { D.tells → IsVacant out.now (files (D.told dir.old)) }
    ensures count { let lists = lists_at (files (D.told dir.old)) runs.now in D.tells
        → IfOk result (λ count. count ≡ length (all_of lists)) }
    ensures written { D.tells
        → OnOk result ((files (D.told dir.new) out.now).now ≡ Some (pairs_text (merged_at (files (D.told dir.old)) runs.now))) }
    ensures passes { let lists = lists_at (files (D.told dir.old)) runs.now in D.tells
        → OnOk result (HasPasses scratch.now (passes (length runs.now)) lists (files (D.told dir.new))) }
    ensures others { let entry = files (D.told dir.old) in D.tells
        → OnOk result (StandsButMerge out.now scratch.now (passes (length runs.now)) entry (files (D.told dir.new))) }
    ensures steps { let entry = files (D.told dir.old) in D.tells
        → Through (Both (StandsBesideMerge out.now scratch.now (passes (length runs.now)) entry)) (D.told dir.old) (D.told dir.new) }
    ensures lent { D.lent dir.new ≡ D.lent dir.old }
    ensures beside { D.beside dir.new ≡ D.beside dir.old }
    ensures cause { HasCause MergeFault.Disk (D.faults dir.old) (D.faults dir.new) result }
{
    let queue = run_passes(alloc, dir, runs, scratch)?;
    merge_files(alloc, dir, unmerged(&queue, passes_for(runs.len())), out)
}

ghost use Rattle.std.specs.Prelude.{◌≡◌, ◌+◌, ◌++◌, ◌∷◌, [], ◌<◌, false, All, length, map, IfOk, OnOk};
ghost use Rattle.peg_base.specs.Names.{same_path};
ghost use Rattle.peg_text.specs.Pairs.{pair_line};
ghost use Rattle.dir_disk.specs.Calls.{CanAppend, HasFile};
ghost use Rattle.dir_disk.specs.Causes.{HasCause};
ghost use Rattle.dir_disk.specs.Keeping.{HasWritten, StandsBut};
ghost use Rattle.dir_disk.specs.Lent.{IsFree, IsNoOutput};
ghost use Rattle.dir_disk.specs.Moments.{Both, Through, files};
ghost use Rattle.dir_disk.specs.State.{StandsOutside};
ghost use Rattle.pairs.specs.Pairs.{pairs_in, pairs_text, sorted_pairs};
ghost use Rattle.merge.specs.Runs.{IsRun, lists_at, merged_at};
ghost use Rattle.merge.specs.Sources.{IsSource, all_of, left_of, lefts, untaken};
ghost use Rattle.pieces.specs.Pieces.{IsVacant};
ghost use Rattle.pieces.specs.Pieces.{gathered};

use crate::fault::MergeFault;
use crate::leaders::{first_of, leaders_of, renew};
use crate::source::Source;
use dir_disk::Dir;
use peg_base::Path;
use peg_text::NoMemory;
use pieces::send_piece;
use std::alloc::Global;

/// Writes the next pair of a source, and goes on to the one after it.
fn give<D: Dir>(
    alloc: Global,
    dir: &mut D,
    source: &mut Source,
    out: &Path,
    piece: &mut Vec<u8>,
) -> Result<(), MergeFault>
    requires lent_path { IsNoOutput (D.lent dir.old) source.old.path }
    requires lent_out { IsFree (D.lent dir.old) out.now }
    requires running { source.old.ended ≡ false }
    requires there { D.tells → HasFile (files (D.told dir.old)) source.old.path }
    requires other { D.tells → same_path out.now source.old.path ≡ false }
    requires can { D.tells → CanAppend (files (D.told dir.old)) out.now }
    ensures path { source.new.path ≡ source.old.path }
    ensures left { let entry = files (D.told dir.old) in D.tells
        → OnOk result (left_of entry source.new ≡ pairs_in (untaken entry source.old)) }
    ensures can { D.tells → OnOk result (CanAppend (files (D.told dir.new)) out.now) }
    ensures sent { D.tells
        → OnOk result (gathered out.now (files (D.told dir.new)) piece.new.items
        ≡ gathered out.now (files (D.told dir.old)) piece.old.items ++ pair_line source.old.lines.head.0 source.old.lines.head.1) }
    ensures others { D.tells → OnOk result (StandsBut out.now (files (D.told dir.old)) (files (D.told dir.new))) }
    ensures stands { D.tells
        → Through (Both (StandsOutside out.now (files (D.told dir.old)))) (D.told dir.old) (D.told dir.new) }
    ensures lent { D.lent dir.new ≡ D.lent dir.old }
    ensures beside { D.beside dir.new ≡ D.beside dir.old }
    ensures cause { HasCause MergeFault.Disk (D.faults dir.old) (D.faults dir.new) result }
{
    source.lines.write(alloc, piece)?;
    send_piece(alloc, dir, out, piece)?;
    source.advance(alloc, dir)
}

/// Writes the pairs of all sources to a file that isn't there yet, the least one first, and answers how many they are.
fn give_all<D: Dir>(
    alloc: Global,
    dir: &mut D,
    sources: &mut [Source],
    out: &Path,
) -> Result<u64, MergeFault>
    requires lent_sources { All (λ source. IsNoOutput (D.lent dir.old) source.path) sources.old }
    requires lent_out { IsFree (D.lent dir.old) out.now }
    requires sources { D.tells → All (IsSource out.now (files (D.told dir.old))) sources.old }
    requires vacant { D.tells → IsVacant out.now (files (D.told dir.old)) }
    ensures count { let entry = files (D.told dir.old) in D.tells
        → IfOk result (λ count. count ≡ length (all_of (lefts entry sources.old))) }
    ensures written { let entry = files (D.told dir.old) in D.tells
        → OnOk result (HasWritten out.now (pairs_text (sorted_pairs (all_of (lefts entry sources.old)))) entry (files (D.told dir.new))) }
    ensures stands { D.tells
        → Through (Both (StandsOutside out.now (files (D.told dir.old)))) (D.told dir.old) (D.told dir.new) }
    ensures lent { D.lent dir.new ≡ D.lent dir.old }
    ensures beside { D.beside dir.new ≡ D.beside dir.old }
    ensures cause { HasCause MergeFault.Disk (D.faults dir.old) (D.faults dir.new) result }
{
    let mut piece = Vec::new(alloc);
    let mut leaders = leaders_of(alloc, sources)?;
    for count in 0..u64::MAX {
        let Some(at) = first_of(sources, &leaders) else {
            dir.append(alloc, out, &piece)?;
            return Ok(count);
        };
        give(alloc, dir, &mut sources[at], out, &mut piece)?;
        renew(sources, &mut leaders, at);
    }
    Err(MergeFault::NoMemory)
}

/// Adds a source. Without memory the sources are as before.
fn keep(sources: &mut Vec<Source>, source: Source) -> Result<(), NoMemory>
    ensures { OnOk result (sources.new.items ≡ sources.old.items ++ source ∷ []) }
{
    sources.push(source)?;
    Ok(())
}

/// Each of these runs from its first pair on.
fn open_all<D: Dir>(alloc: Global, dir: &mut D, runs: &[Path]) -> Result<Vec<Source>, MergeFault>
    requires lent { All (IsNoOutput (D.lent dir.old)) runs.now }
    requires there { D.tells → All (HasFile (files (D.told dir.old))) runs.now }
    ensures paths { IfOk result (λ sources. map (λ source. source.path) sources.items ≡ runs.now) }
    ensures lefts { let entry = files (D.told dir.old) in D.tells
        → IfOk result (λ sources. lefts entry sources.items ≡ lists_at entry runs.now) }
    ensures stands { D.tells
        → Through (Both (λ state. state ≡ files (D.told dir.old))) (D.told dir.old) (D.told dir.new) }
    ensures lent { D.lent dir.new ≡ D.lent dir.old }
    ensures beside { D.beside dir.new ≡ D.beside dir.old }
    ensures cause { HasCause MergeFault.Disk (D.faults dir.old) (D.faults dir.new) result }
{
    let mut sources = Vec::new(alloc);
    for run in runs {
        let source = Source::open(alloc, dir, run)?;
        keep(&mut sources, source)?;
    }
    Ok(sources)
}

/// Merges runs into a file that isn't there yet, and answers how many pairs they have. All of them are read at a time.
pub(crate) fn merge_files<D: Dir>(
    alloc: Global,
    dir: &mut D,
    runs: &[Path],
    out: &Path,
) -> Result<u64, MergeFault>
    requires lent_runs { All (IsNoOutput (D.lent dir.old)) runs.now }
    requires lent_out { IsFree (D.lent dir.old) out.now }
    requires runs { D.tells → All (IsRun (files (D.told dir.old))) runs.now }
    requires vacant { D.tells → IsVacant out.now (files (D.told dir.old)) }
    ensures count { let entry = files (D.told dir.old) in D.tells
        → IfOk result (λ count. count ≡ length (all_of (lists_at entry runs.now))) }
    ensures written { let entry = files (D.told dir.old) in D.tells
        → OnOk result (HasWritten out.now (pairs_text (merged_at entry runs.now)) entry (files (D.told dir.new))) }
    ensures stands { D.tells
        → Through (Both (StandsOutside out.now (files (D.told dir.old)))) (D.told dir.old) (D.told dir.new) }
    ensures lent { D.lent dir.new ≡ D.lent dir.old }
    ensures beside { D.beside dir.new ≡ D.beside dir.old }
    ensures cause { HasCause MergeFault.Disk (D.faults dir.old) (D.faults dir.new) result }
{
    let mut sources = open_all(alloc, dir, runs)?;
    give_all(alloc, dir, &mut sources, out)
}

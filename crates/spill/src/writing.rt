ghost use Rattle.std.specs.Prelude.{◌≡◌, ℕ, ◌<◌, ◌≤◌, ◌++◌, Some, List, All, length, map, OnOk};
ghost use Rattle.dir_disk.specs.Causes.{HasCause};
ghost use Rattle.dir_disk.specs.State.{StandsOutside};
ghost use Rattle.dir_disk.specs.Moments.{Both, Through, files};
ghost use Rattle.dir_disk.specs.Keeping.{StandsBut};
ghost use Rattle.dir_disk.specs.Lent.{IsFree};
ghost use Rattle.pairs.specs.Pairs.{pairs_text};
ghost use Rattle.pieces.specs.Pieces.{IsVacant};
ghost use Rattle.spill.specs.Lines.{AreEntries, IsEntry, entry_pairs, lists_of};
ghost use Rattle.spill.specs.Runs.{run_of, new_runs};
ghost use Rattle.spill.specs.Chunks.{HasItems, StandsBesideRun, StandsButRun, StandsBesideLists, StandsButLists, HasLists, AreListsFree, AreListsVacant, AreNoted};

use crate::entry::Entry;
use crate::fault::SpillFault;
use crate::names::run_path;
use dir_disk::Dir;
use peg_base::Path;
use peg_text::NoMemory;
use pieces::send_piece;
use std::alloc::Global;

/// Writes the pairs of entries to a file that isn't there yet, in pieces.
fn write_pairs<D: Dir>(
    alloc: Global,
    dir: &mut D,
    path: &Path,
    text: &[u8],
    entries: &[Entry],
) -> Result<(), SpillFault>
    requires entries { All (IsEntry text.now) entries.now }
    requires lent { IsFree (D.lent dir.old) path.now }
    requires vacant { D.tells → IsVacant path.now (files (D.told dir.old)) }
    ensures steps { D.tells
        → Through (Both (StandsOutside path.now (files (D.told dir.old)))) (D.told dir.old) (D.told dir.new) }
    ensures written { D.tells
        → OnOk result ((files (D.told dir.new) path.now).now ≡ Some (pairs_text (entry_pairs text.now entries.now))) }
    ensures others { D.tells → OnOk result (StandsBut path.now (files (D.told dir.old)) (files (D.told dir.new))) }
    ensures lent { D.lent dir.new ≡ D.lent dir.old }
    ensures beside { D.beside dir.new ≡ D.beside dir.old }
    ensures cause { HasCause SpillFault.Disk (D.faults dir.old) (D.faults dir.new) result }
{
    let mut piece = Vec::new(alloc);
    for entry in entries {
        entry.write(alloc, text, &mut piece)?;
        send_piece(alloc, dir, path, &mut piece)?;
    }
    dir.append(alloc, path, &piece)?;
    Ok(())
}

/// Writes the run of a part, where it has pairs.
fn write_run<D: Dir>(
    alloc: Global,
    dir: &mut D,
    folder: &Path,
    part: u32,
    flush: u64,
    text: &[u8],
    entries: &[Entry],
) -> Result<(), SpillFault>
    requires short { length folder.now < 8 }
    requires entries { All (IsEntry text.now) entries.now }
    requires lent { HasItems (entry_pairs text.now entries.now)
        → IsFree (D.lent dir.old) (run_of folder.now part flush) }
    requires vacant { D.tells → HasItems (entry_pairs text.now entries.now)
        → IsVacant (run_of folder.now part flush) (files (D.told dir.old)) }
    ensures steps { let run = run_of folder.now part flush in D.tells
        → Through (Both (StandsBesideRun run (entry_pairs text.now entries.now) (files (D.told dir.old)))) (D.told dir.old) (D.told dir.new) }
    ensures written { let pairs = entry_pairs text.now entries.now in D.tells
        → OnOk result (HasItems pairs
        → (files (D.told dir.new) (run_of folder.now part flush)).now ≡ Some (pairs_text pairs)) }
    ensures others { let run = run_of folder.now part flush in D.tells
        → OnOk result (StandsButRun run (entry_pairs text.now entries.now) (files (D.told dir.old)) (files (D.told dir.new))) }
    ensures lent { D.lent dir.new ≡ D.lent dir.old }
    ensures beside { D.beside dir.new ≡ D.beside dir.old }
    ensures cause { HasCause SpillFault.Disk (D.faults dir.old) (D.faults dir.new) result }
{
    if entries.is_empty() {
        return Ok(());
    }
    let path = run_path(alloc, folder, part, flush)?;
    write_pairs(alloc, dir, &path, text, entries)
}

/// Writes a run for each part that has pairs.
pub(crate) fn write_runs<D: Dir>(
    alloc: Global,
    dir: &mut D,
    folder: &Path,
    flush: u64,
    text: &[u8],
    parts: &[Vec<Entry>],
) -> Result<(), SpillFault>
    requires short { length folder.now < 8 }
    requires few { length parts.now ≤ 100000 }
    requires entries { AreEntries text.now parts.now }
    requires lent { AreListsFree folder.now flush (lists_of text.now parts.now) (D.lent dir.old) }
    requires vacant { D.tells
        → AreListsVacant folder.now flush (lists_of text.now parts.now) (files (D.told dir.old)) }
    ensures steps { let lists = lists_of text.now parts.now in D.tells
        → Through (Both (StandsBesideLists folder.now flush lists (files (D.told dir.old)))) (D.told dir.old) (D.told dir.new) }
    ensures written { let lists = lists_of text.now parts.now in D.tells
        → OnOk result (HasLists folder.now flush lists (files (D.told dir.new))) }
    ensures others { let lists = lists_of text.now parts.now in D.tells
        → OnOk result (StandsButLists folder.now flush lists (files (D.told dir.old)) (files (D.told dir.new))) }
    ensures lent { D.lent dir.new ≡ D.lent dir.old }
    ensures beside { D.beside dir.new ≡ D.beside dir.old }
    ensures cause { HasCause SpillFault.Disk (D.faults dir.old) (D.faults dir.new) result }
{
    let mut part = 0;
    for entries in parts {
        write_run(alloc, dir, folder, part, flush, text, entries)?;
        part += 1;
    }
    Ok(())
}

/// Adds the path of its run to a part's paths, where the part has entries, whatever their text.
fn note_run(
    alloc: Global,
    folder: &Path,
    part: u32,
    flush: u64,
    entries: &[Entry],
    paths: &mut Vec<Path>,
) -> Result<(), NoMemory>
    requires { length folder.now < 8 }
    ensures { (text : List ℕ) → OnOk result
        (paths.new.items ≡ paths.old.items ++ new_runs (run_of folder.now part flush) (entry_pairs text entries.now)) }
{
    if !entries.is_empty() {
        paths.push(run_path(alloc, folder, part, flush)?)?;
    }
    Ok(())
}

/// Adds the paths of the runs of a flush to those of their parts. Without memory some may have been added.
pub(crate) fn note_runs(
    alloc: Global,
    folder: &Path,
    flush: u64,
    parts: &[Vec<Entry>],
    runs: &mut Vec<Vec<Path>>,
) -> Result<(), NoMemory>
    requires short { length folder.now < 8 }
    requires few { length parts.now ≤ 100000 }
    requires same { length parts.now ≡ length runs.old.items }
    ensures len { length runs.new.items ≡ length runs.old.items }
    ensures noted { (text : List ℕ) → OnOk result
        (AreNoted folder.now flush (lists_of text parts.now) (map (λ paths. paths.items) runs.old.items) (map (λ paths. paths.items) runs.new.items)) }
{
    let mut part = 0;
    for entries in parts {
        note_run(
            alloc,
            folder,
            part,
            flush,
            entries,
            &mut runs[part as usize],
        )?;
        part += 1;
    }
    Ok(())
}

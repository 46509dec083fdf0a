ghost use Rattle.std.specs.Prelude.{◌≡◌, ℕ, ◌<◌, ◌≤◌, ◌↔◌, ◌++◌, [], length, map, All, IfOk, OnOk, OnErr, IsOk, IsTrue, replicate};
ghost use Rattle.dir_disk.specs.Causes.{HasCause};
ghost use Rattle.dir_disk.specs.Moments.{Both, Through, files};
ghost use Rattle.pairs.specs.Pairs.{IsPlain};
ghost use Rattle.spill.specs.Lines.{AreEntries, sorted_lists};
ghost use Rattle.spill.specs.Runs.{new_runs, StandsBesideRuns, StandsButRuns, HasRuns};
ghost use Rattle.spill.specs.Chunks.{StandsBesideLists, StandsButLists, HasLists, AreListsFree, AreListsVacant, AreNoted};
ghost use Rattle.spill.specs.Spills.{empty_spill, with_pair, bytes_held, pairs_at, runs_at, next_run, AreFree, AreVacant, number_after};

use crate::chunk::{clear_parts, empty_parts, hold, sort_parts};
use crate::entry::Entry;
use crate::fault::SpillFault;
use crate::writing::{note_runs, write_runs};
use dir_disk::Dir;
use partition::part_of;
use peg_base::Path;
use peg_text::NoMemory;
use std::alloc::Global;
use std::marker::Model;

/// The most bytes for which room is asked at once.
const MOST_ROOM: u64 = 1 << 26;

/// Pairs of a key and a value on their way to sorted runs. They are held up to a limit of bytes, in the order in which
/// they were pushed, and a flush writes them as files, one for each part that has some.
#[derive(Drop)]
pub struct Spill {
    limit: u64,
    reducers: u32,
    folder: Path,
    /// The pairs held, each as a line.
    text: Vec<u8>,
    /// The entries of these lines, by parts, in the order in which they were pushed.
    parts: Vec<Vec<Entry>>,
    /// How many bytes the keys and values held have.
    bytes: u64,
    flushes: u64,
    /// The paths of the runs, by parts.
    runs: Vec<Vec<Path>>,
}

impl Model for Spill {
    ghost use Rattle.std.specs.Prelude.{map, length};
    ghost use Rattle.pairs.specs.Pairs.{pairs_in};
    ghost use Rattle.spill.specs.Spills.{Held, IsWell};

    ghost Value = { Held };

    ghost view = { λ s. record { limit = s.limit; reducers = s.reducers; folder = s.folder; pairs = pairs_in s.text.items; flushes = s.flushes; runs = map (λ paths. paths.items) s.runs.items } };

    ghost invariant = { λ s. IsWell s.text.items s.parts.items s.bytes s.reducers (length s.runs.items) s.folder };
}

impl Spill {
    /// A spill that holds no pair, for as many parts as there are reducers, with its runs in the folder. It is full at
    /// `limit` bytes of keys and values.
    pub fn new(alloc: Global, limit: u64, reducers: u32, folder: &Path) -> Result<Spill, NoMemory>
        requires some { 1 ≤ reducers }
        requires few { reducers ≤ 100000 }
        requires short { length folder.now < 8 }
        ensures { IfOk result (λ spill. spill ≡ empty_spill limit reducers folder.now) }
    {
        let runs = empty_runs(alloc, reducers)?;
        let room = limit.min(MOST_ROOM) as usize / 4 * 5;
        Ok(Spill {
            limit,
            reducers,
            folder: folder.copy(alloc)?,
            text: Vec::with_capacity(alloc, room)?,
            parts: empty_parts(alloc, reducers, room / 12 / reducers as usize)?,
            bytes: 0,
            flushes: 0,
            runs,
        })
    }

    /// Adds a pair. Without memory, or where the lines held or that of the pair have 4 GiB or more, the pairs held are
    /// as before.
    pub fn push(&mut self, alloc: Global, key: &[u8], value: &[u8]) -> Result<(), NoMemory>
        requires { IsPlain (key.now, value.now) }
        ensures pushed { OnOk result (self.new ≡ with_pair (key.now, value.now) self.old) }
        ensures no_memory { OnErr result (self.new ≡ self.old) }
    {
        let part = part_of(key, self.reducers) as usize;
        hold(alloc, &mut self.text, &mut self.parts[part], key, value)?;
        self.bytes += (key.len() + value.len()) as u64;
        Ok(())
    }

    /// Whether the bytes of the keys and values held reach the limit.
    pub fn full(&self) -> bool
        ensures { IsTrue result ↔ (self.now.limit ≤ bytes_held self.now) }
    {
        self.bytes >= self.limit
    }

    /// Writes the pairs held as runs, one for each part that has some, and holds none then. Without pairs it makes no
    /// call of the directory, and isn't numbered. After a refusal the spill may only be dropped; the runs of this flush
    /// may have anything.
    pub fn flush<D: Dir>(&mut self, alloc: Global, dir: &mut D) -> Result<(), SpillFault>
        requires lent { AreFree (D.lent dir.old) self.old }
        requires vacant { D.tells → AreVacant (files (D.told dir.old)) self.old }
        ensures steps { let entry = files (D.told dir.old) in D.tells
            → Through (Both (StandsBesideRuns self.old.folder self.old.flushes self.old.reducers self.old.pairs entry)) (D.told dir.old) (D.told dir.new) }
        ensures written { D.tells
            → OnOk result (HasRuns self.old.folder self.old.flushes self.old.reducers self.old.pairs (files (D.told dir.new))) }
        ensures others { let entry = files (D.told dir.old) in D.tells
            → OnOk result (StandsButRuns self.old.folder self.old.flushes self.old.reducers self.old.pairs entry (files (D.told dir.new))) }
        ensures held { OnOk result (self.new.pairs ≡ []) }
        ensures numbered { OnOk result (self.new.flushes ≡ number_after self.old.pairs self.old.flushes) }
        ensures runs { OnOk result ((part : ℕ) → part < self.old.reducers
            → runs_at self.new part ≡ runs_at self.old part ++ new_runs (next_run self.old part) (pairs_at self.old part)) }
        ensures limit { self.new.limit ≡ self.old.limit }
        ensures reducers { self.new.reducers ≡ self.old.reducers }
        ensures folder { self.new.folder ≡ self.old.folder }
        ensures nothing { self.old.pairs ≡ []
            → IsOk result × (self.new ≡ self.old) × (D.told dir.new ≡ D.told dir.old) }
        ensures plain { All IsPlain self.old.pairs }
        ensures lent { D.lent dir.new ≡ D.lent dir.old }
        ensures beside { D.beside dir.new ≡ D.beside dir.old }
        ensures cause { HasCause SpillFault.Disk (D.faults dir.old) (D.faults dir.new) result }
    {
        if self.text.is_empty() {
            return Ok(());
        }
        let Some(next) = self.flushes.checked_add(1) else {
            return Err(SpillFault::NoMemory);
        };
        let written = write_chunk(
            alloc,
            dir,
            &self.folder,
            self.flushes,
            &self.text,
            &mut self.parts,
            &mut self.runs,
        );
        self.text.clear();
        clear_parts(&mut self.parts);
        self.bytes = 0;
        written?;
        self.flushes = next;
        Ok(())
    }

    /// The paths of a part's runs, in the order of their flushes.
    pub fn runs(&self, part: u32) -> &[Path]
        requires { part < self.now.reducers }
        ensures { result.now ≡ runs_at self.now part }
    {
        &self.runs[part as usize]
    }
}

/// No paths for each part.
fn empty_runs(alloc: Global, reducers: u32) -> Result<Vec<Vec<Path>>, NoMemory>
    ensures { IfOk result (λ runs. map (λ paths. paths.items) runs.items ≡ replicate reducers []) }
{
    let mut runs = Vec::new(alloc);
    for _part in 0..reducers {
        runs.push(Vec::new(alloc))?;
    }
    Ok(runs)
}

/// Sorts the entries of a chunk by parts, writes its runs, and adds their paths to those of their parts.
fn write_chunk<D: Dir>(
    alloc: Global,
    dir: &mut D,
    folder: &Path,
    flush: u64,
    text: &[u8],
    parts: &mut [Vec<Entry>],
    runs: &mut Vec<Vec<Path>>,
) -> Result<(), SpillFault>
    requires few { length parts.old ≤ 100000 }
    requires entries { AreEntries text.now parts.old }
    requires short { length folder.now < 8 }
    requires runs { length runs.old.items ≡ length parts.old }
    requires lent { AreListsFree folder.now flush (sorted_lists text.now parts.old) (D.lent dir.old) }
    requires vacant { D.tells
        → AreListsVacant folder.now flush (sorted_lists text.now parts.old) (files (D.told dir.old)) }
    ensures steps { let lists = sorted_lists text.now parts.old in D.tells
        → Through (Both (StandsBesideLists folder.now flush lists (files (D.told dir.old)))) (D.told dir.old) (D.told dir.new) }
    ensures written { D.tells
        → OnOk result (HasLists folder.now flush (sorted_lists text.now parts.old) (files (D.told dir.new))) }
    ensures others { let lists = sorted_lists text.now parts.old in D.tells
        → OnOk result (StandsButLists folder.now flush lists (files (D.told dir.old)) (files (D.told dir.new))) }
    ensures parts { length parts.new ≡ length parts.old }
    ensures len { length runs.new.items ≡ length runs.old.items }
    ensures noted { OnOk result
        (AreNoted folder.now flush (sorted_lists text.now parts.old) (map (λ paths. paths.items) runs.old.items) (map (λ paths. paths.items) runs.new.items)) }
    ensures lent { D.lent dir.new ≡ D.lent dir.old }
    ensures beside { D.beside dir.new ≡ D.beside dir.old }
    ensures cause { HasCause SpillFault.Disk (D.faults dir.old) (D.faults dir.new) result }
{
    sort_parts(text, parts);
    write_runs(alloc, dir, folder, flush, text, parts)?;
    note_runs(alloc, folder, flush, parts, runs)?;
    Ok(())
}

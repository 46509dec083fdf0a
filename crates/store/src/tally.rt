ghost use Rattle.std.specs.Prelude.{◌≡◌, ◌++◌, ◌+◌, ◌∷◌, ◌≤◌, ◌<◌, ◌^◌, ℕ, List, [], length, drop, IfOk, OnOk, OnErr, MatchBool, MatchOption, Bool, Some, IfErr};
ghost use Rattle.std.specs.Bool.{OnTrue};
ghost use Rattle.peg_text.specs.Records.{HasNoLf, records_of};
ghost use Rattle.dir_disk.specs.Calls.{HasFile};
ghost use Rattle.dir_disk.specs.Causes.{HasCause};
ghost use Rattle.dir_disk.specs.Lent.{IsNoOutput};
ghost use Rattle.dir_disk.specs.Moments.{Both, IsFresh, Through, files};
ghost use Rattle.dir_disk.specs.State.{bytes_at};
ghost use Rattle.committer.specs.Paths.{part_of};
ghost use Rattle.store.specs.Parts.{AreGood, IsFirstBad, Record, records_below};
ghost use Rattle.store.specs.Tallies.{HasAll, HasTallied};
ghost use Rattle.store.specs.Faults.{BadStoreOf};

use crate::fault::{ReadingFault, StoreFault};
use crate::sizes::{MOST_BYTES, PIECE};
use committer::part_path;
use dir_disk::Dir;
use peg_base::Path;
use peg_text::{LineBuf, NoMemory};
use std::alloc::Global;

/// What is made of the records of a folder's parts, one record after another.
pub(crate) trait Tally {
    /// Whether a record is of the grammar.
    ghost is_good: { List ℕ → Bool };

    /// What the tally is once these records were added.
    ghost tallies: { Self → List Record → Type 0 };

    /// Adds the record of this number in its part. The answer is false, and nothing is added, where it isn't of
    /// the grammar.
    fn add(&mut self, part: u32, line: u64, text: &[u8]) -> Result<bool, NoMemory>
        ensures good { IfOk result (λ good. good ≡ is_good text.now) }
        ensures added { IfOk result (λ good. OnTrue good ((before : List Record) → tallies self.old before
            → tallies self.new (before ++ record { part = part; line = line; text = text.now } ∷ []))) };
}

/// Adds the whole records that are held. The answer is false where one isn't of the grammar, and `line` is its
/// number then. The rest of the bytes stays held.
fn add_records<T: Tally>(
    alloc: Global,
    held: &mut LineBuf,
    part: u32,
    line: &mut u64,
    tally: &mut T,
) -> Result<bool, NoMemory>
    requires few { line.old + length held.old ≤ 2 ^ 51 }
    ensures few { line.new + length held.new ≤ line.old + length held.old }
    ensures unbroken { IfOk result (λ good. OnTrue good (HasNoLf held.new)) }
    ensures added { (before : List Record) (texts : List (List ℕ)) (more : List ℕ)
        → HasTallied T.is_good (T.tallies tally.old) before part texts (held.old ++ more) line.old
        → IfOk result (λ good. MatchBool good
        (HasTallied T.is_good (T.tallies tally.new) before part texts (held.new ++ more) line.new)
        (IsFirstBad T.is_good texts line.new)) }
{
    let mut text = Vec::new(alloc);
    while held.next(alloc, &mut text)? {
        if !tally.add(part, *line, &text)? {
            return Ok(false);
        }
        *line += 1;
    }
    Ok(true)
}

/// Adds the last record, if one is held. The answer is false where it isn't of the grammar.
fn add_last<T: Tally>(
    alloc: Global,
    held: &mut LineBuf,
    part: u32,
    line: u64,
    tally: &mut T,
) -> Result<bool, NoMemory>
    requires unbroken { HasNoLf held.old }
    ensures added { (before : List Record) (texts : List (List ℕ))
        → HasTallied T.is_good (T.tallies tally.old) before part texts held.old line
        → IfOk result (λ good. MatchBool good
        (HasAll T.is_good (T.tallies tally.new) before part texts)
        (IsFirstBad T.is_good texts line)) }
{
    let mut text = Vec::new(alloc);
    if !held.last(alloc, &mut text)? {
        return Ok(true);
    }
    let good = tally.add(part, line, &text)?;
    Ok(good)
}

/// Reads a file to its end, and adds its records but for a last one that no LF ends. That one stays held.
fn add_pieces<D: Dir, T: Tally>(
    alloc: Global,
    dir: &mut D,
    path: &Path,
    part: u32,
    held: &mut LineBuf,
    line: &mut u64,
    tally: &mut T,
) -> Result<bool, StoreFault>
    requires lent { IsNoOutput (D.lent dir.old) path.now }
    requires there { D.tells → HasFile (files (D.told dir.old)) path.now }
    requires empty { held.old ≡ [] }
    requires first { line.old ≡ 1 }
    ensures unbroken { IfOk result (λ good. OnTrue good (HasNoLf held.new)) }
    ensures added { let texts = records_of (bytes_at (files (D.told dir.old)) path.now) in D.tells
        → (before : List Record) → T.tallies tally.old before
        → IfOk result (λ good. MatchBool good
        (HasTallied T.is_good (T.tallies tally.new) before part texts held.new line.new)
        (IsFirstBad T.is_good texts line.new)) }
    ensures stands { D.tells
        → Through (Both (λ state. state ≡ files (D.told dir.old))) (D.told dir.old) (D.told dir.new) }
    ensures fresh { D.tells → IsFresh (D.told dir.old) → OnOk result (IsFresh (D.told dir.new)) }
    ensures lent { D.lent dir.new ≡ D.lent dir.old }
    ensures beside { D.beside dir.new ≡ D.beside dir.old }
    ensures cause { HasCause StoreFault.Disk (D.faults dir.old) (D.faults dir.new) result }
{
    let mut place = 0;
    while place < MOST_BYTES {
        let piece = dir.read(alloc, path, place, PIECE)?;
        if piece.is_empty() {
            return Ok(true);
        }
        held.feed(alloc, &piece)?;
        place += piece.len() as u64;
        if !add_records(alloc, held, part, line, tally)? {
            return Ok(false);
        }
    }
    Ok(true)
}

/// Adds the records of a part, which is the file at the path. The answer is the number of the first one that isn't
/// of the grammar, if there is one.
fn add_part<D: Dir, T: Tally>(
    alloc: Global,
    dir: &mut D,
    path: &Path,
    part: u32,
    tally: &mut T,
) -> Result<Option<u64>, StoreFault>
    requires lent { IsNoOutput (D.lent dir.old) path.now }
    requires there { D.tells → HasFile (files (D.told dir.old)) path.now }
    ensures added { let texts = records_of (bytes_at (files (D.told dir.old)) path.now) in D.tells
        → (before : List Record) → T.tallies tally.old before
        → IfOk result (λ bad. MatchOption bad
        (HasAll T.is_good (T.tallies tally.new) before part texts)
        (IsFirstBad T.is_good texts)) }
    ensures stands { D.tells
        → Through (Both (λ state. state ≡ files (D.told dir.old))) (D.told dir.old) (D.told dir.new) }
    ensures fresh { D.tells → IsFresh (D.told dir.old) → OnOk result (IsFresh (D.told dir.new)) }
    ensures lent { D.lent dir.new ≡ D.lent dir.old }
    ensures beside { D.beside dir.new ≡ D.beside dir.old }
    ensures cause { HasCause StoreFault.Disk (D.faults dir.old) (D.faults dir.new) result }
{
    let mut held = LineBuf::new(alloc);
    let mut line = 1;
    if !add_pieces(alloc, dir, path, part, &mut held, &mut line, tally)? {
        return Ok(Some(line));
    }
    if !add_last(alloc, &mut held, part, line, tally)? {
        return Ok(Some(line));
    }
    Ok(None)
}

/// Adds the records of the first parts of a folder, in the order of the parts.
pub(crate) fn add_parts<D: Dir, T: Tally>(
    alloc: Global,
    dir: &mut D,
    folder: &Path,
    parts: u32,
    tally: &mut T,
) -> Result<(), ReadingFault>
    requires short { length folder.now < 8 }
    requires lent { (part : ℕ) → part < parts → IsNoOutput (D.lent dir.old) (part_of folder.now part) }
    requires none { T.tallies tally.old [] }
    ensures added { let records = records_below (files (D.told dir.old)) folder.now parts in D.tells
        → OnOk result (T.tallies tally.new records) }
    ensures good { D.tells → OnOk result (AreGood T.is_good (files (D.told dir.old)) folder.now parts) }
    ensures bad { D.tells → IfErr result (BadStoreOf T.is_good (files (D.told dir.old)) folder.now parts) }
    ensures stands { D.tells
        → Through (Both (λ state. state ≡ files (D.told dir.old))) (D.told dir.old) (D.told dir.new) }
    ensures fresh { 1 ≤ parts → D.tells → OnOk result (IsFresh (D.told dir.new)) }
    ensures lent { D.lent dir.new ≡ D.lent dir.old }
    ensures beside { D.beside dir.new ≡ D.beside dir.old }
    ensures cause { HasCause ReadingFault.Disk (D.faults dir.old) (D.faults dir.new) result }
{
    for part in 0..parts {
        let path = part_path(alloc, folder, part)?;
        if dir.size(alloc, &path)?.is_none() {
            return Err(ReadingFault::BadStore { path, line: 0 });
        }
        if let Some(line) = add_part(alloc, dir, &path, part, tally)? {
            return Err(ReadingFault::BadStore { path, line });
        }
    }
    Ok(())
}

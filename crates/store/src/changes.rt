ghost use Rattle.std.specs.Prelude.{◌≡◌, ◌<◌, ◌≤◌, ℕ, length, IfOk, OnOk, IfErr, unwrap_or, None, Some, nat_lt, if◌then◌else◌};
ghost use Rattle.std.specs.Option.{option_or};
ghost use Rattle.dir_disk.specs.Causes.{HasCause};
ghost use Rattle.dir_disk.specs.Lent.{IsNoOutput};
ghost use Rattle.dir_disk.specs.Moments.{Both, IsFresh, Through, files};
ghost use Rattle.committer.specs.Paths.{part_of};
ghost use Rattle.store.specs.Faults.{BadStoreOf};
ghost use Rattle.store.specs.Parts.{AreGood, records_below};
ghost use Rattle.store.specs.Totals.{change_of, changed, first_change, is_value};

use crate::fault::ReadingFault;
use crate::tally::{Tally, add_parts};
use dir_disk::Dir;
use gimv_base::{after_tag, around_blank, read_below};
use peg_base::Path;
use peg_text::{NoMemory, read_decimal, split_pair};
use std::alloc::Global;

/// The place of a record in a folder: its part, and its number in that part, from 1.
#[derive(Clone, Copy, Debug, PartialEq, Eq)]
pub struct Place {
    pub part: u32,
    pub line: u64,
}

/// How many nodes changed, and where the first record stands that counts one.
#[derive(Clone, Copy, Debug, PartialEq, Eq)]
pub struct Changes {
    pub count: u64,
    pub first: Option<Place>,
}

/// How many nodes changed, by the record `key TAB V SP count SP rest`. `None` where it isn't such a record.
fn read_change(line: &[u8]) -> Option<u32>
    ensures { result ≡ change_of line.now }
{
    let (key, value) = split_pair(line);
    read_decimal(key)?;
    let (count, rest) = around_blank(after_tag(value, b'V')?)?;
    if rest.is_empty() {
        return None;
    }
    read_below(count, 257)
}

/// The first place of a change, where a record at this place comes next that counts so many.
fn first_of(first: Option<Place>, change: u32, place: Place) -> Option<Place>
    ensures { result ≡ option_or first (if nat_lt 0 change then Some place else None) }
{
    match first {
        Some(_) => first,
        None if change > 0 => Some(place),
        None => None,
    }
}

impl Tally for Changes {
    ghost use Rattle.std.specs.Prelude.{◌≡◌};
    ghost use Rattle.store.specs.Totals.{changed, first_change, is_value};

    ghost is_good = { is_value };

    ghost tallies = { λ changes records.
        (changes.count ≡ changed records) × (changes.first ≡ first_change records) };

    fn add(&mut self, part: u32, line: u64, text: &[u8]) -> Result<bool, NoMemory> {
        let Some(change) = read_change(text) else {
            return Ok(false);
        };
        let Some(count) = self.count.checked_add(u64::from(change)) else {
            return Err(NoMemory);
        };
        self.first = first_of(self.first, change, Place { part, line });
        self.count = count;
        Ok(true)
    }
}

/// How many nodes changed, by the records of the first `parts` parts of a vector's folder, and where the first
/// record stands that counts one.
///
/// All records are read first: one that isn't of the grammar is refused even behind a change.
pub fn count_changes<D: Dir>(
    alloc: Global,
    dir: &mut D,
    folder: &Path,
    parts: u32,
) -> Result<Changes, ReadingFault>
    requires short { length folder.now < 8 }
    requires lent { (part : ℕ) → part < parts → IsNoOutput (D.lent dir.old) (part_of folder.now part) }
    ensures count { let records = records_below (files (D.told dir.old)) folder.now parts in D.tells
        → IfOk result (λ changes. changes.count ≡ changed records) }
    ensures first { let records = records_below (files (D.told dir.old)) folder.now parts in D.tells
        → IfOk result (λ changes. changes.first ≡ first_change records) }
    ensures good { D.tells → OnOk result (AreGood is_value (files (D.told dir.old)) folder.now parts) }
    ensures bad { D.tells → IfErr result (BadStoreOf is_value (files (D.told dir.old)) folder.now parts) }
    ensures stands { D.tells
        → Through (Both (λ state. state ≡ files (D.told dir.old))) (D.told dir.old) (D.told dir.new) }
    ensures fresh { 1 ≤ parts → D.tells → OnOk result (IsFresh (D.told dir.new)) }
    ensures lent { D.lent dir.new ≡ D.lent dir.old }
    ensures beside { D.beside dir.new ≡ D.beside dir.old }
    ensures cause { HasCause ReadingFault.Disk (D.faults dir.old) (D.faults dir.new) result }
{
    let mut changes = Changes {
        count: 0,
        first: None,
    };
    add_parts(alloc, dir, folder, parts, &mut changes)?;
    Ok(changes)
}

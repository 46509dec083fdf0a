ghost use Rattle.std.specs.Prelude.{◌≡◌, ◌<◌, ◌≤◌, ℕ, length, true, IfOk, OnOk, IfErr};
ghost use Rattle.conf.specs.Commands.{is_mining};
ghost use Rattle.dir_disk.specs.Causes.{HasCause};
ghost use Rattle.dir_disk.specs.Lent.{IsNoOutput};
ghost use Rattle.dir_disk.specs.Moments.{Both, IsFresh, Through, files};
ghost use Rattle.committer.specs.Paths.{part_of};
ghost use Rattle.store.specs.Faults.{BadStoreOf};
ghost use Rattle.store.specs.Parts.{AreGood, records_below};
ghost use Rattle.store.specs.Totals.{is_result, numbers_of, total_of};

use crate::fault::ReadingFault;
use crate::tally::{Tally, add_parts};
use conf::Command;
use dir_disk::Dir;
use peg_base::Path;
use peg_text::{NoMemory, read_decimal, split_pair};
use std::alloc::Global;

/// The numbers of a line of a result.
#[derive(Clone, Copy, Debug, PartialEq, Eq)]
pub struct Numbers {
    pub id: u64,
    pub number: u64,
}

/// How many lines of a result have twice the same number.
#[derive(Clone, Copy)]
struct OwnLabels {
    count: u64,
}

/// The greatest number of a result.
#[derive(Clone, Copy)]
struct Greatest {
    number: u64,
}

/// The sum of the numbers of a result.
#[derive(Clone, Copy)]
struct Units {
    sum: u128,
}

/// The numbers of a line `id TAB number`. `None` where it isn't such a line.
fn read_numbers(line: &[u8]) -> Option<Numbers>
    ensures { result ≡ numbers_of line.now }
{
    let (key, value) = split_pair(line);
    let id = read_decimal(key)?;
    let number = read_decimal(value)?;
    Some(Numbers { id, number })
}

impl Tally for OwnLabels {
    ghost use Rattle.std.specs.Prelude.{◌≡◌};
    ghost use Rattle.conf.specs.declared.commands.Command.TheVariants.{Hcc};
    ghost use Rattle.store.specs.Totals.{is_result, total_of};

    ghost is_good = { is_result };

    ghost tallies = { λ labels records. labels.count ≡ total_of Hcc records };

    fn add(&mut self, _: u32, _: u64, text: &[u8]) -> Result<bool, NoMemory> {
        let Some(numbers) = read_numbers(text) else {
            return Ok(false);
        };
        let Some(count) = self
            .count
            .checked_add(u64::from(numbers.id == numbers.number))
        else {
            return Err(NoMemory);
        };
        self.count = count;
        Ok(true)
    }
}

impl Tally for Greatest {
    ghost use Rattle.std.specs.Prelude.{◌≡◌};
    ghost use Rattle.conf.specs.declared.commands.Command.TheVariants.{Hadi};
    ghost use Rattle.store.specs.Totals.{is_result, total_of};

    ghost is_good = { is_result };

    ghost tallies = { λ greatest records. greatest.number ≡ total_of Hadi records };

    fn add(&mut self, _: u32, _: u64, text: &[u8]) -> Result<bool, NoMemory> {
        let Some(numbers) = read_numbers(text) else {
            return Ok(false);
        };
        self.number = self.number.max(numbers.number);
        Ok(true)
    }
}

impl Tally for Units {
    ghost use Rattle.std.specs.Prelude.{◌≡◌};
    ghost use Rattle.conf.specs.declared.commands.Command.TheVariants.{PageRank};
    ghost use Rattle.store.specs.Totals.{is_result, total_of};

    ghost is_good = { is_result };

    ghost tallies = { λ units records. units.sum ≡ total_of PageRank records };

    fn add(&mut self, _: u32, _: u64, text: &[u8]) -> Result<bool, NoMemory> {
        let Some(numbers) = read_numbers(text) else {
            return Ok(false);
        };
        let Some(sum) = self.sum.checked_add(u128::from(numbers.number)) else {
            return Err(NoMemory);
        };
        self.sum = sum;
        Ok(true)
    }
}

/// What the lines of the first `parts` parts of a result's folder say together: for HCC how many nodes are their
/// own label, for HADI the greatest radius, for PageRank the sum of the units.
pub fn total<D: Dir>(
    alloc: Global,
    dir: &mut D,
    folder: &Path,
    parts: u32,
    command: Command,
) -> Result<u128, ReadingFault>
    requires mining { is_mining command ≡ true }
    requires short { length folder.now < 8 }
    requires lent { (part : ℕ) → part < parts → IsNoOutput (D.lent dir.old) (part_of folder.now part) }
    ensures total { let records = records_below (files (D.told dir.old)) folder.now parts in D.tells
        → IfOk result (λ total. total ≡ total_of command records) }
    ensures good { D.tells → OnOk result (AreGood is_result (files (D.told dir.old)) folder.now parts) }
    ensures bad { D.tells → IfErr result (BadStoreOf is_result (files (D.told dir.old)) folder.now parts) }
    ensures stands { D.tells
        → Through (Both (λ state. state ≡ files (D.told dir.old))) (D.told dir.old) (D.told dir.new) }
    ensures fresh { 1 ≤ parts → D.tells → OnOk result (IsFresh (D.told dir.new)) }
    ensures lent { D.lent dir.new ≡ D.lent dir.old }
    ensures beside { D.beside dir.new ≡ D.beside dir.old }
    ensures cause { HasCause ReadingFault.Disk (D.faults dir.old) (D.faults dir.new) result }
{
    match command {
        Command::Plain => Ok(0),
        Command::Hcc => {
            let mut labels = OwnLabels { count: 0 };
            add_parts(alloc, dir, folder, parts, &mut labels)?;
            Ok(u128::from(labels.count))
        }
        Command::Hadi => {
            let mut greatest = Greatest { number: 0 };
            add_parts(alloc, dir, folder, parts, &mut greatest)?;
            Ok(u128::from(greatest.number))
        }
        Command::PageRank => {
            let mut units = Units { sum: 0 };
            add_parts(alloc, dir, folder, parts, &mut units)?;
            Ok(units.sum)
        }
    }
}

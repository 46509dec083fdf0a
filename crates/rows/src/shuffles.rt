ghost use Rattle.std.specs.Prelude.{◌≡◌, ◌≢◌, true, All};

use crate::directory::{rest, word};
use crate::looks::trimmed;
use crate::reading::{number_of, path_below, path_of};
use crate::settings::{check_settings, number_in, path_in, paths_in, small_in, text_in};
use crate::trouble::Trouble;
use crate::world::World;
use crate::writing::{add, add_quoted, number, text};
use job::{ShuffleFault, shuffle};
use merge::{MergeFault, merge_runs};
use peg_base::Path;
use peg_text::{records, split_pair};
use spill::{Spill, SpillFault};
use splits::{Split, SplitFault, lines_of_split, split_table};
use std::alloc::Global;

/// The most bytes of a file and of a split that a row may ask for.
const LONGEST: u64 = 1 << 60;

/// `PATH START END into PATH`: writes the lines that begin in a split, and answers how many they are.
pub(crate) fn split(
    alloc: Global,
    world: &mut World,
    args: &[Vec<u8>],
) -> Result<Vec<u8>, Trouble> {
    let path = path_of(alloc, word(args, 0))?;
    let split = Split {
        start: number_of(word(args, 1))?,
        end: number_of(word(args, 2))?,
    };
    check_settings(rest(args, 3), &[b"into"])?;
    let out = path_in(alloc, rest(args, 3), b"into")?;
    if world.site.site.running() != 0 {
        return Err(Trouble::Misread);
    }
    match lines_of_split(alloc, &mut world.site, &path, &split, &out) {
        Ok(lines) => number(alloc, lines),
        Err(SplitFault::Disk) => text(alloc, b"disk"),
        Err(SplitFault::NoMemory) => text(alloc, b"memory"),
    }
}

/// The splits of a file, where each but the last has so many bytes.
fn splits_of(
    alloc: Global,
    world: &World,
    path: &Path,
    length: u64,
) -> Result<Vec<Split>, Trouble> {
    let Some(bytes) = world.content(path) else {
        return Err(Trouble::Misread);
    };
    let len = bytes.len() as u64;
    if len > LONGEST || length == 0 || length > LONGEST {
        return Err(Trouble::Misread);
    }
    Ok(split_table(alloc, len, length)?)
}

/// Writes the lines that begin in a split, and adds them in quotes.
fn cut_one(
    alloc: Global,
    world: &mut World,
    path: &Path,
    split: &Split,
    to: &Path,
    out: &mut Vec<u8>,
) -> Result<(), Trouble> {
    if world.site.site.running() != 0 {
        return Err(Trouble::Misread);
    }
    let Ok(_) = lines_of_split(alloc, &mut world.site, path, split, to) else {
        return Err(Trouble::Misread);
    };
    let Some(lines) = world.content(to) else {
        return Err(Trouble::Misread);
    };
    add_quoted(out, lines)?;
    add(out, b" ")
}

fn cut_all(
    alloc: Global,
    world: &mut World,
    path: &Path,
    splits: &[Split],
    folder: &Path,
) -> Result<Vec<u8>, Trouble> {
    let mut out = Vec::new(alloc);
    for (at, split) in splits.iter().enumerate() {
        let name = number(alloc, at as u64)?;
        let to = path_below(alloc, folder, &name)?;
        cut_one(alloc, world, path, split, &to, &mut out)?;
    }
    trimmed(out)
}

/// `PATH LENGTH into FOLDER`: cuts a file into splits of this length, and answers the lines of each.
pub(crate) fn cut(alloc: Global, world: &mut World, args: &[Vec<u8>]) -> Result<Vec<u8>, Trouble> {
    let path = path_of(alloc, word(args, 0))?;
    let length = number_of(word(args, 1))?;
    check_settings(rest(args, 2), &[b"into"])?;
    let folder = path_in(alloc, rest(args, 2), b"into")?;
    let splits = splits_of(alloc, world, &path, length)?;
    cut_all(alloc, world, &path, &splits, &folder)
}

/// `PATH from RUN .. scratch FOLDER`: merges runs, and answers how many pairs they have.
pub(crate) fn merge(
    alloc: Global,
    world: &mut World,
    args: &[Vec<u8>],
) -> Result<Vec<u8>, Trouble> {
    let out = path_of(alloc, word(args, 0))?;
    check_settings(rest(args, 1), &[b"from", b"scratch"])?;
    let runs = paths_in(alloc, rest(args, 1), b"from")?;
    let scratch = path_in(alloc, rest(args, 1), b"scratch")?;
    if out.under(&scratch) || scratch.under(&out) || scratch.names().len() >= 8 {
        return Err(Trouble::Misread);
    }
    if world.site.site.running() != 0 {
        return Err(Trouble::Misread);
    }
    match merge_runs(alloc, &mut world.site, &runs, &scratch, &out) {
        Ok(pairs) => number(alloc, pairs),
        Err(MergeFault::Disk) => text(alloc, b"disk"),
        Err(MergeFault::NoMemory) => text(alloc, b"memory"),
    }
}

/// `FOLDER from OUTPUT .. parts N spill N`: shuffles outputs of map tasks, and answers how many pairs they have.
pub(crate) fn shuffle_outputs(
    alloc: Global,
    world: &mut World,
    args: &[Vec<u8>],
) -> Result<Vec<u8>, Trouble> {
    let folder = path_of(alloc, word(args, 0))?;
    check_settings(rest(args, 1), &[b"from", b"parts", b"spill"])?;
    let outputs = paths_in(alloc, rest(args, 1), b"from")?;
    let parts = small_in(rest(args, 1), b"parts", 1)?;
    let limit = number_in(rest(args, 1), b"spill", 1024)?;
    if folder.names().len() > 4 || parts == 0 || parts > 64 {
        return Err(Trouble::Misread);
    }
    if world.site.site.running() != 0 {
        return Err(Trouble::Misread);
    }
    match shuffle(alloc, &mut world.site, &folder, &outputs, parts, limit) {
        Ok(pairs) => number(alloc, pairs),
        Err(ShuffleFault::Disk) => text(alloc, b"disk"),
        Err(ShuffleFault::NoMemory) => text(alloc, b"memory"),
    }
}

/// Whether no byte is this one.
fn lacks(bytes: &[u8], byte: u8) -> bool
    ensures { result ≡ true → All (λ b. b ≢ byte) bytes.now }
{
    bytes.iter().all(|found| *found != byte)
}

/// Adds the pair of a line to a spill.
fn push_line(alloc: Global, spill: &mut Spill, line: &[u8]) -> Result<(), Trouble> {
    let (key, value) = split_pair(line);
    if !lacks(key, b'\t') || !lacks(key, b'\n') || !lacks(value, b'\n') {
        return Err(Trouble::Misread);
    }
    spill.push(alloc, key, value)?;
    Ok(())
}

/// Writes the pairs that a spill holds where no child runs.
fn flush(
    alloc: Global,
    world: &mut World,
    spill: &mut Spill,
) -> Result<Result<(), SpillFault>, Trouble> {
    if world.site.site.running() != 0 {
        return Err(Trouble::Misread);
    }
    Ok(spill.flush(alloc, &mut world.site))
}

/// Adds the pairs of lines, and flushes wherever the spill is full and at the end.
fn spill_all(
    alloc: Global,
    world: &mut World,
    spill: &mut Spill,
    lines: &[&[u8]],
) -> Result<Result<(), SpillFault>, Trouble> {
    for line in lines {
        push_line(alloc, spill, line)?;
        if spill.full()
            && let Err(fault) = flush(alloc, world, spill)?
        {
            return Ok(Err(fault));
        }
    }
    flush(alloc, world, spill)
}

/// A spill of these limits into a folder.
fn spill_of(alloc: Global, folder: &Path, parts: u32, limit: u64) -> Result<Spill, Trouble> {
    if parts == 0 || parts > 64 || folder.names().len() >= 8 {
        return Err(Trouble::Misread);
    }
    Ok(Spill::new(alloc, limit, parts, folder)?)
}

/// `FOLDER pairs LINES parts N spill N`: writes the pairs of lines as runs in a folder.
pub(crate) fn spill_lines(
    alloc: Global,
    world: &mut World,
    args: &[Vec<u8>],
) -> Result<Vec<u8>, Trouble> {
    let folder = path_of(alloc, word(args, 0))?;
    check_settings(rest(args, 1), &[b"pairs", b"parts", b"spill"])?;
    let parts = small_in(rest(args, 1), b"parts", 1)?;
    let limit = number_in(rest(args, 1), b"spill", 1024)?;
    let mut spill = spill_of(alloc, &folder, parts, limit)?;
    let Ok(lines) = records(alloc, text_in(rest(args, 1), b"pairs")?) else {
        return Err(Trouble::NoMemory);
    };
    match spill_all(alloc, world, &mut spill, &lines)? {
        Ok(()) => text(alloc, b"ok"),
        Err(SpillFault::Disk) => text(alloc, b"disk"),
        Err(SpillFault::NoMemory) => text(alloc, b"memory"),
    }
}

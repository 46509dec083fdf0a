use crate::reading::{number_of, path_of, small_of};
use crate::trouble::Trouble;
use crate::world::World;
use crate::writing::{add, add_number, number, quoted, text};
use dir_disk::DirFault;
use std::alloc::Global;

/// The word of this number; empty where there is none.
pub(crate) fn word(args: &[Vec<u8>], at: usize) -> &[u8] {
    match args.get(at) {
        Some(word) => word,
        None => b"",
    }
}

/// The words from this number on.
pub(crate) fn rest(args: &[Vec<u8>], from: usize) -> &[Vec<u8>] {
    args.get(from..).unwrap_or(&[])
}

fn of_fault(alloc: Global, fault: DirFault) -> Result<Vec<u8>, Trouble> {
    text(
        alloc,
        match fault {
            DirFault::Failed => b"disk",
            DirFault::NoMemory => b"memory",
        },
    )
}

fn of_call(alloc: Global, answer: Result<(), DirFault>) -> Result<Vec<u8>, Trouble> {
    match answer {
        Ok(()) => text(alloc, b"ok"),
        Err(fault) => of_fault(alloc, fault),
    }
}

/// `PATH TEXT`: a file that is there for good.
pub(crate) fn put(alloc: Global, world: &mut World, args: &[Vec<u8>]) -> Result<(), Trouble> {
    let path = path_of(alloc, word(args, 0))?;
    world.put(alloc, &path, word(args, 1))
}

/// `PATH FROM TO WIDTH TEXT`: a file of numbered lines that is there for good.
pub(crate) fn put_lines(alloc: Global, world: &mut World, args: &[Vec<u8>]) -> Result<(), Trouble> {
    let path = path_of(alloc, word(args, 0))?;
    let lines = numbered_lines(alloc, rest(args, 1))?;
    world.put(alloc, &path, &lines)
}

/// Lines of a number of this width and a text, for each number from the first one to the last, rising or falling.
pub(crate) fn numbered_lines(alloc: Global, args: &[Vec<u8>]) -> Result<Vec<u8>, Trouble> {
    let first = number_of(word(args, 0))?;
    let last = number_of(word(args, 1))?;
    let width = number_of(word(args, 2))?;
    let mut lines = Vec::new(alloc);
    for place in 0..=first.abs_diff(last).min(1_000_000) {
        let number = if first <= last {
            first.saturating_add(place)
        } else {
            first.saturating_sub(place)
        };
        add_padded(alloc, &mut lines, number, width)?;
        add(&mut lines, word(args, 3))?;
    }
    Ok(lines)
}

/// Adds a number in at least so many digits.
pub(crate) fn add_padded(
    alloc: Global,
    out: &mut Vec<u8>,
    number: u64,
    width: u64,
) -> Result<(), Trouble> {
    let mut digits = Vec::new(alloc);
    add_number(alloc, &mut digits, number)?;
    for _ in digits.len() as u64..width.min(20) {
        add(out, b"0")?;
    }
    add(out, &digits)
}

/// `PATH TEXT`
pub(crate) fn append(
    alloc: Global,
    world: &mut World,
    args: &[Vec<u8>],
) -> Result<Vec<u8>, Trouble> {
    let path = path_of(alloc, word(args, 0))?;
    of_call(alloc, world.append(alloc, &path, word(args, 1)))
}

/// `PATH`
pub(crate) fn settle(
    alloc: Global,
    world: &mut World,
    args: &[Vec<u8>],
) -> Result<Vec<u8>, Trouble> {
    let path = path_of(alloc, word(args, 0))?;
    of_call(alloc, world.settle(alloc, &path))
}

/// `PATH`
pub(crate) fn remove(
    alloc: Global,
    world: &mut World,
    args: &[Vec<u8>],
) -> Result<Vec<u8>, Trouble> {
    let path = path_of(alloc, word(args, 0))?;
    of_call(alloc, world.remove(alloc, &path))
}

/// `FROM TO`
pub(crate) fn move_tree(
    alloc: Global,
    world: &mut World,
    args: &[Vec<u8>],
) -> Result<Vec<u8>, Trouble> {
    let from = path_of(alloc, word(args, 0))?;
    let to = path_of(alloc, word(args, 1))?;
    of_call(alloc, world.move_tree(alloc, &from, &to))
}

/// `PATH`
pub(crate) fn size(alloc: Global, world: &mut World, args: &[Vec<u8>]) -> Result<Vec<u8>, Trouble> {
    let path = path_of(alloc, word(args, 0))?;
    match world.size(alloc, &path) {
        Ok(Some(size)) => number(alloc, size),
        Ok(None) => text(alloc, b"none"),
        Err(fault) => of_fault(alloc, fault),
    }
}

/// `PATH FROM MOST`
pub(crate) fn read(alloc: Global, world: &mut World, args: &[Vec<u8>]) -> Result<Vec<u8>, Trouble> {
    let path = path_of(alloc, word(args, 0))?;
    let from = number_of(word(args, 1))?;
    let most = small_of(word(args, 2))?;
    match world.read(alloc, &path, from, most) {
        Ok(bytes) => quoted(alloc, &bytes),
        Err(fault) => of_fault(alloc, fault),
    }
}

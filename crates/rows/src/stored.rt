use crate::directory::word;
use crate::folders::DEEPEST;
use crate::reading::{path_of, small_of};
use crate::trouble::Trouble;
use crate::world::World;
use crate::writing::{add, add_number, add_path, number, text};
use conf::Command;
use peg_base::Path;
use std::alloc::Global;
use store::{
    Changes, IngestFault, ReadingFault, StoreFault, check_edges, compare_text, count_changes,
    missing_part, total, write_edges, write_nodes, write_text,
};

fn of_fault(alloc: Global, fault: StoreFault) -> Result<Vec<u8>, Trouble> {
    text(
        alloc,
        match fault {
            StoreFault::Disk => b"disk",
            StoreFault::NoMemory => b"memory",
        },
    )
}

fn of_written(alloc: Global, answer: Result<(), StoreFault>) -> Result<Vec<u8>, Trouble> {
    match answer {
        Ok(()) => text(alloc, b"ok"),
        Err(fault) => of_fault(alloc, fault),
    }
}

/// A word and a number behind it.
fn numbered(alloc: Global, name: &[u8], count: u64) -> Result<Vec<u8>, Trouble> {
    let mut out = text(alloc, name)?;
    add(&mut out, b" ")?;
    add_number(alloc, &mut out, count)?;
    Ok(out)
}

/// `PATH TEXT`: `same`, or the line at which a file and a text differ.
pub(crate) fn compare(
    alloc: Global,
    world: &mut World,
    args: &[Vec<u8>],
) -> Result<Vec<u8>, Trouble> {
    let path = path_of(alloc, word(args, 0))?;
    if !world.site.site.dir().is_no_output(&path) {
        return Err(Trouble::Misread);
    }
    match compare_text(alloc, &mut world.site, &path, word(args, 1)) {
        Ok(None) => text(alloc, b"same"),
        Ok(Some(line)) => numbered(alloc, b"line", line),
        Err(fault) => of_fault(alloc, fault),
    }
}

/// `FOLDER TEXT`: a whole folder of one part, which has this text.
pub(crate) fn write(
    alloc: Global,
    world: &mut World,
    args: &[Vec<u8>],
) -> Result<Vec<u8>, Trouble> {
    let folder = path_of(alloc, word(args, 0))?;
    if world.site.site.running() != 0 || folder.names().len() > DEEPEST {
        return Err(Trouble::Misread);
    }
    of_written(
        alloc,
        write_text(alloc, &mut world.site, &folder, word(args, 1)),
    )
}

/// `FOLDER NODES`: a whole folder of one part, with a line for each node.
pub(crate) fn nodes(
    alloc: Global,
    world: &mut World,
    args: &[Vec<u8>],
) -> Result<Vec<u8>, Trouble> {
    let folder = path_of(alloc, word(args, 0))?;
    let count = small_of(word(args, 1))?;
    if world.site.site.running() != 0 || folder.names().len() > DEEPEST {
        return Err(Trouble::Misread);
    }
    of_written(alloc, write_nodes(alloc, &mut world.site, &folder, count))
}

/// `FOLDER PARTS`: the first part that isn't there, or `none`.
pub(crate) fn missing(
    alloc: Global,
    world: &mut World,
    args: &[Vec<u8>],
) -> Result<Vec<u8>, Trouble> {
    let folder = path_of(alloc, word(args, 0))?;
    let parts = small_of(word(args, 1))?;
    if world.site.site.running() != 0 || folder.names().len() > DEEPEST {
        return Err(Trouble::Misread);
    }
    match &missing_part(alloc, &mut world.site, &folder, parts) {
        Ok(None) => text(alloc, b"none"),
        Ok(Some(path)) => path_text(alloc, path),
        Err(fault) => of_fault(alloc, *fault),
    }
}

fn path_text(alloc: Global, path: &Path) -> Result<Vec<u8>, Trouble> {
    let mut out = Vec::new(alloc);
    add_path(&mut out, path)?;
    Ok(out)
}

fn of_ingest_fault(alloc: Global, fault: IngestFault) -> Result<Vec<u8>, Trouble> {
    match fault {
        IngestFault::BadEdge { line } => numbered(alloc, b"bad line", line),
        IngestFault::BigNode { line, id } => {
            let mut out = numbered(alloc, b"node", id)?;
            add(&mut out, b" line ")?;
            add_number(alloc, &mut out, line)?;
            Ok(out)
        }
        IngestFault::TooLarge => text(alloc, b"large"),
        IngestFault::OtherEdges { line } => numbered(alloc, b"other line", line),
        IngestFault::Disk => text(alloc, b"disk"),
        IngestFault::Read => text(alloc, b"unread"),
        IngestFault::NoMemory => text(alloc, b"memory"),
    }
}

fn of_ingest(alloc: Global, answer: Result<(), IngestFault>) -> Result<Vec<u8>, Trouble> {
    match answer {
        Ok(()) => text(alloc, b"ok"),
        Err(fault) => of_ingest_fault(alloc, fault),
    }
}

/// `PATH NODES`: compares the edges with those of a file.
pub(crate) fn check(
    alloc: Global,
    world: &mut World,
    args: &[Vec<u8>],
) -> Result<Vec<u8>, Trouble> {
    let path = path_of(alloc, word(args, 0))?;
    let nodes = small_of(word(args, 1))?;
    if !world.site.site.dir().is_no_output(&path) {
        return Err(Trouble::Misread);
    }
    let mut source = world.edges.source(alloc)?;
    of_ingest(
        alloc,
        check_edges(alloc, nodes, &mut source, &mut world.site, &path),
    )
}

/// `FOLDER NODES`: a whole folder of one part, with the edges.
pub(crate) fn ingest(
    alloc: Global,
    world: &mut World,
    args: &[Vec<u8>],
) -> Result<Vec<u8>, Trouble> {
    let folder = path_of(alloc, word(args, 0))?;
    let nodes = small_of(word(args, 1))?;
    if world.site.site.running() != 0 || folder.names().len() > DEEPEST {
        return Err(Trouble::Misread);
    }
    let mut source = world.edges.source(alloc)?;
    of_ingest(
        alloc,
        write_edges(alloc, nodes, &mut source, &mut world.site, &folder),
    )
}

fn of_reading_fault(alloc: Global, fault: &ReadingFault) -> Result<Vec<u8>, Trouble> {
    match fault {
        ReadingFault::BadStore { path, line } => {
            let mut out = text(alloc, b"bad ")?;
            add_path(&mut out, path)?;
            add(&mut out, b" line ")?;
            add_number(alloc, &mut out, *line)?;
            Ok(out)
        }
        ReadingFault::Disk => text(alloc, b"disk"),
        ReadingFault::NoMemory => text(alloc, b"memory"),
    }
}

fn of_changes(alloc: Global, changes: &Changes) -> Result<Vec<u8>, Trouble> {
    let mut out = number(alloc, changes.count)?;
    match changes.first {
        None => add(&mut out, b" none")?,
        Some(place) => {
            add(&mut out, b" part ")?;
            add_number(alloc, &mut out, u64::from(place.part))?;
            add(&mut out, b" line ")?;
            add_number(alloc, &mut out, place.line)?;
        }
    }
    Ok(out)
}

/// `FOLDER PARTS`: how many nodes changed by a vector, and the first record that counts one.
pub(crate) fn changes(
    alloc: Global,
    world: &mut World,
    args: &[Vec<u8>],
) -> Result<Vec<u8>, Trouble> {
    let folder = path_of(alloc, word(args, 0))?;
    let parts = small_of(word(args, 1))?;
    if world.site.site.running() != 0 || folder.names().len() > DEEPEST {
        return Err(Trouble::Misread);
    }
    match &count_changes(alloc, &mut world.site, &folder, parts) {
        Ok(changes) => of_changes(alloc, changes),
        Err(fault) => of_reading_fault(alloc, fault),
    }
}

fn command_of(word: &[u8]) -> Result<Command, Trouble> {
    match Command::named(word) {
        Some(command) => Ok(command),
        None => Err(Trouble::Misread),
    }
}

fn of_total(alloc: Global, total: u128) -> Result<Vec<u8>, Trouble> {
    Ok(format!(in alloc; "{total}")?.into_bytes())
}

/// `FOLDER PARTS COMMAND`: what the numbers of a result come to.
pub(crate) fn sum(alloc: Global, world: &mut World, args: &[Vec<u8>]) -> Result<Vec<u8>, Trouble> {
    let folder = path_of(alloc, word(args, 0))?;
    let parts = small_of(word(args, 1))?;
    let command = command_of(word(args, 2))?;
    if world.site.site.running() != 0 || folder.names().len() > DEEPEST || !command.is_mining() {
        return Err(Trouble::Misread);
    }
    match &total(alloc, &mut world.site, &folder, parts, command) {
        Ok(total) => of_total(alloc, *total),
        Err(fault) => of_reading_fault(alloc, fault),
    }
}

use crate::directory::word;
use crate::reading::{numbers_of, path_of, small_of};
use crate::trouble::Trouble;
use crate::world::World;
use crate::writing::text;
use dir_disk::MemSource;
use std::alloc::Global;

/// The most bytes of a read where a row names no other number.
const PIECE: u32 = 65_536;

/// The edges that a run reads.
#[derive(Drop)]
pub(crate) struct Edges {
    bytes: Vec<u8>,
    /// The most bytes of a read.
    piece: u32,
    /// The reads that fail, from 0.
    blind: Vec<u64>,
}

impl Edges {
    /// No edges.
    pub(crate) fn new(alloc: Global) -> Edges {
        Edges {
            bytes: Vec::new(alloc),
            piece: PIECE,
            blind: Vec::new(alloc),
        }
    }

    /// Takes over the bytes of the other edges and their cutting; no read fails.
    pub(crate) fn copy_from(&mut self, other: &Edges) -> Result<(), Trouble> {
        self.bytes.extend_from_slice(&other.bytes)?;
        self.piece = other.piece;
        Ok(())
    }

    /// A source of them.
    pub(crate) fn source(&self, alloc: Global) -> Result<MemSource, Trouble> {
        let bytes = text(alloc, &self.bytes)?;
        let blind = Vec::from_slice(alloc, &self.blind)?;
        Ok(MemSource::new(bytes, self.piece.max(1), blind))
    }
}

/// The most bytes of a read that the second word names, if there is one.
fn piece_of(args: &[Vec<u8>]) -> Result<u32, Trouble> {
    match args.get(1) {
        None => Ok(PIECE),
        Some(word) => small_of(word),
    }
}

/// `TEXT [PIECE]`: the edges, and the most bytes of a read.
pub(crate) fn set(alloc: Global, world: &mut World, args: &[Vec<u8>]) -> Result<(), Trouble> {
    world.edges.piece = piece_of(args)?;
    world.edges.bytes = text(alloc, word(args, 0))?;
    Ok(())
}

/// `PATH [PIECE]`: the edges are what a file has now.
pub(crate) fn set_of(alloc: Global, world: &mut World, args: &[Vec<u8>]) -> Result<(), Trouble> {
    let path = path_of(alloc, word(args, 0))?;
    let piece = piece_of(args)?;
    let Some(bytes) = world.content(&path) else {
        return Err(Trouble::Misread);
    };
    let bytes = text(alloc, bytes)?;
    world.edges.piece = piece;
    world.edges.bytes = bytes;
    Ok(())
}

/// `NUMBER ..`: which reads of the edges fail.
pub(crate) fn blind(alloc: Global, world: &mut World, args: &[Vec<u8>]) -> Result<(), Trouble> {
    world.edges.blind = numbers_of(alloc, args)?;
    Ok(())
}

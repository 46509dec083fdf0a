ghost use Rattle.std.specs.Prelude.{◌≡◌, ℕ, ◌+◌, ◌≤◌, List, [], ◌++◌, get_or, length, OnOk};
ghost use Rattle.peg_text.specs.Records.{cut_of};
ghost use Rattle.child.specs.Shown.{AreFronts, IsFrontOf, record_numbered};
ghost use Rattle.child.specs.declared.front.Front.{Front};
ghost use Rattle.child.specs.declared.fronts.Fronts.{Fronts};

use crate::front::Front;
use memchr::{memchr, memrchr};
use peg_text::NoMemory;
use std::alloc::Global;
use std::mem::swap;

/// What is shown of the last record that an LF ended, and of the one that has begun.
#[derive(Drop)]
pub struct Fronts {
    pub last: Front,
    pub begun: Front,
}

impl Fronts {
    /// Before the first byte.
    pub fn new(alloc: Global) -> Fronts
        ensures { AreFronts [] result }
    {
        Fronts {
            last: Front::new(alloc),
            begun: Front::new(alloc),
        }
    }

    /// Takes in a piece.
    pub fn take(&mut self, piece: &[u8]) -> Result<(), NoMemory>
        ensures { (bytes : List ℕ) → AreFronts bytes self.old → OnOk result (AreFronts (bytes ++ piece.now) self.new) }
    {
        match memrchr(b'\n', piece) {
            Some(end) => {
                self.end_last(&piece[..end])?;
                self.begun.clear();
                self.begun.add(&piece[end + 1..])
            }
            None => self.begun.add(piece),
        }
    }

    /// Takes in what stands before an LF. What has begun then is of no use.
    fn end_last(&mut self, piece: &[u8]) -> Result<(), NoMemory>
        ensures { (bytes : List ℕ) → AreFronts bytes self.old → OnOk result (IsFrontOf (cut_of (bytes ++ piece.now)).rest self.new.last) }
    {
        match memrchr(b'\n', piece) {
            Some(end) => {
                self.last.clear();
                self.last.add(&piece[end + 1..])
            }
            None => {
                self.begun.add(piece)?;
                swap(&mut self.last, &mut self.begun);
                Ok(())
            }
        }
    }

    /// Shows the record of this number, where so many were ended before this piece came.
    pub fn show(
        &self,
        ended: u64,
        piece: &[u8],
        line: u64,
        shown: &mut Front,
    ) -> Result<(), NoMemory>
        ensures { (bytes : List ℕ) → AreFronts bytes self.now → length (cut_of bytes).whole ≡ ended → ended ≤ line
            → OnOk result (IsFrontOf (record_numbered line (cut_of (bytes ++ piece.now)).whole) shown.new) }
    {
        if line <= ended {
            return shown.copy(&self.last);
        }
        shown.copy(&self.begun)?;
        seek(piece, line - ended - 1, shown)
    }
}

/// Shows the record that ends at an LF of the piece, past so many others. What came of the first one is shown already.
fn seek(piece: &[u8], skip: u64, shown: &mut Front) -> Result<(), NoMemory>
    ensures { (bytes : List ℕ) → IsFrontOf (cut_of bytes).rest shown.old
        → OnOk result (IsFrontOf (get_or (cut_of (bytes ++ piece.now)).whole (length (cut_of bytes).whole + skip) []) shown.new) }
{
    let mut left = skip;
    let mut start = 0;
    while let Some(length) = memchr(b'\n', &piece[start..]) {
        if left == 0 {
            return shown.add(&piece[start..start + length]);
        }
        left -= 1;
        start += length + 1;
        shown.clear();
    }
    shown.clear();
    Ok(())
}

ghost use Rattle.std.specs.Prelude.{◌≡◌, ◌≢◌, ◌++◌, [], OnOk, OnErr, IfOk};
ghost use Rattle.std.specs.Bool.{OnTrue, OnFalse};
ghost use Rattle.peg_text.specs.Records.{HasNoLf, BeginsWithRecord, TakesFirstRecord};

use crate::memory::NoMemory;
use memchr::memchr;
use std::alloc::Global;
use std::marker::Model;

/// Bytes that come in pieces, and go out as records. Contracts see the bytes that are held.
///
/// Each byte is searched once, and is moved only a bounded number of times however the pieces are cut.
#[derive(Drop)]
pub struct LineBuf {
    /// What was fed and not given up yet.
    bytes: Vec<u8>,
    /// Where the first byte stands that no record has taken.
    start: usize,
    /// Where the search for the next LF goes on: there is none from `start` up to here.
    searched: usize,
}

impl Model for LineBuf {
    ghost use Rattle.std.specs.Prelude.{ℕ, List, drop};
    ghost use Rattle.peg_text.specs.Cursor.{IsSearched};

    ghost Value = { List ℕ };

    ghost view = { λ buf. drop buf.start buf.bytes.items };

    ghost invariant = { λ buf. IsSearched buf.bytes.items buf.start buf.searched };
}

impl LineBuf {
    /// A buffer that holds nothing.
    pub fn new(alloc: Global) -> LineBuf
        ensures { result ≡ [] }
    {
        LineBuf {
            bytes: Vec::new(alloc),
            start: 0,
            searched: 0,
        }
    }

    /// Takes a piece of bytes in behind what is held.
    ///
    /// Without memory the buffer is as before.
    pub fn feed(&mut self, _: Global, piece: &[u8]) -> Result<(), NoMemory>
        ensures ok { OnOk result (self.new ≡ self.old ++ piece.now) }
        ensures no_memory { OnErr result (self.new ≡ self.old) }
    {
        // What is left is moved only where no more is left than was taken, so each byte pays for one move.
        if self.bytes.len() - self.start <= self.start {
            self.forget_taken();
        }
        self.bytes.extend_from_slice(piece)?;
        Ok(())
    }

    /// Gives the first whole record, without its LF, as the new content of `line`.
    ///
    /// The answer is false, and `line` as before, exactly where no whole record is held. Without memory both are as
    /// before.
    pub fn next(&mut self, _: Global, line: &mut Vec<u8>) -> Result<bool, NoMemory>
        ensures found { IfOk result (λ found. OnTrue found (BeginsWithRecord self.old line.new.items self.new)) }
        ensures records { IfOk result (λ found. OnTrue found (TakesFirstRecord self.old line.new.items self.new)) }
        ensures none { IfOk result (λ found. OnFalse found (HasNoLf self.new)) }
        ensures none_held { IfOk result (λ found. OnFalse found (self.new ≡ self.old)) }
        ensures none_line { IfOk result (λ found. OnFalse found (line.new.items ≡ line.old.items)) }
        ensures no_memory_held { OnErr result (self.new ≡ self.old) }
        ensures no_memory_line { OnErr result (line.new.items ≡ line.old.items) }
    {
        self.take_record(line)
    }

    /// Gives what is held as the last record, which no LF ends, as the new content of `line`.
    ///
    /// The answer is false, and `line` as before, exactly where nothing is held. Without memory both are as before.
    /// After an answer true nothing more may be fed: it would be cut off from its record.
    pub fn last(&mut self, _: Global, line: &mut Vec<u8>) -> Result<bool, NoMemory>
        requires { HasNoLf self.old }
        ensures found { IfOk result (λ found. OnTrue found (line.new.items ≡ self.old)) }
        ensures some { IfOk result (λ found. OnTrue found (self.old ≢ [])) }
        ensures none { IfOk result (λ found. OnFalse found (self.old ≡ [])) }
        ensures none_line { IfOk result (λ found. OnFalse found (line.new.items ≡ line.old.items)) }
        ensures empty { OnOk result (self.new ≡ []) }
        ensures no_memory_held { OnErr result (self.new ≡ self.old) }
        ensures no_memory_line { OnErr result (line.new.items ≡ line.old.items) }
    {
        if self.start == self.bytes.len() {
            return Ok(false);
        }
        replace(line, &self.bytes[self.start..])?;
        self.bytes.clear();
        self.start = 0;
        self.searched = 0;
        Ok(true)
    }

    fn take_record(&mut self, line: &mut Vec<u8>) -> Result<bool, NoMemory>
        ensures found { IfOk result (λ found. OnTrue found (BeginsWithRecord self.old line.new.items self.new)) }
        ensures none { IfOk result (λ found. OnFalse found (HasNoLf self.new)) }
        ensures none_held { IfOk result (λ found. OnFalse found (self.new ≡ self.old)) }
        ensures none_line { IfOk result (λ found. OnFalse found (line.new.items ≡ line.old.items)) }
        ensures no_memory_held { OnErr result (self.new ≡ self.old) }
        ensures no_memory_line { OnErr result (line.new.items ≡ line.old.items) }
    {
        match memchr(b'\n', &self.bytes[self.searched..]) {
            None => {
                self.searched = self.bytes.len();
                Ok(false)
            }
            Some(length) => {
                let end = self.searched + length;
                replace(line, &self.bytes[self.start..end])?;
                self.start = end + 1;
                self.searched = end + 1;
                Ok(true)
            }
        }
    }

    /// Drops the bytes that records have taken.
    fn forget_taken(&mut self)
        ensures { self.new ≡ self.old }
    {
        drop(self.bytes.drain(..self.start));
        self.searched -= self.start;
        self.start = 0;
    }
}

/// Makes this the content of the line. Without memory the line is as before.
fn replace(line: &mut Vec<u8>, content: &[u8]) -> Result<(), NoMemory>
    ensures ok { OnOk result (line.new.items ≡ content.now) }
    ensures no_memory { OnErr result (line.new.items ≡ line.old.items) }
{
    line.reserve(content.len().saturating_sub(line.len()))?;
    line.clear();
    line.extend_from_slice(content).unwrap();
    Ok(())
}

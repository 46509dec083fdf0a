ghost use Rattle.std.specs.Prelude.{◌≡◌, ◌++◌, ◌∷◌, [], ◌≤◌, length, OnOk};
ghost use Rattle.std.specs.Bool.{OnTrue, OnFalse};
ghost use Rattle.peg_text.specs.Pairs.{pair_line};
ghost use Rattle.peg_text.specs.Records.{HasNoLf};
ghost use Rattle.pairs.specs.Pairs.{IsPlain, pair_before, pair_of, pairs_in};
ghost use Rattle.pairs.specs.Taking.{HasKey, IsPlace, TakesFirstPair, line_of, pair_at, pair_in};

use crate::prefix::measured_key;
use memchr::memchr;
use peg_text::{NoMemory, write_pair};
use std::alloc::Global;
use std::cmp::Ordering;
use std::marker::Model;

/// Where a line stands among bytes, and what is known of its key.
#[derive(Clone, Copy)]
pub(crate) struct Place {
    /// Where it begins.
    pub start: usize,
    /// Where it ends, before its LF.
    pub end: usize,
    /// How many bytes its key has.
    pub key: usize,
    /// The prefix of its key.
    pub prefix: u64,
}

/// Bytes that come in pieces and go out as pairs, one for each line. Contracts see the pair that was taken last and the
/// bytes that are held behind it.
///
/// A pair lies in the bytes until the next piece is fed. Each byte is searched once for an LF, and is moved only a
/// bounded number of times however the pieces are cut.
#[derive(Drop)]
pub struct PairBuf {
    /// What was fed and not given up yet.
    bytes: Vec<u8>,
    /// The line of the pair that was taken last.
    head: Place,
    /// Where the first byte stands that no line has taken.
    next: usize,
    /// Where the search for the next LF goes on: there is none from `next` up to here.
    searched: usize,
}

impl Model for PairBuf {
    ghost use Rattle.std.specs.Prelude.{drop};
    ghost use Rattle.pairs.specs.Taking.{IsTaking, Taken, pair_in};

    ghost Value = { Taken };

    ghost view = { λ buf. record { head = pair_in buf.bytes.items buf.head; rest = drop buf.next buf.bytes.items } };

    ghost invariant = { λ buf. IsTaking buf.bytes.items buf.head buf.next buf.searched };
}

/// How many bytes the key of a line has, and its prefix.
fn measured(line: &[u8]) -> (usize, u64)
    ensures pair { pair_at line.now result.0 ≡ pair_of line.now }
    ensures has { HasKey line.now result.0 result.1 }
{
    measured_key(line)
}

/// The line that stands from one place up to another.
fn placed(bytes: &[u8], start: usize, end: usize) -> Place
    requires ordered { start ≤ end }
    requires inside { end ≤ length bytes.now }
    ensures place { IsPlace bytes.now result }
    ensures pair { pair_in bytes.now result ≡ pair_of (line_of bytes.now start end) }
{
    let (key, prefix) = measured(&bytes[start..end]);
    Place {
        start,
        end,
        key,
        prefix,
    }
}

/// No line.
fn nowhere(bytes: &[u8]) -> Place
    ensures { IsPlace bytes.now result }
{
    Place {
        start: 0,
        end: 0,
        key: 0,
        prefix: 0,
    }
}

impl PairBuf {
    /// A buffer that holds nothing.
    pub fn new(alloc: Global) -> PairBuf
        ensures { result.rest ≡ [] }
    {
        PairBuf {
            bytes: Vec::new(alloc),
            head: nowhere(b""),
            next: 0,
            searched: 0,
        }
    }

    /// The line of the pair that was taken last, and how many bytes its key has.
    fn line(&self) -> (&[u8], usize)
        ensures pair { pair_at result.0.now result.1 ≡ self.now.head }
        ensures inside { result.1 ≤ length result.0.now }
    {
        (&self.bytes[self.head.start..self.head.end], self.head.key)
    }

    /// The key of the pair that was taken last.
    pub fn key(&self) -> &[u8]
        ensures { result.now ≡ self.now.head.0 }
    {
        let (line, key) = self.line();
        &line[..key]
    }

    /// The value of the pair that was taken last.
    pub fn value(&self) -> &[u8]
        ensures { result.now ≡ self.now.head.1 }
    {
        let (line, key) = self.line();
        &line[line.len().min(key + 1)..]
    }

    /// Appends the pair that was taken last as a line: key, TAB, value and LF. After a refusal a part of it may have
    /// been appended.
    pub fn write(&self, alloc: Global, out: &mut Vec<u8>) -> Result<(), NoMemory>
        ensures { OnOk result (out.new.items ≡ out.old.items ++ pair_line self.now.head.0 self.now.head.1) }
    {
        let (line, key) = self.line();
        if line.get(key) != Some(&b'\t') {
            return write_pair(alloc, out, self.key(), self.value());
        }
        out.extend_from_slice(line)?;
        out.push(b'\n')?;
        Ok(())
    }

    /// Whether the pair that was taken last may stand before that of the other one.
    pub fn comes_before(&self, other: &PairBuf) -> bool
        ensures { result ≡ pair_before self.now.head other.now.head }
    {
        match self.head.prefix.cmp(&other.head.prefix) {
            Ordering::Less => true,
            Ordering::Equal => self.stands_before(other),
            Ordering::Greater => false,
        }
    }

    /// The same, without a look at the prefixes.
    fn stands_before(&self, other: &PairBuf) -> bool
        ensures { result ≡ pair_before self.now.head other.now.head }
    {
        match self.key().cmp(other.key()) {
            Ordering::Less => true,
            Ordering::Equal => self.value().cmp(other.value()).is_le(),
            Ordering::Greater => false,
        }
    }

    /// Takes a piece of bytes in behind those that are held. The pair that was taken last is gone then.
    pub fn feed(&mut self, alloc: Global, piece: &[u8]) -> Result<(), NoMemory>
        ensures { OnOk result (self.new.rest ≡ self.old.rest ++ piece.now) }
    {
        self.forget_taken(alloc)?;
        self.bytes.extend_from_slice(piece)?;
        Ok(())
    }

    /// Drops the bytes that lines have taken.
    fn forget_taken(&mut self, alloc: Global) -> Result<(), NoMemory>
        ensures { OnOk result (self.new.rest ≡ self.old.rest) }
    {
        if self.next == 0 {
            return Ok(());
        }
        self.bytes = Vec::from_slice(alloc, &self.bytes[self.next..])?;
        self.head = nowhere(&self.bytes);
        self.searched -= self.next;
        self.next = 0;
        Ok(())
    }

    /// Takes the first whole line that is held. The answer is false where there is none.
    pub fn next(&mut self) -> bool
        ensures found { OnTrue result (TakesFirstPair self.old.rest self.new.head self.new.rest) }
        ensures plain { OnTrue result (IsPlain self.new.head) }
        ensures none { OnFalse result (HasNoLf self.new.rest) }
        ensures none_held { OnFalse result (self.new.rest ≡ self.old.rest) }
    {
        match memchr(b'\n', &self.bytes[self.searched..]) {
            None => {
                self.searched = self.bytes.len();
                false
            }
            Some(length) => {
                let end = self.searched + length;
                self.head = placed(&self.bytes, self.next, end);
                self.next = end + 1;
                self.searched = end + 1;
                true
            }
        }
    }

    /// Takes the last line, which no LF ends. The answer is false where nothing is held.
    pub fn last(&mut self) -> bool
        requires { HasNoLf self.old.rest }
        ensures found { OnTrue result (pairs_in self.old.rest ≡ self.new.head ∷ []) }
        ensures plain { OnTrue result (IsPlain self.new.head) }
        ensures none { OnFalse result (self.old.rest ≡ []) }
        ensures empty { self.new.rest ≡ [] }
    {
        let end = self.bytes.len();
        if self.next == end {
            return false;
        }
        self.head = placed(&self.bytes, self.next, end);
        self.next = end;
        self.searched = end;
        true
    }
}

ghost use Rattle.std.specs.Prelude.{◌≡◌, ℕ, ◌+◌, ◌≤◌, ◌<◌, List, ◌++◌, [], ◌∷◌, length, IfErr, OnOk};
ghost use Rattle.peg_text.specs.Records.{HasNoLf};
ghost use Rattle.child.specs.Judging.{most_bytes};
ghost use Rattle.child.specs.Handing.{Hands, HandsNoMore, IsRefused, IsRefusedLast};
ghost use Rattle.child.specs.Feeding.{Feeds, Finishes, IsCounted, RefusesBytes, RefusesToFinish, fed_of};
ghost use Rattle.child.specs.declared.feeding.Feeding.{Feeding};

use crate::status::ChildStatus;
use gimv_base::{Role, RoleFault};
use memchr::memchr;
use std::alloc::Global;

/// The most bytes that a child reads.
const MOST_BYTES: u64 = 1 << 50;

/// A role, and what is kept of its input between two pieces.
#[derive(Drop)]
pub struct Feeding<R> {
    pub role: R,
    /// The bytes that have come of the record that no LF has ended yet.
    pub held: Vec<u8>,
    /// How many records were handed to the role.
    pub line: u64,
    /// How many bytes have come.
    pub taken: u64,
}

impl<R: Role> Feeding<R> {
    /// Takes a piece in, and refuses the first byte too many.
    pub fn take(
        &mut self,
        alloc: Global,
        piece: &[u8],
        out: &mut Vec<u8>,
    ) -> Result<(), ChildStatus>
        requires { IsCounted (fed_of R.standing self.old) }
        ensures ok { OnOk result (Feeds (fed_of R.standing self.old) (fed_of R.standing self.new) piece.now out.old.items out.new.items) }
        ensures counted { OnOk result (IsCounted (fed_of R.standing self.new)) }
        ensures more { OnOk result (self.new.taken ≡ self.old.taken + length piece.now) }
        ensures err { IfErr result (RefusesBytes (fed_of R.standing self.old) piece.now) }
    {
        let room = MOST_BYTES - self.taken;
        if piece.len() as u64 <= room {
            return self.take_within(alloc, piece, out);
        }
        match self.take_within(alloc, &piece[..room as usize], out) {
            Ok(()) => Err(ChildStatus::TooLarge),
            Err(status) => Err(status),
        }
    }

    /// Takes in a piece that has no byte too many: each record that an LF ends goes to the role, and the rest is held.
    fn take_within(
        &mut self,
        alloc: Global,
        piece: &[u8],
        out: &mut Vec<u8>,
    ) -> Result<(), ChildStatus>
        requires counted { IsCounted (fed_of R.standing self.old) }
        requires room { self.old.taken + length piece.now ≤ most_bytes }
        ensures ok { OnOk result (Feeds (fed_of R.standing self.old) (fed_of R.standing self.new) piece.now out.old.items out.new.items) }
        ensures counted { OnOk result (IsCounted (fed_of R.standing self.new)) }
        ensures more { OnOk result (self.new.taken ≡ self.old.taken + length piece.now) }
        ensures err { IfErr result (RefusesBytes (fed_of R.standing self.old) piece.now) }
    {
        let mut start = 0;
        while let Some(length) = memchr(b'\n', &piece[start..]) {
            match self.end_record(alloc, &piece[start..start + length], out) {
                Ok(()) => {}
                Err(status) => return Err(status),
            }
            start += length + 1;
        }
        self.hold(&piece[start..])
    }

    /// Takes in bytes without an LF.
    fn hold(&mut self, bytes: &[u8]) -> Result<(), ChildStatus>
        requires unbroken { HasNoLf bytes.now }
        requires counted { IsCounted (fed_of R.standing self.old) }
        requires room { self.old.taken + length bytes.now ≤ most_bytes }
        ensures ok { (out : List ℕ) → OnOk result (Feeds (fed_of R.standing self.old) (fed_of R.standing self.new) bytes.now out out) }
        ensures counted { OnOk result (IsCounted (fed_of R.standing self.new)) }
        ensures more { OnOk result (self.new.taken ≡ self.old.taken + length bytes.now) }
        ensures err { IfErr result (RefusesBytes (fed_of R.standing self.old) bytes.now) }
    {
        match self.held.extend_from_slice(bytes) {
            Ok(()) => {
                self.taken += bytes.len() as u64;
                Ok(())
            }
            Err(_) => Err(ChildStatus::NoMemory),
        }
    }

    /// Takes in bytes without an LF and then one: with what is held they are the next record.
    fn end_record(
        &mut self,
        alloc: Global,
        text: &[u8],
        out: &mut Vec<u8>,
    ) -> Result<(), ChildStatus>
        requires unbroken { HasNoLf text.now }
        requires counted { IsCounted (fed_of R.standing self.old) }
        requires room { self.old.taken + length text.now < most_bytes }
        ensures ok { OnOk result (Feeds (fed_of R.standing self.old) (fed_of R.standing self.new) (text.now ++ (10 ∷ [])) out.old.items out.new.items) }
        ensures counted { OnOk result (IsCounted (fed_of R.standing self.new)) }
        ensures more { OnOk result (self.new.taken ≡ self.old.taken + length text.now + 1) }
        ensures err { IfErr result (RefusesBytes (fed_of R.standing self.old) (text.now ++ (10 ∷ []))) }
    {
        if !self.held.is_empty() {
            return self.end_held(alloc, text, out);
        }
        match hand(alloc, &mut self.role, self.line, text, out) {
            Ok(()) => {
                self.line += 1;
                self.taken += text.len() as u64 + 1;
                Ok(())
            }
            Err(status) => Err(status),
        }
    }

    /// Does the same where something is held.
    fn end_held(&mut self, alloc: Global, text: &[u8], out: &mut Vec<u8>) -> Result<(), ChildStatus>
        requires unbroken { HasNoLf text.now }
        requires counted { IsCounted (fed_of R.standing self.old) }
        requires room { self.old.taken + length text.now < most_bytes }
        ensures ok { OnOk result (Feeds (fed_of R.standing self.old) (fed_of R.standing self.new) (text.now ++ (10 ∷ [])) out.old.items out.new.items) }
        ensures counted { OnOk result (IsCounted (fed_of R.standing self.new)) }
        ensures more { OnOk result (self.new.taken ≡ self.old.taken + length text.now + 1) }
        ensures err { IfErr result (RefusesBytes (fed_of R.standing self.old) (text.now ++ (10 ∷ []))) }
    {
        if self.held.extend_from_slice(text).is_err() {
            return Err(ChildStatus::NoMemory);
        }
        match hand(alloc, &mut self.role, self.line, &self.held, out) {
            Ok(()) => {
                self.held.clear();
                self.line += 1;
                self.taken += text.len() as u64 + 1;
                Ok(())
            }
            Err(status) => Err(status),
        }
    }

    /// Takes in that no further bytes come: what is held is the last record, unless it is nothing.
    pub fn finish(&mut self, alloc: Global, out: &mut Vec<u8>) -> Result<(), ChildStatus>
        requires { IsCounted (fed_of R.standing self.old) }
        ensures ok { OnOk result (Finishes (fed_of R.standing self.old) out.old.items out.new.items) }
        ensures err { IfErr result (RefusesToFinish (fed_of R.standing self.old)) }
    {
        if self.held.is_empty() {
            return end_role(alloc, &mut self.role, self.line, out);
        }
        match hand(alloc, &mut self.role, self.line, &self.held, out) {
            Ok(()) => end_role(alloc, &mut self.role, self.line + 1, out),
            Err(status) => Err(status),
        }
    }
}

/// Hands a record to a role that has taken so many.
fn hand<R: Role>(
    alloc: Global,
    role: &mut R,
    count: u64,
    text: &[u8],
    out: &mut Vec<u8>,
) -> Result<(), ChildStatus>
    requires { count ≤ most_bytes }
    ensures ok { OnOk result (Hands (R.standing role.old) (R.standing role.new) text.now out.old.items out.new.items) }
    ensures err { IfErr result (IsRefused (R.standing role.old) count text.now) }
{
    match role.line(alloc, text, out) {
        Ok(()) => Ok(()),
        Err(RoleFault::Bad) => Err(ChildStatus::BadLine { line: count + 1 }),
        Err(RoleFault::BadBefore) => Err(ChildStatus::BadLine { line: count }),
        Err(RoleFault::NoMemory) => Err(ChildStatus::NoMemory),
    }
}

/// Ends a role that has taken so many records.
fn end_role<R: Role>(
    alloc: Global,
    role: &mut R,
    count: u64,
    out: &mut Vec<u8>,
) -> Result<(), ChildStatus>
    ensures ok { OnOk result (HandsNoMore (R.standing role.old) out.old.items out.new.items) }
    ensures err { IfErr result (IsRefusedLast (R.standing role.old) count) }
{
    match role.end(alloc, out) {
        Ok(()) => Ok(()),
        Err(RoleFault::BadBefore) => Err(ChildStatus::BadLine { line: count }),
        Err(_) => Err(ChildStatus::NoMemory),
    }
}

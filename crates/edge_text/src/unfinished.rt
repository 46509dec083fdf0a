ghost use Rattle.std.specs.Prelude.{◌≡◌, ◌+◌, ◌<◌, ◌≤◌, ◌++◌, [], ◌∷◌, length, IfErr, IsOkUnless, OnOk};
ghost use Rattle.peg_text.specs.Lists.{GoesOnFrom};
ghost use Rattle.edge_text.specs.declared.unfinished.Unfinished.{Unfinished};
ghost use Rattle.edge_text.specs.Answers.{UnlessOutOfMemory, UnlessNoMemory};
ghost use Rattle.edge_text.specs.Edges.{most_bytes};
ghost use Rattle.edge_text.specs.Feeding.{Reads, Refused, after_record, edge_in};
ghost use Rattle.edge_text.specs.Verdicts.{verdict_of};
ghost use Rattle.edge_text.specs.Unfinished.{IsReady, Takes, reads};

use crate::fault::EdgeFault;
use crate::records::{accept, read_records};
use crate::verdict::judge;
use graph::Edge;
use memchr::memchr;

/// The most bytes of an edge list.
const MOST_BYTES: u64 = 1 << 36;

/// What a reader of edges keeps between two pieces.
#[derive(Drop)]
pub struct Unfinished {
    /// The number of nodes.
    pub nodes: u32,
    /// The number of the record that comes next, from 1.
    pub line: u64,
    /// The bytes of that record which have come.
    pub held: Vec<u8>,
    /// How many bytes have come.
    pub taken: u64,
}

impl Unfinished {
    /// Takes a piece in, and refuses the first byte too many.
    pub fn take(&mut self, piece: &[u8], edges: &mut Vec<Edge>) -> Result<(), EdgeFault>
        requires { IsReady (reads self.old) }
        ensures takes { Takes (reads self.old) piece.now edges.old.items edges.new.items (reads self.new) result }
        ensures nodes { self.new.nodes ≡ self.old.nodes }
    {
        let room = MOST_BYTES - self.taken;
        if piece.len() as u64 <= room {
            return self.take_within(piece, edges);
        }
        match self.take_within(&piece[..room as usize], edges) {
            Ok(()) => Err(EdgeFault::TooLarge),
            Err(fault) => Err(fault),
        }
    }

    /// Takes in a piece that has no byte too many.
    fn take_within(&mut self, piece: &[u8], edges: &mut Vec<Edge>) -> Result<(), EdgeFault>
        requires ready { IsReady (reads self.old) }
        requires room { self.old.taken + length piece.now ≤ most_bytes }
        ensures takes { Takes (reads self.old) piece.now edges.old.items edges.new.items (reads self.new) result }
        ensures nodes { self.new.nodes ≡ self.old.nodes }
    {
        let Some(end) = memchr(b'\n', piece) else {
            return self.hold(piece);
        };
        if let Err(fault) = self.hold(&piece[..end]) {
            return Err(fault);
        }
        if let Err(fault) = self.end_record(edges) {
            return Err(fault);
        }
        self.take_records(&piece[end + 1..], edges)
    }

    /// Takes in bytes without an LF.
    fn hold(&mut self, bytes: &[u8]) -> Result<(), EdgeFault>
        requires { self.old.taken + length bytes.now ≤ most_bytes }
        ensures ok { OnOk result (reads self.new
            ≡ Reads self.old.nodes self.old.line (self.old.held.items ++ bytes.now) (self.old.taken + length bytes.now)) }
        ensures err { IsOkUnless result EdgeFault.NoMemory }
        ensures nodes { self.new.nodes ≡ self.old.nodes }
    {
        match self.held.extend_from_slice(bytes) {
            Ok(()) => {
                self.taken += bytes.len() as u64;
                Ok(())
            }
            Err(_) => Err(EdgeFault::NoMemory),
        }
    }

    /// Takes in an LF.
    fn end_record(&mut self, edges: &mut Vec<Edge>) -> Result<(), EdgeFault>
        requires ready { IsReady (reads self.old) }
        requires room { self.old.taken < most_bytes }
        ensures takes { Takes (reads self.old) (10 ∷ []) edges.old.items edges.new.items (reads self.new) result }
        ensures empty { OnOk result (self.new.held.items ≡ []) }
        ensures nodes { self.new.nodes ≡ self.old.nodes }
    {
        self.taken += 1;
        self.finish_record(edges)
    }

    /// Judges what is held as a whole record.
    pub fn finish_record(&mut self, edges: &mut Vec<Edge>) -> Result<(), EdgeFault>
        requires { self.old.line ≤ most_bytes + 1 }
        ensures ok { OnOk result (reads self.new
            ≡ after_record self.old.nodes self.old.line self.old.taken (verdict_of self.old.nodes self.old.held.items)) }
        ensures err { IfErr result (λ fault. UnlessOutOfMemory fault
            (after_record self.old.nodes self.old.line self.old.taken (verdict_of self.old.nodes self.old.held.items)
            ≡ Refused self.old.nodes fault)) }
        ensures added { UnlessNoMemory result
            (edges.new.items ≡ edges.old.items ++ edge_in (verdict_of self.old.nodes self.old.held.items)) }
        ensures kept { GoesOnFrom edges.old.items edges.new.items }
        ensures empty { OnOk result (self.new.held.items ≡ []) }
        ensures nodes { self.new.nodes ≡ self.old.nodes }
    {
        let verdict = judge(self.nodes, self.held.as_slice());
        if let Err(fault) = accept(self.line, verdict, edges) {
            return Err(fault);
        }
        self.held.clear();
        self.line += 1;
        Ok(())
    }

    /// Takes in bytes where nothing is held.
    fn take_records(&mut self, bytes: &[u8], edges: &mut Vec<Edge>) -> Result<(), EdgeFault>
        requires ready { IsReady (reads self.old) }
        requires room { self.old.taken + length bytes.now ≤ most_bytes }
        requires empty { self.old.held.items ≡ [] }
        ensures takes { Takes (reads self.old) bytes.now edges.old.items edges.new.items (reads self.new) result }
        ensures nodes { self.new.nodes ≡ self.old.nodes }
    {
        match read_records(self.nodes, self.line, bytes, edges) {
            Ok(stop) => match self.held.extend_from_slice(&bytes[stop.start..]) {
                Ok(()) => {
                    self.line = stop.line;
                    self.taken += bytes.len() as u64;
                    Ok(())
                }
                Err(_) => Err(EdgeFault::NoMemory),
            },
            Err(fault) => Err(fault),
        }
    }
}

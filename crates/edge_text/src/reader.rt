ghost use Rattle.std.specs.Prelude.{◌≡◌, ◌++◌, take};
ghost use Rattle.edge_text.specs.Answers.{OnNoMemory, UnlessNoMemory, UnlessOutOfMemory, WhereOutOfMemory, fault_in};
ghost use Rattle.edge_text.specs.Edges.{text_of};
ghost use Rattle.edge_text.specs.Feeding.{Refused, begun, ended, ended_edges, fault_of, fed, fed_edges, nodes_of};

use crate::fault::EdgeFault;
use crate::text::write_edges;
use crate::unfinished::Unfinished;
use graph::Edge;
use std::alloc::Global;
use std::marker::Model;

/// A reader of an edge list that comes in pieces. Contracts see how far it has come: what it holds of the next record
/// and which number this has, or the refusal at which it stands.
///
/// A record is cut at LF and loses one CR at its end. An empty record and one that begins with `#` say nothing; each
/// other is the ids of two nodes with a TAB between them, each id of 1 to 10 digits. How the input is cut into pieces
/// changes nothing.
#[derive(Drop)]
pub struct EdgeReader {
    unfinished: Unfinished,
    refusal: Option<EdgeFault>,
}

impl Model for EdgeReader {
    ghost use Rattle.edge_text.specs.Feeding.{State};
    ghost use Rattle.edge_text.specs.Unfinished.{IsReady, state_of};

    ghost Value = { State };

    ghost view = { λ reader. state_of reader.refusal reader.unfinished };

    ghost invariant = { λ reader. IsReady (state_of reader.refusal reader.unfinished) };
}

impl EdgeReader {
    /// A reader over the nodes below this number, which nothing was fed to.
    pub fn new(alloc: Global, nodes: u32) -> EdgeReader
        ensures { result ≡ begun nodes }
    {
        EdgeReader {
            unfinished: Unfinished {
                nodes,
                line: 1,
                held: Vec::new(alloc),
                taken: 0,
            },
            refusal: None,
        }
    }

    /// Reads a piece, and appends its edges.
    ///
    /// At a refusal of the text the edges before it have been appended. Without memory the list is as before. After
    /// any refusal the reader answers that refusal again, and appends nothing.
    pub fn feed_edges(
        &mut self,
        _: Global,
        piece: &[u8],
        edges: &mut Vec<Edge>,
    ) -> Result<(), EdgeFault>
        ensures state { UnlessNoMemory result (self.new ≡ fed self.old piece.now) }
        ensures answer { fault_of self.new ≡ fault_in result }
        ensures nodes { nodes_of self.new ≡ nodes_of self.old }
        ensures edges { UnlessNoMemory result (edges.new.items ≡ edges.old.items ++ fed_edges self.old piece.now) }

        // Want of memory is a refusal that stays, and leaves the list as it was.
        ensures no_memory { OnNoMemory result (self.new ≡ Refused (nodes_of self.old) EdgeFault.NoMemory) }
        ensures no_memory_edges { OnNoMemory result (edges.new.items ≡ edges.old.items) }
    {
        if let Some(fault) = self.refusal {
            return Err(fault);
        }
        let before = edges.len();
        match self.unfinished.take(piece, edges) {
            Ok(()) => Ok(()),
            Err(fault) => refuse(&mut self.refusal, fault, before, edges),
        }
    }

    /// Takes in that no further bytes come: what is held is the last record, unless it is nothing.
    ///
    /// It appends and refuses as `feed_edges` does. After an answer Ok the reader is to be dropped.
    pub fn end_edges(&mut self, _: Global, edges: &mut Vec<Edge>) -> Result<(), EdgeFault>
        ensures state { UnlessNoMemory result (self.new ≡ ended self.old) }
        ensures answer { fault_of self.new ≡ fault_in result }
        ensures nodes { nodes_of self.new ≡ nodes_of self.old }
        ensures edges { UnlessNoMemory result (edges.new.items ≡ edges.old.items ++ ended_edges self.old) }
        ensures no_memory { OnNoMemory result (self.new ≡ Refused (nodes_of self.old) EdgeFault.NoMemory) }
        ensures no_memory_edges { OnNoMemory result (edges.new.items ≡ edges.old.items) }
    {
        if let Some(fault) = self.refusal {
            return Err(fault);
        }
        if self.unfinished.held.is_empty() {
            return Ok(());
        }
        let before = edges.len();
        match self.unfinished.finish_record(edges) {
            Ok(()) => Ok(()),
            Err(fault) => refuse(&mut self.refusal, fault, before, edges),
        }
    }

    /// Does what `feed_edges` does, and appends the text of the edges that are appended: a line `source TAB target`
    /// for each.
    ///
    /// Without memory both lists are as before.
    pub fn feed(
        &mut self,
        alloc: Global,
        piece: &[u8],
        edges: &mut Vec<Edge>,
        text: &mut Vec<u8>,
    ) -> Result<(), EdgeFault>
        ensures state { UnlessNoMemory result (self.new ≡ fed self.old piece.now) }
        ensures answer { fault_of self.new ≡ fault_in result }
        ensures nodes { nodes_of self.new ≡ nodes_of self.old }
        ensures edges { UnlessNoMemory result (edges.new.items ≡ edges.old.items ++ fed_edges self.old piece.now) }
        ensures text { UnlessNoMemory result (text.new.items ≡ text.old.items ++ text_of (fed_edges self.old piece.now)) }
        ensures no_memory { OnNoMemory result (self.new ≡ Refused (nodes_of self.old) EdgeFault.NoMemory) }
        ensures no_memory_edges { OnNoMemory result (edges.new.items ≡ edges.old.items) }
        ensures no_memory_text { OnNoMemory result (text.new.items ≡ text.old.items) }
    {
        let before = edges.len();
        match self.feed_edges(alloc, piece, edges) {
            Err(EdgeFault::NoMemory) => Err(EdgeFault::NoMemory),
            answer => match write_edges(alloc, text, &edges[before..]) {
                Ok(()) => answer,
                Err(_) => refuse(&mut self.refusal, EdgeFault::NoMemory, before, edges),
            },
        }
    }

    /// Does what `end_edges` does, and appends the text of the edge that is appended.
    ///
    /// Without memory both lists are as before.
    pub fn end(
        &mut self,
        alloc: Global,
        edges: &mut Vec<Edge>,
        text: &mut Vec<u8>,
    ) -> Result<(), EdgeFault>
        ensures state { UnlessNoMemory result (self.new ≡ ended self.old) }
        ensures answer { fault_of self.new ≡ fault_in result }
        ensures nodes { nodes_of self.new ≡ nodes_of self.old }
        ensures edges { UnlessNoMemory result (edges.new.items ≡ edges.old.items ++ ended_edges self.old) }
        ensures text { UnlessNoMemory result (text.new.items ≡ text.old.items ++ text_of (ended_edges self.old)) }
        ensures no_memory { OnNoMemory result (self.new ≡ Refused (nodes_of self.old) EdgeFault.NoMemory) }
        ensures no_memory_edges { OnNoMemory result (edges.new.items ≡ edges.old.items) }
        ensures no_memory_text { OnNoMemory result (text.new.items ≡ text.old.items) }
    {
        let before = edges.len();
        match self.end_edges(alloc, edges) {
            Err(EdgeFault::NoMemory) => Err(EdgeFault::NoMemory),
            answer => match write_edges(alloc, text, &edges[before..]) {
                Ok(()) => answer,
                Err(_) => refuse(&mut self.refusal, EdgeFault::NoMemory, before, edges),
            },
        }
    }
}

/// Stands at this refusal from now on, and answers it. Where memory was what failed, it takes off the edges that were
/// appended to the first ones.
fn refuse(
    refusal: &mut Option<EdgeFault>,
    fault: EdgeFault,
    before: usize,
    edges: &mut Vec<Edge>,
) -> Result<(), EdgeFault>
    ensures answer { result ≡ Err fault }
    ensures stands { refusal.new ≡ Some fault }
    ensures other { UnlessOutOfMemory fault (edges.new.items ≡ edges.old.items) }
    ensures no_memory { WhereOutOfMemory fault (edges.new.items ≡ take before edges.old.items) }
{
    *refusal = Some(fault);
    match fault {
        EdgeFault::NoMemory => edges.truncate(before),
        EdgeFault::BadEdge { .. } | EdgeFault::BigNode { .. } | EdgeFault::TooLarge => {}
    }
    Err(fault)
}

ghost use Rattle.std.specs.Prelude.{◌≡◌, ◌++◌, None, OnOk, OnErr, IsErrOf};
ghost use Rattle.peg_text.specs.Lists.{GoesOnFrom};
ghost use Rattle.edge_text.specs.Answers.{UnlessNoMemory, UnlessOutOfMemory, WhereOutOfMemory, fault_in};
ghost use Rattle.edge_text.specs.Edges.{edges_of, text_of};
ghost use Rattle.gimv_base.specs.Standings.{fresh};
ghost use Rattle.child.specs.Edges.{accepted_text, edges_rule};

use edge_text::{Edge, EdgeFault, EdgeReader};
use gimv_base::{Role, RoleFault};
use std::alloc::Global;

/// `edges`: the edge of each record of an edge list as it is found in public, as a line. An empty record and a comment
/// give nothing.
#[derive(Drop)]
pub struct EdgesRole {
    nodes: u32,
    /// The last record with its LF, and its edge.
    record: Vec<u8>,
    edges: Vec<Edge>,
}

impl EdgesRole {
    /// The role before its first record. Ids have to be below the number of nodes.
    pub fn new(alloc: Global, nodes: u32) -> EdgesRole
        ensures { ⟦<EdgesRole as Role>⟧.standing result ≡ fresh (edges_rule nodes) }
    {
        EdgesRole {
            nodes,
            record: Vec::new(alloc),
            edges: Vec::new(alloc),
        }
    }
}

impl Role for EdgesRole {
    ghost standing = { λ s. fresh (edges_rule s.nodes) };

    fn line(&mut self, alloc: Global, text: &[u8], out: &mut Vec<u8>) -> Result<(), RoleFault> {
        let nodes = self.nodes;
        self.record.clear();
        self.record.extend_from_slice(text)?;
        self.record.push(b'\n')?;
        self.edges.clear();
        append_edges(alloc, nodes, &self.record, &mut self.edges, out)
    }

    fn end(&mut self, _: Global, _: &mut Vec<u8>) -> Result<(), RoleFault> {
        Ok(())
    }
}

/// Appends a line for each edge of an edge list, unless it is refused. After a refusal `out` is as before.
fn append_edges(
    alloc: Global,
    nodes: u32,
    list: &[u8],
    edges: &mut Vec<Edge>,
    out: &mut Vec<u8>,
) -> Result<(), RoleFault>
    ensures ok { OnOk result (out.new.items ≡ out.old.items ++ text_of (edges_of nodes list.now).edges) }
    ensures good { OnOk result ((edges_of nodes list.now).refusal ≡ None) }
    ensures bad { IsErrOf result RoleFault.Bad → accepted_text (edges_of nodes list.now) ≡ None }
    ensures known { ¬ IsErrOf result RoleFault.BadBefore }
    ensures err { OnErr result (out.new.items ≡ out.old.items) }
{
    let before = out.len();
    match read_list(alloc, nodes, list, edges, out) {
        Ok(()) => Ok(()),
        Err(fault) => {
            out.truncate(before);
            Err(role_fault(fault))
        }
    }
}

/// What the refusal of a record as an edge list means for the role.
fn role_fault(fault: EdgeFault) -> RoleFault
    ensures text { UnlessOutOfMemory fault (result ≡ RoleFault.Bad) }
    ensures memory { WhereOutOfMemory fault (result ≡ RoleFault.NoMemory) }
{
    match fault {
        EdgeFault::BadEdge { .. } | EdgeFault::BigNode { .. } | EdgeFault::TooLarge =>
            RoleFault::Bad,
        EdgeFault::NoMemory => RoleFault::NoMemory,
    }
}

/// Reads a whole edge list, and appends a line for each of its edges, up to a refusal.
fn read_list(
    alloc: Global,
    nodes: u32,
    list: &[u8],
    edges: &mut Vec<Edge>,
    out: &mut Vec<u8>,
) -> Result<(), EdgeFault>
    ensures ok { OnOk result (out.new.items ≡ out.old.items ++ text_of (edges_of nodes list.now).edges) }
    ensures answer { UnlessNoMemory result ((edges_of nodes list.now).refusal ≡ fault_in result) }
    ensures kept { GoesOnFrom out.old.items out.new.items }
{
    let mut reader = EdgeReader::new(alloc, nodes);
    match reader.feed(alloc, list, edges, out) {
        Ok(()) => reader.end(alloc, edges, out),
        Err(fault) => Err(fault),
    }
}

ghost use Rattle.std.specs.Prelude.{◌≡◌, ◌++◌, OnOk, OnErr};
ghost use Rattle.peg_text.specs.Lists.{GoesOnFrom};
ghost use Rattle.edge_text.specs.Edges.{line_of, text_of};

use graph::Edge;
use itoa::Buffer;
use peg_text::{NoMemory, write_pair};
use std::alloc::Global;

/// Appends a line for each edge. Without memory the text is as before.
pub fn write_edges(alloc: Global, text: &mut Vec<u8>, edges: &[Edge]) -> Result<(), NoMemory>
    ensures ok { OnOk result (text.new.items ≡ text.old.items ++ text_of edges.now) }
    ensures no_memory { OnErr result (text.new.items ≡ text.old.items) }
{
    let before = text.len();
    match append_edges(alloc, text, edges) {
        Ok(()) => Ok(()),
        Err(fault) => {
            text.truncate(before);
            Err(fault)
        }
    }
}

/// Appends a line for each edge. Without memory some of them have been appended.
fn append_edges(alloc: Global, text: &mut Vec<u8>, edges: &[Edge]) -> Result<(), NoMemory>
    ensures ok { OnOk result (text.new.items ≡ text.old.items ++ text_of edges.now) }
    ensures kept { GoesOnFrom text.old.items text.new.items }
{
    for edge in edges {
        write_edge(alloc, text, edge)?;
    }
    Ok(())
}

/// Appends an edge as a line. Without memory the text is as before.
pub fn write_edge(alloc: Global, text: &mut Vec<u8>, edge: &Edge) -> Result<(), NoMemory>
    ensures ok { OnOk result (text.new.items ≡ text.old.items ++ line_of edge.now) }
    ensures no_memory { OnErr result (text.new.items ≡ text.old.items) }
{
    let mut source = Buffer::new();
    let mut target = Buffer::new();
    let source = source.format(edge.source).as_bytes();
    let target = target.format(edge.target).as_bytes();
    write_pair(alloc, text, source, target)
}

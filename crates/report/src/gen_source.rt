ghost use Rattle.std.specs.Prelude.{◌≡◌, ◌≢◌, ◌≤◌, ◌<◌, ◌++◌, [], Some, Err, length, take, drop, IfOk, OnOk, OnErr};
ghost use Rattle.dir_disk.specs.Causes.{HasCause};
ghost use Rattle.dir_disk.specs.Streams.{AtEnd, onto};
ghost use Rattle.edge_text.specs.Edges.{text_of};
ghost use Rattle.report.specs.Generated.{generated_text};

use crate::edge_stream::EdgeStream;
use dir_disk::{Source, SourceFault};
use edge_text::write_edge;
use peg_text::NoMemory;
use std::alloc::Global;
use std::marker::Model;

/// A source of the lines of generated edges, which never fails. Contracts see the text that is left.
///
/// It holds no more than the rest of a line that a piece has cut.
#[derive(Drop)]
pub struct GenSource {
    /// What of its lines was made and not given yet.
    rest: Vec<u8>,
    edges: EdgeStream,
}

impl Model for GenSource {
    ghost use Rattle.std.specs.Prelude.{ℕ, List, ◌++◌};
    ghost use Rattle.edge_text.specs.Edges.{text_of};

    ghost Value = { List ℕ };

    ghost view = { λ s. s.rest.items ++ text_of s.edges };
}

impl GenSource {
    /// A source of `edges` edges among `nodes` nodes. Edge t, from 0, has the words 2t and 2t + 1 of the PCG32 generator
    /// (O'Neill 2014) of this seed on stream 54, each modulo `nodes`, as its source and its target.
    pub fn new(alloc: Global, edges: u64, seed: u64, nodes: u32) -> GenSource
        requires { 1 ≤ nodes }
        ensures { result ≡ generated_text edges seed nodes }
    {
        GenSource {
            rest: Vec::new(alloc),
            edges: EdgeStream::new(edges, seed, nodes),
        }
    }
}

/// Appends lines of edges until the text is long enough or no edge is left. Without memory some may be lost.
fn fill(
    alloc: Global,
    text: &mut Vec<u8>,
    edges: &mut EdgeStream,
    enough: usize,
) -> Result<(), NoMemory>
    ensures same { OnOk result (text.new.items ++ text_of edges.new ≡ text.old.items ++ text_of edges.old) }
    ensures full { OnOk result (length text.new.items < enough → edges.new ≡ []) }
{
    while text.len() < enough {
        match edges.next() {
            Some(edge) => write_edge(alloc, text, &edge)?,
            None => return Ok(()),
        }
    }
    Ok(())
}

/// Cuts the text after so many bytes, where it has more, and gives what stood behind.
fn cut(alloc: Global, text: &mut Vec<u8>, most: usize) -> Result<Vec<u8>, NoMemory>
    ensures front { OnOk result (text.new.items ≡ take most text.old.items) }
    ensures rest { IfOk result (λ rest. rest.items ≡ drop most text.old.items) }
{
    let len = text.len().min(most);
    let rest = Vec::from_slice(alloc, &text[len..])?;
    text.truncate(len);
    Ok(rest)
}

impl GenSource {
    /// The next bytes, as many as may be. Without memory the source is as before.
    fn next_piece(&mut self, alloc: Global, most: usize) -> Result<Vec<u8>, NoMemory>
        ensures piece { IfOk result (λ bytes. bytes.items ≡ take most self.old) }
        ensures left { OnOk result (self.new ≡ drop most self.old) }
        ensures no_memory { OnErr result (self.new ≡ self.old) }
    {
        let mut edges = self.edges.copy()?;
        let mut bytes = Vec::from_slice(alloc, &self.rest)?;
        fill(alloc, &mut bytes, &mut edges, most)?;
        let rest = cut(alloc, &mut bytes, most)?;
        self.rest = rest;
        self.edges = edges;
        Ok(bytes)
    }
}

impl Source for GenSource {
    ghost left = { λ s. Some s };

    ghost faults = { λ _. 0 };

    fn read(&mut self, alloc: Global, max: u32) -> Result<Vec<u8>, SourceFault>
        requires { 1 ≤ max }
        ensures few { IfOk result (λ bytes. length bytes.items ≤ max) }
        ensures next { IfOk result (λ bytes. Some self.old ≡ onto bytes.items (Some self.new)) }
        ensures end { IfOk result (λ bytes. bytes.items ≡ [] → AtEnd (Some self.new)) }
        ensures err { OnErr result (Some self.new ≡ Some self.old) }
        ensures cause { HasCause SourceFault.Failed 0 0 result }

        // It never fails, and gives as much as it may.
        ensures never_fails { result ≢ Err SourceFault.Failed }
        ensures piece { IfOk result (λ bytes. bytes.items ≡ take max self.old) }
    {
        match self.next_piece(alloc, max as usize) {
            Ok(bytes) => Ok(bytes),
            Err(NoMemory) => Err(SourceFault::NoMemory),
        }
    }
}

ghost use Rattle.std.specs.Prelude.{◌≡◌, ◌≤◌, [], ◌∷◌, IfOk, MatchOption};
ghost use Rattle.report.specs.Generated.{generated_edges};

use graph::Edge;
use peg_text::NoMemory;
use rand_core::utils::NextWord;
use rand_pcg::Pcg32;
use std::marker::Model;

/// The stream of the generator that edges are drawn from.
const STREAM: u64 = 54;

/// Edges that are drawn from a generator as they are asked for. Contracts see those that are left.
#[derive(Drop)]
pub struct EdgeStream {
    words: Pcg32,
    nodes: u32,
    left: u64,
}

impl Model for EdgeStream {
    ghost use Rattle.std.specs.Prelude.{◌≤◌, List};
    ghost use Rattle.graph.specs.declared.edges.Edge.{Edge};
    ghost use Rattle.report.specs.Generated.{edges_from};

    ghost Value = { List Edge };

    ghost view = { λ s. edges_from s.words s.nodes 0 s.left };

    ghost invariant = { λ s. 1 ≤ s.nodes };
}

impl EdgeStream {
    /// So many edges among so many nodes.
    pub fn new(count: u64, seed: u64, nodes: u32) -> EdgeStream
        requires { 1 ≤ nodes }
        ensures { result ≡ generated_edges count seed nodes }
    {
        EdgeStream {
            words: Pcg32::new(seed, STREAM),
            nodes,
            left: count,
        }
    }

    /// A stream of the same edges.
    pub fn copy(&self) -> Result<EdgeStream, NoMemory>
        ensures { IfOk result (λ copy. copy ≡ self.now) }
    {
        Ok(EdgeStream {
            words: self.words.clone()?,
            nodes: self.nodes,
            left: self.left,
        })
    }

    /// The next edge, and none where none is left.
    pub fn next(&mut self) -> Option<Edge>
        ensures { MatchOption result ((self.old ≡ []) × (self.new ≡ [])) (λ edge. self.old ≡ edge ∷ self.new) }
    {
        if self.left == 0 {
            return None;
        }
        self.left -= 1;
        let source = self.words.next_word() % self.nodes;
        let target = self.words.next_word() % self.nodes;
        Some(Edge { source, target })
    }
}

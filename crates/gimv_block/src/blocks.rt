ghost use Rattle.std.specs.Prelude.{◌≡◌, ◌*◌, ◌<◌, ◌≤◌, ◌^◌};
ghost use Rattle.gimv_block.specs.Blocks.{block_count, block_of, block_size, offset_of};
ghost use Rattle.gimv_block.specs.Cutting.{Cutting};

use std::marker::Model;

/// Nodes in blocks of equal length, of which the last may be shorter. A block has at least one node.
#[derive(Clone, Copy, Debug, PartialEq, Eq)]
pub struct Blocks {
    nodes: u32,
    len: u32,
}

impl Model for Blocks {
    ghost use Rattle.std.specs.Prelude.{◌≤◌};
    ghost use Rattle.gimv_block.specs.Cutting.{Cutting};

    ghost Value = { Cutting };

    ghost view = { λ blocks. record { len = blocks.len; nodes = blocks.nodes } };

    ghost inverse = { λ cutting. record { nodes = cutting.nodes; len = cutting.len } };

    ghost invariant = { λ blocks. 1 ≤ blocks.len };
}

impl Blocks {
    /// This many nodes in blocks of this length.
    pub fn new(nodes: u32, len: u32) -> Blocks
        requires { 1 ≤ len }
        ensures { result ≡ record { len = len; nodes = nodes } }
    {
        Blocks { nodes, len }
    }

    /// All ids in blocks of this length, where it isn't told how many nodes there are.
    pub fn of_ids(len: u32) -> Blocks
        requires { 1 ≤ len }
        ensures { result.len ≡ len }
    {
        Blocks::new(u32::MAX, len)
    }

    /// How many nodes there are.
    pub fn nodes(self) -> u32
        ensures { result ≡ self.nodes }
    {
        self.nodes
    }

    /// How many blocks there are.
    pub fn count(self) -> u32
        ensures { result ≡ block_count self.len self.nodes }
    {
        self.nodes.div_ceil(self.len)
    }

    /// How many nodes a block has.
    pub fn size(self, block: u32) -> u32
        ensures { result ≡ block_size self.len self.nodes block }
    {
        let start = u64::from(block) * u64::from(self.len);
        let left = u64::from(self.nodes).saturating_sub(start);
        u64::from(self.len).min(left) as u32
    }

    /// The first node of a block.
    pub fn start(self, block: u32) -> u64
        ensures is { result ≡ block * self.len }
        ensures some { 1 ≤ self.len }
        ensures few { self.nodes < 2 ^ 32 }
    {
        u64::from(block) * u64::from(self.len)
    }

    /// The block of a node.
    pub fn block_of(self, node: u32) -> u32
        ensures { result ≡ block_of self.len node }
    {
        node / self.len
    }

    /// The offset of a node in its block.
    pub fn offset_of(self, node: u32) -> u32
        ensures { result ≡ offset_of self.len node }
    {
        node % self.len
    }
}

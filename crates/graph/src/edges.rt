/// A directed edge between two nodes of a graph of at most 2^32 nodes.
#[derive(Clone, Copy, Debug, PartialEq, Eq)]
pub struct Edge {
    /// The node that the edge leaves.
    pub source: u32,
    /// The node that the edge enters.
    pub target: u32,
}

/// The weight of an entry where all entries weigh the same.
#[derive(Clone, Copy, Debug, PartialEq, Eq)]
pub struct One;

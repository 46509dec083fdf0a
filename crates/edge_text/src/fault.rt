use std::alloc::{AllocError, AllocFailed};

/// Why a reader of edges refused.
///
/// `line` is the number of the record among all records of the source, from 1.
#[derive(Clone, Copy, Debug, PartialEq, Eq)]
pub enum EdgeFault {
    /// A record is neither two ids nor empty nor a comment.
    BadEdge { line: u64 },
    /// A record of two ids has one that is not below the number of nodes: `id` is the first such.
    BigNode { line: u64, id: u64 },
    /// The source has more than 2^36 bytes, and no record that ends among the first 2^36 is refused.
    TooLarge,
    /// There was no memory for what the call would have made.
    NoMemory,
}

impl From<AllocError> for EdgeFault {
    ghost use Rattle.std.specs.Prelude.{◌≡◌};
    ghost use Rattle.edge_text.specs.declared.fault.EdgeFault.TheVariants.{NoMemory};

    ghost from_gives = { λ _ fault. fault ≡ NoMemory };

    fn from(_: AllocError) -> Self {
        EdgeFault::NoMemory
    }
}

impl<T: Drop> From<AllocFailed<T>> for EdgeFault {
    ghost use Rattle.std.specs.Prelude.{◌≡◌};
    ghost use Rattle.edge_text.specs.declared.fault.EdgeFault.TheVariants.{NoMemory};

    ghost from_gives = { λ _ fault. fault ≡ NoMemory };

    fn from(_: AllocFailed<T>) -> Self {
        EdgeFault::NoMemory
    }
}

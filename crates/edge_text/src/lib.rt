//! Edge lists as text: a reader that is fed pieces of bytes, and gives the edges and the first refusal.
#![tactic(auto)]

mod fault;
pub mod laws;
mod plain;
mod reader;
mod records;
mod text;
mod unfinished;
mod verdict;

pub use fault::EdgeFault;
pub use graph::Edge;
pub use reader::EdgeReader;
pub use text::write_edge;

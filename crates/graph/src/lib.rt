//! Graphs as mathematics: edges, entries, steps over vectors, walks and components, with their laws.
#![tactic(auto)]

mod edges;
pub mod examples;
pub mod laws;

pub use edges::{Edge, One};

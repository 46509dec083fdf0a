//! The lines that a run says, and a source of generated edges.
#![tactic(auto)]

mod edge_stream;
mod gen_source;
mod lines;

pub use gen_source::GenSource;
pub use lines::{done_line, iteration_line, resumed_line};

//! Splits of a file, and the lines of each: every line of a file is a line of just one of its splits.
#![tactic(auto)]

mod copying;
mod fault;
pub mod laws;
mod line_count;
mod lines;
mod start;
mod table;

pub use fault::SplitFault;
pub use line_count::count_lines;
pub use lines::lines_of_split;
pub use table::{Split, split_table};

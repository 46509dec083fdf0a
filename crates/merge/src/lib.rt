//! Sorted runs of pairs, merged into one file, over any directory.
#![tactic(auto)]

mod fault;
pub mod laws;
mod leaders;
mod merging;
mod passes;
mod source;

pub use fault::MergeFault;
pub use passes::merge_runs;

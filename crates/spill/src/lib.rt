//! Pairs of a key and a value on their way from map outputs to reducers: sorted runs of them, over any directory.
#![tactic(auto)]

mod chunk;
mod entry;
mod fault;
pub mod laws;
mod names;
mod spill;
mod writing;

pub use fault::SpillFault;
pub use spill::Spill;

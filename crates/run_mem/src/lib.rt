//! A whole run in memory with the bundled children: every premise of a run's headline is met there.
#![tactic(auto)]

mod bundled;
mod run;

pub use bundled::Bundled;
pub use run::{Ran, run_in_memory};

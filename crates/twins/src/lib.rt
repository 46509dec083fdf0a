//! The attempts of the tasks of one phase, of which two of a task run at once where a slot would stay free else: which
//! may start next, and what the end of one decides.
#![tactic(auto)]

mod laws;
mod number_set;
mod task;
mod twins;

pub use laws::two_attempts_at_once;
pub use twins::Twins;

//! The attempts of the tasks of one phase: which may start next, what the end of one decides, and
//! the machine that every list of such steps follows.
#![tactic(auto)]

mod attempting;
mod attempts;
mod laws;
mod task;

pub use attempting::Attempting;
pub use attempts::Attempts;
pub use laws::{
    attempts_are_bounded, death_is_final, logs_tell_the_state, one_attempt_at_once, runs_grow,
    steps_are_determined,
};

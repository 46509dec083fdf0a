//! A streaming job whose slow or failing tasks get a second attempt: one is started where a slot would stay free else,
//! and the output of the first to succeed counts.
#![tactic(auto)]

mod run;
mod twice;

pub use run::run_job_twice;
pub use twice::Twice;

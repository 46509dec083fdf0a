//! One streaming job over any site: its inputs are cut into splits, children map them, the pairs are sorted and merged
//! for each part, children reduce them, and the job's folder is made whole.
#![tactic(auto)]

mod begin;
mod delivery;
mod fault;
mod finish;
mod inputs;
pub mod log_laws;
pub mod output_laws;
mod phase;
mod run;
pub mod shuffle_laws;
mod shuffling;
mod spec;
mod stage_faults;
mod tasks;
mod turns;

pub use fault::JobFault;
pub use phase::{Alone, Phases, run_phase, run_phase_over};
pub use run::{run_job, run_job_over};
pub use shuffling::{ShuffleFault, shuffle};
pub use spec::{JobReport, JobSpec};

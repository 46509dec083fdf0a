//! Rows of tests that are data: each makes a world in memory, makes calls, and says what they answer.
#![tactic(auto)]

mod children;
mod cutting;
mod directory;
mod each;
mod edges;
mod folders;
mod jobs;
mod judge;
mod lines;
mod looks;
mod make;
mod programs;
mod reading;
mod reports;
mod row;
mod runs;
mod settings;
mod shuffles;
mod stored;
mod trial;
mod trouble;
mod verbs;
mod world;
mod writing;

pub use reports::{Report, refuse_script, run_script};

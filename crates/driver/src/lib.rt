//! The commands of the program, from their words and edges to the folders that they leave and the lines that they say.
#![tactic(auto)]

mod commands;
mod comparing;
mod first;
mod lines;
mod mining_run;
mod opening;
mod outcome;
mod plain;
mod plain_words;
mod reading;
mod resume;
mod running;
mod settle;

pub use commands::run;
pub use outcome::Outcome;
pub use plain::run_plain;

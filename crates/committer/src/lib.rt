//! Folders that are whole or not, at whatever moment the machine stops: the FileOutputCommitter of Hadoop, algorithm
//! version 1, over any directory.
#![tactic(auto)]

mod commits;
mod fault;
mod folders;
pub mod laws;
mod paths;
mod sealing;
mod steps;

pub use commits::{commit_job, commit_task};
pub use fault::CommitFault;
pub use folders::{drop_folder, is_whole, open_folder};
pub use paths::{attempt_output, part_path, shuffle_folder, task_input, task_output};
pub use sealing::{Sealing, begin_sealed};

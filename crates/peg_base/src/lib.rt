//! Names, paths, tasks and command words: what files and attempts are called.
#![tactic(auto)]

mod names;
mod paths;
mod tasks;
mod word_lists;

pub use names::Name;
pub use paths::Path;
pub use tasks::{Attempt, Phase, TaskId};
pub use word_lists::Words;

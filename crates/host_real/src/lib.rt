//! The real machine: its words, files and standard streams, as the traits of the outside. It tells no content.
#![tactic(auto)]

mod children;
mod file_source;
mod hold;
mod machine;
mod open_files;
mod progress;
mod reads;
mod site;
mod std_streams;
mod tree;
mod words;

pub use file_source::FileSource;
pub use machine::Machine;
pub use progress::Progress;
pub use site::HostSite;
pub use std_streams::{HeldStreams, StdConsole, StdSink, StdSource};
pub use words::{ProgramWords, program_words};

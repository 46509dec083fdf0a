//! The outside as traits whose contracts say what it may do, each with a double in memory.
#![tactic(auto)]

mod dir;
mod fault_plan;
pub mod laws;
mod mem_console;
mod mem_sink;
mod mem_source;
mod silent;
mod site;
mod streams;

pub use dir::{Dir, DirFault};
pub use fault_plan::FaultPlan;
pub use mem_console::MemConsole;
pub use mem_sink::MemSink;
pub use mem_source::MemSource;
pub use silent::SilentDir;
pub use site::{Ended, LogEntry, Site, StartFault};
pub use streams::{Console, SayFault, Sink, SinkFault, Source, SourceFault};

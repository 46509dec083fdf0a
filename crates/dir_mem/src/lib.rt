//! A directory in memory that tells everything, and shows what a stop may leave.
#![tactic(auto)]

mod dir;
mod effects;
mod images;
mod lending;
mod log;
mod looking;
mod making;
mod mem_dir;
mod traces;

pub use images::Image;
pub use lending::Loan;
pub use mem_dir::MemDir;
pub use traces::GARBAGE;

//! The child program of a streaming job: the role that its words name, over a source and a sink, piece by piece.
#![tactic(auto)]

mod dispatch;
mod edges;
mod feeding;
mod front;
mod fronts;
mod kinds;
mod quoting;
mod roles;
mod run;
mod showing;
mod status;
mod watched;

pub use dispatch::run_child;
pub use front::Front;
pub use quoting::append_quoted;
pub use showing::run_showing;
pub use status::ChildStatus;

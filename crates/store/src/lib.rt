//! What the driver reads and writes of its work folder by itself, without jobs.
#![tactic(auto)]

mod changes;
mod checking;
mod comparing;
mod edges;
mod fault;
pub mod laws;
mod missing;
mod nodes;
mod sealed;
mod sizes;
mod tally;
mod texts;
mod totals;
mod writing;

pub use changes::{Changes, Place, count_changes};
pub use checking::check_edges;
pub use fault::{IngestFault, ReadingFault, StoreFault};
pub use missing::missing_part;
pub use nodes::write_nodes;
pub use texts::{compare_text, write_text};
pub use totals::{Numbers, total};
pub use writing::write_edges;

//! Text that the other crates stand on: decimals, records and pairs, in memory and in pieces.
#![tactic(auto)]

mod decimals;
pub mod laws;
mod line_buf;
mod lines;
mod memory;
mod pairs;

pub use decimals::{read_decimal, write_decimal};
pub use line_buf::LineBuf;
pub use lines::records;
pub use memory::NoMemory;
pub use pairs::{split_pair, write_pair};

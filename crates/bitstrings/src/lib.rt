//! Bitstrings that count distinct nodes (Flajolet and Martin 1985), with their texts.
#![tactic(auto)]

mod bits;
pub mod laws;
mod read;
mod words;
mod write;

pub use bits::{Bits, radius};
pub use read::{read_bits, read_words};
pub use words::{first_words, or_into, places};
pub use write::{write_bits, write_words};

//! Pairs of a key and a value: their order by key bytes, then value bytes, lists of them that are sorted by it, and the
//! prefix of a key, by which two pairs can be told apart fast.
#![tactic(auto)]

pub mod laws;
mod pair_buf;
mod prefix;

pub use pair_buf::PairBuf;
pub use prefix::measured_key;

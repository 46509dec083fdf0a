//! Algorithms as generalized products of a matrix and a vector (Kang, Tsourakakis and Faloutsos 2009), with their laws.
#![tactic(auto)]

mod closing;
mod gimv;
pub mod laws;
mod weights;

pub use closing::Closing;
pub use gimv::Gimv;
pub use graph::One;
pub use weights::read_one;

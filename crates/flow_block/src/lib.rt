//! The jobs of the block form, for any algorithm that keeps the laws: the blocks of a matrix, the first
//! vector, a step, and the result.
#![tactic(auto)]

pub mod laws;

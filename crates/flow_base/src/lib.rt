//! The jobs of the base form, for any algorithm that keeps the laws: the matrix, the first vector, a step,
//! and the result.
#![tactic(auto)]

pub mod laws;

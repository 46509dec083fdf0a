//! Steps that close each block first: within a block a value spreads as far as it can before it is passed on to other
//! blocks, which is the diagonal form of PEGASUS (Kang and others 2009) made exact. The role, the definition of what it
//! writes, and laws on what it comes to.
#![tactic(auto)]

mod closing;
mod diag1;
mod items;
pub mod laws;
mod sending;

pub use diag1::Diag1;

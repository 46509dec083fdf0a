//! What the folders of the base form hold, where the children are the bundled ones: exactly so many steps
//! of the algorithm.
#![tactic(auto)]

pub mod laws;

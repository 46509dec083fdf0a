//! What the folders of a run of the block form hold, where the children are the bundled ones: exactly so many
//! steps of the algorithm, and the result of the base form.
#![tactic(auto)]

pub mod laws;

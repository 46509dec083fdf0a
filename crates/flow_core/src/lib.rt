//! What jobs make of folders that hold pairs, and a step of any form as two jobs: no algorithm, and no child.
#![tactic(auto)]

pub mod laws;

//! The jobs of the diagonal form, for any algorithm whose values can be sent as messages: a step of values
//! that were closed within their blocks first.
#![tactic(auto)]

pub mod laws;

//! Laws of lists that std lacks: what is made of the items of a permuted list is permuted, and items of which each is in
//! just one class are the items of all classes.
#![tactic(auto)]

pub mod laws;

//! A site in memory, over a directory in memory: it tells everything, and its children end as they are told.
#![tactic(auto)]

mod console;
mod dir;
mod mem_site;
mod order;
mod plan;
mod roles;
mod roster;
mod site;
mod voice;

pub use mem_site::MemSite;
pub use order::Order;
pub use roles::Roles;

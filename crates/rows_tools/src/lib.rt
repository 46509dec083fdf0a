//! What rows over doubles in memory share.
#![tactic(auto)]

mod tried_site;

pub use tried_site::TriedSite;

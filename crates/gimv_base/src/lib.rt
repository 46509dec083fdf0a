//! What the steps of an algorithm write for lists of records: roles that see one record after another, each with the
//! definition of what it writes for all of them.
#![tactic(auto)]

mod degrees;
mod entries;
mod fields;
mod first;
mod grouped;
mod id;
pub mod laws;
mod lines;
mod number;
mod place;
mod records;
mod role;
mod stage1;
mod stage2;

pub use degrees::DegreesRole;
pub use entries::EntriesRole;
pub use fields::{after_tag, around_blank, read_below};
pub use first::FirstRole;
pub use grouped::{Grouped, Grouping};
pub use id::IdRole;
pub use lines::{append_entry, append_message, append_number, append_record, append_value};
pub use number::NumberRole;
pub use place::PlaceRole;
pub use records::{
    read_edge, read_entry, read_message, read_node, read_number, read_place, read_value, value_text,
};
pub use role::{Role, RoleFault};
pub use stage1::Stage1;
pub use stage2::Stage2;

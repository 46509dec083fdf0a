//! Steps in blocks of nodes: roles over blocks, as PEGASUS (Kang and others 2009) cuts matrix and vector, each with the
//! definition of what it writes for all of its records, and laws on what they come to.
#![tactic(auto)]

mod block1;
mod block2;
mod blocks;
mod blocks_role;
mod cut;
mod firstb;
mod group;
mod items;
pub mod laws;
mod numbers;
mod parts;
mod records;
mod unblock;
mod unplace;
mod values;

pub use block1::Block1;
pub use block2::Block2;
pub use blocks::Blocks;
pub use blocks_role::BlocksRole;
pub use cut::CutRole;
pub use firstb::FirstBlock;
pub use group::GroupRole;
pub use items::{around_colon, first_item};
pub use parts::{append_parts, clear_rows, put};
pub use records::{read_block, read_link};
pub use unblock::Unblock;
pub use unplace::Unplace;
pub use values::{append_values, assign_all, count_changed};

ghost use Rattle.std.specs.Prelude.{◌≡◌, ◌≤◌, ◌++◌, OnOk};
ghost use Rattle.peg_text.specs.Lists.{GoesOnFrom};
ghost use Rattle.gimv_base.specs.Lines.{with_lf};
ghost use Rattle.gimv_base.specs.Standings.{fresh};
ghost use Rattle.gimv_block.specs.BlockLines.{seat_text};
ghost use Rattle.gimv_block.specs.BlockRules.{group_rule};

use crate::blocks::Blocks;
use gimv_base::{Role, RoleFault, read_place};
use peg_text::{NoMemory, write_decimal};
use std::alloc::Global;

/// `group`: each place and its node, by the place's block.
#[derive(Drop)]
pub struct GroupRole {
    blocks: Blocks,
}

impl GroupRole {
    /// The role before its first record. A block has this many nodes.
    pub fn new(block: u32) -> GroupRole
        requires { 1 ≤ block }
        ensures { ⟦<GroupRole as Role>⟧.standing result ≡ fresh (group_rule block) }
    {
        GroupRole {
            blocks: Blocks::of_ids(block),
        }
    }
}

impl Role for GroupRole {
    ghost standing = { λ s. fresh (group_rule s.blocks.len) };

    fn line(&mut self, alloc: Global, text: &[u8], out: &mut Vec<u8>) -> Result<(), RoleFault> {
        let Some((place, node)) = read_place(text) else {
            return Err(RoleFault::Bad);
        };
        let before = out.len();
        match append_seat(alloc, out, self.blocks, place, node) {
            Ok(()) => Ok(()),
            Err(_) => {
                out.truncate(before);
                Err(RoleFault::NoMemory)
            }
        }
    }

    fn end(&mut self, _: Global, _: &mut Vec<u8>) -> Result<(), RoleFault> {
        Ok(())
    }
}

/// Appends a node by its place's block. Without memory some of it may have been appended.
fn append_seat(
    alloc: Global,
    out: &mut Vec<u8>,
    blocks: Blocks,
    place: u32,
    node: u32,
) -> Result<(), NoMemory>
    ensures ok { OnOk result (out.new.items ≡ out.old.items ++ with_lf (seat_text blocks.len place node)) }
    ensures kept { GoesOnFrom out.old.items out.new.items }
{
    write_decimal(alloc, out, u64::from(blocks.block_of(place)))?;
    out.extend_from_slice(b"\tP ")?;
    write_decimal(alloc, out, u64::from(blocks.offset_of(place)))?;
    out.push(b' ')?;
    write_decimal(alloc, out, u64::from(node))?;
    out.push(b'\n')?;
    Ok(())
}

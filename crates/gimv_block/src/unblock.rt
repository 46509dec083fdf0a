ghost use Rattle.std.specs.Prelude.{◌≡◌, ◌+◌, ◌≤◌, ◌<◌, ◌^◌, ◌++◌, true, length, OnOk};
ghost use Rattle.std.specs.List.{list_all};
ghost use Rattle.peg_text.specs.Lists.{GoesOnFrom};
ghost use Rattle.gimv_base.specs.Standings.{fresh};
ghost use Rattle.gimv_block.specs.BlockLines.{number_lines};
ghost use Rattle.gimv_block.specs.BlockRules.{unblock_rule};

use crate::blocks::Blocks;
use crate::records::read_block;
use gimv_base::{Role, RoleFault, append_number};
use gimv_core::Gimv;
use peg_text::NoMemory;
use std::alloc::Global;

/// `unblock`: each node of a block with the number of its value.
#[derive(Drop)]
pub struct Unblock<G> {
    algorithm: G,
    blocks: Blocks,
}

impl<G: Gimv> Unblock<G> {
    /// The role before its first record, over this many nodes in blocks of this many.
    pub fn new(algorithm: G, nodes: u32, block: u32) -> Unblock<G>
        requires { 1 ≤ block }
        ensures { ⟦<Unblock<G> as Role>⟧.standing result ≡ fresh (unblock_rule (G.algebra algorithm) block nodes) }
    {
        Unblock {
            algorithm,
            blocks: Blocks::new(nodes, block),
        }
    }
}

impl<G: Gimv> Role for Unblock<G> {
    ghost standing = { λ s. fresh (unblock_rule (G.algebra s.algorithm) s.blocks.len s.blocks.nodes) };

    fn line(&mut self, alloc: Global, text: &[u8], out: &mut Vec<u8>) -> Result<(), RoleFault> {
        let Some((block, vals)) = read_block(alloc, &self.algorithm, self.blocks, text)? else {
            return Err(RoleFault::Bad);
        };
        let before = out.len();
        match append_numbers(alloc, out, &self.algorithm, self.blocks.start(block), &vals) {
            Ok(()) => Ok(()),
            Err(_) => {
                out.truncate(before);
                Err(RoleFault::NoMemory)
            }
        }
    }

    fn end(&mut self, _: Global, _: &mut Vec<u8>) -> Result<(), RoleFault> {
        Ok(())
    }
}

/// Appends nodes that follow each other, each with the number of its value. Without memory some of it may have been
/// appended.
fn append_numbers<G: Gimv>(
    alloc: Global,
    out: &mut Vec<u8>,
    algorithm: &G,
    first: u64,
    vals: &Vec<G::Val>,
) -> Result<(), NoMemory>
    requires fit { list_all (G.algebra algorithm.now).fits_val vals.now.items ≡ true }
    requires few { first + length vals.now.items ≤ 2 ^ 32 }
    ensures ok { OnOk result (out.new.items ≡ out.old.items ++ number_lines (G.algebra algorithm.now) first vals.now.items) }
    ensures kept { GoesOnFrom out.old.items out.new.items }
{
    for place in 0..vals.len() {
        append_number(
            alloc,
            out,
            (first + place as u64) as u32,
            algorithm.number(&vals[place]),
        )?;
    }
    Ok(())
}

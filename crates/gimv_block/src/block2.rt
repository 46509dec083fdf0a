ghost use Rattle.std.specs.Prelude.{◌≡◌, ◌≤◌, ◌&&◌, ◌^◌, length, nat_eq, nat_lt};
ghost use Rattle.std.specs.List.{list_all};
ghost use Rattle.gimv_base.specs.BaseRules.{headed, no_text};
ghost use Rattle.gimv_base.specs.Standings.{fresh};
ghost use Rattle.gimv_block.specs.BlockBlame.{renewed_blames_the_end};
ghost use Rattle.gimv_block.specs.BlockRecords.{block_record_of};
ghost use Rattle.gimv_block.specs.BlockRules.{all_at, block2_rule, renewed_part};
ghost use Rattle.gimv_block.specs.Rows.{rows_fit};

use crate::blocks::Blocks;
use crate::parts::{clear_rows, take_parts};
use crate::records::read_block;
use crate::values::{append_values, assign_all, count_changed};
use gimv_base::{Grouped, Grouping, Role, RoleFault, after_tag};
use gimv_core::Gimv;
use peg_text::split_pair;
use std::alloc::Global;

/// `block2`: each block's new values, from its old ones and all messages to its rows.
#[derive(Drop)]
pub struct Block2<G: Gimv + Drop> {
    groups: Grouped<RowBlock<G>>,
}

impl<G: Gimv + Drop> Block2<G> {
    /// The role before its first record, over this many nodes in blocks of this many.
    pub fn new(alloc: Global, algorithm: G, nodes: u32, block: u32) -> Block2<G>
        requires { 1 ≤ block }
        ensures { ⟦<Block2<G> as Role>⟧.standing result ≡ fresh (block2_rule (G.algebra algorithm) block nodes) }
    {
        let blocks = Blocks::new(nodes, block);
        Block2 {
            groups: Grouped::new(alloc, RowBlock { algorithm, blocks }),
        }
    }
}

impl<G: Gimv + Drop> Role for Block2<G> {
    ghost standing = { λ s. ⟦<Grouped<RowBlock<G>> as Role>⟧.standing s.groups };

    fn line(&mut self, alloc: Global, text: &[u8], out: &mut Vec<u8>) -> Result<(), RoleFault> {
        self.groups.line(alloc, text, out)
    }

    fn end(&mut self, alloc: Global, out: &mut Vec<u8>) -> Result<(), RoleFault> {
        self.groups.end(alloc, out)
    }
}

/// What is done with one block of rows: its values, and the messages to them.
#[derive(Drop)]
struct RowBlock<G> {
    algorithm: G,
    blocks: Blocks,
}

/// A block with its old values, and the messages to each row so far, put together.
#[derive(Drop)]
struct Gathering<V, M> {
    block: u32,
    vals: Vec<V>,
    rows: Vec<Option<M>>,
}

impl<G: Gimv + Drop> Grouping for RowBlock<G> {
    type State = Gathering<G::Val, G::Msg>;

    ghost part = { λ s. headed (block_record_of (G.algebra s.algorithm) s.blocks.len s.blocks.nodes) no_text (λ block. renewed_part (G.algebra s.algorithm) block.0 block.1 (λ row. (G.algebra s.algorithm).algorithm.unit)) };

    ghost further = { λ s state. renewed_part (G.algebra s.algorithm) state.block state.vals.items (all_at (G.algebra s.algorithm) state.rows.items) };

    ghost fits = { λ s state. list_all (G.algebra s.algorithm).fits_val state.vals.items && (rows_fit (G.algebra s.algorithm) state.rows.items && (nat_eq (length state.rows.items) (length state.vals.items) && nat_lt (length state.vals.items) (2 ^ 32))) };

    ghost blames_the_end = { λ s state. renewed_blames_the_end (G.algebra s.algorithm) state.block state.vals.items (all_at (G.algebra s.algorithm) state.rows.items) };

    fn begin(
        &self,
        alloc: Global,
        text: &[u8],
        _: &mut Vec<u8>,
    ) -> Result<Gathering<G::Val, G::Msg>, RoleFault> {
        let Some((block, vals)) = read_block(alloc, &self.algorithm, self.blocks, text)? else {
            return Err(RoleFault::Bad);
        };
        let mut rows = Vec::new(alloc);
        clear_rows(&mut rows, self.blocks.size(block))?;
        Ok(Gathering { block, vals, rows })
    }

    fn go_on(
        &self,
        _: Global,
        state: &mut Gathering<G::Val, G::Msg>,
        text: &[u8],
        _: &mut Vec<u8>,
    ) -> Result<(), RoleFault> {
        let (_, value) = split_pair(text);
        let Some(parts) = after_tag(value, b'Y') else {
            return Err(RoleFault::Bad);
        };
        if take_parts(&self.algorithm, parts, &mut state.rows).is_none() {
            return Err(RoleFault::Bad);
        }
        Ok(())
    }

    fn close(
        &self,
        alloc: Global,
        state: &Gathering<G::Val, G::Msg>,
        out: &mut Vec<u8>,
    ) -> Result<(), RoleFault> {
        let new = assign_all(alloc, &self.algorithm, &state.vals, &state.rows)?;
        let changed = count_changed(&self.algorithm, &state.vals, &new);
        append_values(alloc, out, &self.algorithm, state.block, changed, &new)?;
        Ok(())
    }
}

ghost use Rattle.std.specs.Prelude.{◌≡◌, ◌≤◌, ◌&&◌, ◌^◌, [], length, nat_eq, nat_lt};
ghost use Rattle.std.specs.List.{list_all};
ghost use Rattle.gimv_base.specs.BaseRules.{headed};
ghost use Rattle.gimv_base.specs.Lines.{with_lf};
ghost use Rattle.gimv_base.specs.Standings.{fresh};
ghost use Rattle.gimv_block.specs.Blocks.{block_size};
ghost use Rattle.gimv_block.specs.BlockRecords.{block_record_of};
ghost use Rattle.gimv_diag.specs.DiagonalBlame.{closed_blames_the_end};
ghost use Rattle.gimv_diag.specs.DiagonalRules.{closed_part, diag1_rule};
ghost use Rattle.gimv_diag.specs.Held.{held, item_count, lines_fit};

use crate::closing::close;
use crate::items::{Item, Line, hold};
use crate::sending::{append_lines, append_own};
use gimv_base::{Grouped, Grouping, Role, RoleFault, append_record};
use gimv_block::{Blocks, read_block, read_link};
use gimv_core::Closing;
use std::alloc::Global;

/// `diag1`: each block's values, then the closed ones to the block itself, and what these pass on along the items of the
/// block's columns.
#[derive(Drop)]
pub struct Diag1<G: Closing + Drop> {
    groups: Grouped<DiagonalBlock<G>>,
}

impl<G: Closing + Drop> Diag1<G> {
    /// The role before its first record, over this many nodes in blocks of this many.
    pub fn new(alloc: Global, algorithm: G, nodes: u32, block: u32) -> Diag1<G>
        requires { 1 ≤ block }
        ensures { ⟦<Diag1<G> as Role>⟧.standing result ≡ fresh (diag1_rule (G.algebra algorithm) (G.as_message algorithm) block nodes) }
    {
        let blocks = Blocks::new(nodes, block);
        Diag1 {
            groups: Grouped::new(alloc, DiagonalBlock { algorithm, blocks }),
        }
    }
}

impl<G: Closing + Drop> Role for Diag1<G> {
    ghost standing = { λ s. ⟦<Grouped<DiagonalBlock<G>> as Role>⟧.standing s.groups };

    fn line(&mut self, alloc: Global, text: &[u8], out: &mut Vec<u8>) -> Result<(), RoleFault> {
        self.groups.line(alloc, text, out)
    }

    fn end(&mut self, alloc: Global, out: &mut Vec<u8>) -> Result<(), RoleFault> {
        self.groups.end(alloc, out)
    }
}

/// What is done with one block of columns: its values, and the lines of its items.
#[derive(Drop)]
struct DiagonalBlock<G> {
    algorithm: G,
    blocks: Blocks,
}

/// A block with its values, and the lines of items so far.
#[derive(Drop)]
struct Holding<V, W> {
    block: u32,
    vals: Vec<V>,
    lines: Vec<Line>,
    items: Vec<Item<W>>,
}

impl<G: Closing + Drop> Grouping for DiagonalBlock<G> {
    type State = Holding<G::Val, G::Weight>;

    ghost part = { λ s. headed (block_record_of (G.algebra s.algorithm) s.blocks.len s.blocks.nodes) with_lf (λ block. closed_part (G.algebra s.algorithm) (G.as_message s.algorithm) s.blocks.len s.blocks.nodes block.0 block.1 []) };

    ghost further = { λ s state. closed_part (G.algebra s.algorithm) (G.as_message s.algorithm) s.blocks.len s.blocks.nodes state.block state.vals.items (held state.lines.items state.items.items) };

    ghost fits = { λ s state. list_all (G.algebra s.algorithm).fits_val state.vals.items && (lines_fit (G.algebra s.algorithm) s.blocks.len s.blocks.nodes (length state.vals.items) (held state.lines.items state.items.items) && (nat_eq (item_count state.lines.items) (length state.items.items) && (nat_eq (length state.vals.items) (block_size s.blocks.len s.blocks.nodes state.block) && nat_lt (length state.vals.items) (2 ^ 32)))) };

    ghost blames_the_end = { λ s state. closed_blames_the_end (G.algebra s.algorithm) (G.as_message s.algorithm) s.blocks.len s.blocks.nodes state.block state.vals.items (held state.lines.items state.items.items) };

    fn begin(
        &self,
        alloc: Global,
        text: &[u8],
        out: &mut Vec<u8>,
    ) -> Result<Holding<G::Val, G::Weight>, RoleFault> {
        let Some((block, vals)) = read_block(alloc, &self.algorithm, self.blocks, text)? else {
            return Err(RoleFault::Bad);
        };
        append_record(out, text)?;
        Ok(Holding {
            block,
            vals,
            lines: Vec::new(alloc),
            items: Vec::new(alloc),
        })
    }

    fn go_on(
        &self,
        _: Global,
        state: &mut Holding<G::Val, G::Weight>,
        text: &[u8],
        _: &mut Vec<u8>,
    ) -> Result<(), RoleFault> {
        let Some((block, items)) = read_link(text, self.blocks, state.block) else {
            return Err(RoleFault::Bad);
        };
        let rows = self.blocks.size(block);
        let columns = state.vals.len() as u32;
        hold(
            &self.algorithm,
            block,
            rows,
            columns,
            items,
            &mut state.lines,
            &mut state.items,
        )?;
        Ok(())
    }

    fn close(
        &self,
        alloc: Global,
        state: &Holding<G::Val, G::Weight>,
        out: &mut Vec<u8>,
    ) -> Result<(), RoleFault> {
        let mut rows = Vec::new(alloc);
        let closed = close(
            alloc,
            &self.algorithm,
            self.blocks,
            state.block,
            &state.vals,
            &state.lines,
            &state.items,
        )?;
        append_own(alloc, out, &self.algorithm, state.block, &closed, &mut rows)?;
        append_lines(
            alloc,
            out,
            &self.algorithm,
            self.blocks,
            &closed,
            &state.lines,
            &state.items,
            &mut rows,
        )?;
        Ok(())
    }
}

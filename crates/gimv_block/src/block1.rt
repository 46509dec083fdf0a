ghost use Rattle.std.specs.Prelude.{◌≡◌, ◌≤◌, ◌++◌, true, None, is_some, IfSome, OnOk, IsErrOf};
ghost use Rattle.peg_text.specs.Lists.{GoesOnFrom};
ghost use Rattle.std.specs.List.{list_all};
ghost use Rattle.gimv_base.specs.BaseRules.{headed};
ghost use Rattle.gimv_base.specs.Lines.{with_lf};
ghost use Rattle.gimv_base.specs.Standings.{fresh};
ghost use Rattle.gimv_block.specs.BlockRecords.{block_record_of, sent_of};
ghost use Rattle.gimv_block.specs.BlockLines.{parts_line};
ghost use Rattle.gimv_block.specs.BlockRules.{block1_rule, sent_part};
ghost use Rattle.gimv_block.specs.BlockBlame.{sent_blames_the_end};

use crate::blocks::Blocks;
use crate::parts::{append_parts, clear_rows, take_items};
use crate::records::{read_block, read_link};
use gimv_base::{Grouped, Grouping, Role, RoleFault, append_record};
use gimv_core::Gimv;
use std::alloc::Global;

/// `block1`: each block's values, and then what they pass on along the items of the block's columns.
#[derive(Drop)]
pub struct Block1<G: Gimv + Drop> {
    groups: Grouped<ColumnBlock<G>>,
}

impl<G: Gimv + Drop> Block1<G> {
    /// The role before its first record, over this many nodes in blocks of this many.
    pub fn new(alloc: Global, algorithm: G, nodes: u32, block: u32) -> Block1<G>
        requires { 1 ≤ block }
        ensures { ⟦<Block1<G> as Role>⟧.standing result ≡ fresh (block1_rule (G.algebra algorithm) block nodes) }
    {
        let blocks = Blocks::new(nodes, block);
        Block1 {
            groups: Grouped::new(alloc, ColumnBlock { algorithm, blocks }),
        }
    }
}

impl<G: Gimv + Drop> Role for Block1<G> {
    ghost standing = { λ s. ⟦<Grouped<ColumnBlock<G>> as Role>⟧.standing s.groups };

    fn line(&mut self, alloc: Global, text: &[u8], out: &mut Vec<u8>) -> Result<(), RoleFault> {
        self.groups.line(alloc, text, out)
    }

    fn end(&mut self, alloc: Global, out: &mut Vec<u8>) -> Result<(), RoleFault> {
        self.groups.end(alloc, out)
    }
}

/// What is done with one block of columns: its values, and the lines of its items.
#[derive(Drop)]
struct ColumnBlock<G> {
    algorithm: G,
    blocks: Blocks,
}

/// A block with its values, and room for what a line of items passes on to each row.
#[derive(Drop)]
struct Sending<V, M> {
    block: u32,
    vals: Vec<V>,
    rows: Vec<Option<M>>,
}

impl<G: Gimv + Drop> Grouping for ColumnBlock<G> {
    type State = Sending<G::Val, G::Msg>;

    ghost part = { λ s. headed (block_record_of (G.algebra s.algorithm) s.blocks.len s.blocks.nodes) with_lf (λ block. sent_part (G.algebra s.algorithm) s.blocks.len s.blocks.nodes block.0 block.1) };

    ghost further = { λ s state. sent_part (G.algebra s.algorithm) s.blocks.len s.blocks.nodes state.block state.vals.items };

    ghost fits = { λ s state. list_all (G.algebra s.algorithm).fits_val state.vals.items };

    ghost blames_the_end = { λ s state. sent_blames_the_end (G.algebra s.algorithm) s.blocks.len s.blocks.nodes state.block state.vals.items };

    fn begin(
        &self,
        alloc: Global,
        text: &[u8],
        out: &mut Vec<u8>,
    ) -> Result<Sending<G::Val, G::Msg>, RoleFault> {
        let Some((block, vals)) = read_block(alloc, &self.algorithm, self.blocks, text)? else {
            return Err(RoleFault::Bad);
        };
        append_record(out, text)?;
        Ok(Sending {
            block,
            vals,
            rows: Vec::new(alloc),
        })
    }

    fn go_on(
        &self,
        alloc: Global,
        state: &mut Sending<G::Val, G::Msg>,
        text: &[u8],
        out: &mut Vec<u8>,
    ) -> Result<(), RoleFault> {
        let Some((block, items)) = read_link(text, self.blocks, state.block) else {
            return Err(RoleFault::Bad);
        };
        send(
            alloc,
            &self.algorithm,
            self.blocks,
            &state.vals,
            &mut state.rows,
            block,
            items,
            out,
        )?;
        Ok(())
    }

    fn close(
        &self,
        _: Global,
        _: &Sending<G::Val, G::Msg>,
        _: &mut Vec<u8>,
    ) -> Result<(), RoleFault> {
        Ok(())
    }
}

/// Appends what the items of a text pass on of these values, put together for each row of a block.
fn send<G: Gimv>(
    alloc: Global,
    algorithm: &G,
    blocks: Blocks,
    vals: &Vec<G::Val>,
    rows: &mut Vec<Option<G::Msg>>,
    block: u32,
    items: &[u8],
    out: &mut Vec<u8>,
) -> Result<(), RoleFault>
    requires { list_all (G.algebra algorithm.now).fits_val vals.now.items ≡ true }
    ensures ok { OnOk result (IfSome (sent_of (G.algebra algorithm.now) blocks.len blocks.nodes vals.now.items (block, items.now)) (λ line. out.new.items ≡ out.old.items ++ parts_line (G.algebra algorithm.now) blocks.len blocks.nodes line)) }
    ensures good { OnOk result (is_some (sent_of (G.algebra algorithm.now) blocks.len blocks.nodes vals.now.items (block, items.now)) ≡ true) }
    ensures bad { IsErrOf result RoleFault.Bad → sent_of (G.algebra algorithm.now) blocks.len blocks.nodes vals.now.items (block, items.now) ≡ None }
    ensures never_before { ¬ IsErrOf result RoleFault.BadBefore }
    ensures kept { GoesOnFrom out.old.items out.new.items }
{
    clear_rows(rows, blocks.size(block))?;
    if take_items(algorithm, vals, items, rows).is_none() {
        return Err(RoleFault::Bad);
    }
    append_parts(alloc, out, algorithm, block, rows)?;
    Ok(())
}

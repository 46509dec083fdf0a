ghost use Rattle.std.specs.Prelude.{◌≡◌, ◌++◌, ◌∷◌, ◌≤◌, OnOk, nat_le};
ghost use Rattle.peg_text.specs.Lists.{GoesOnFrom};
ghost use Rattle.gimv_base.specs.Standings.{fresh};
ghost use Rattle.gimv_block.specs.BlockBlame.{items_blame_the_end};
ghost use Rattle.gimv_block.specs.BlockLines.{item_text, link_head};
ghost use Rattle.gimv_block.specs.BlockRules.{blocks_part, blocks_rule, item_lead, items_part, next_count};
ghost use Rattle.gimv_block.specs.MatrixEntries.{entry_of};

use crate::records::{MatrixEntry, read_block_pair, read_cut};
use gimv_base::{Grouped, Grouping, Role, RoleFault};
use peg_text::{NoMemory, split_pair, write_decimal};
use std::alloc::Global;

/// The most items of a line.
const MOST_ITEMS: u32 = 4096;

/// `blocks`: the entries between two blocks as items, in lines of limited length.
#[derive(Drop)]
pub struct BlocksRole {
    groups: Grouped<BlockPairs>,
}

impl BlocksRole {
    /// The role before its first record.
    pub fn new(alloc: Global) -> BlocksRole
        ensures { ⟦<BlocksRole as Role>⟧.standing result ≡ fresh blocks_rule }
    {
        BlocksRole {
            groups: Grouped::new(alloc, BlockPairs),
        }
    }
}

impl Role for BlocksRole {
    ghost standing = { λ s. ⟦<Grouped<BlockPairs> as Role>⟧.standing s.groups };

    fn line(&mut self, alloc: Global, text: &[u8], out: &mut Vec<u8>) -> Result<(), RoleFault> {
        self.groups.line(alloc, text, out)
    }

    fn end(&mut self, alloc: Global, out: &mut Vec<u8>) -> Result<(), RoleFault> {
        self.groups.end(alloc, out)
    }
}

/// What is done with the entries between two blocks.
#[derive(Drop)]
struct BlockPairs;

/// Two blocks, and how many items the line has that isn't ended yet.
#[derive(Drop)]
struct Listing {
    column_block: u32,
    row_block: u32,
    items: u32,
}

impl Grouping for BlockPairs {
    type State = Listing;

    ghost part = { λ s. blocks_part };

    ghost further = { λ s state rs. items_part (link_head state.column_block state.row_block) rs state.items };

    ghost fits = { λ s state. nat_le state.items 4096 };

    ghost blames_the_end = { λ s state. items_blame_the_end (link_head state.column_block state.row_block) state.items };

    fn begin(&self, alloc: Global, text: &[u8], out: &mut Vec<u8>) -> Result<Listing, RoleFault> {
        let (key, _) = split_pair(text);
        let Some((column_block, row_block)) = read_block_pair(key) else {
            return Err(RoleFault::Bad);
        };
        let Some(entry) = read_cut(text) else {
            return Err(RoleFault::Bad);
        };
        append_head(alloc, out, column_block, row_block)?;
        append_item(alloc, out, entry)?;
        Ok(Listing {
            column_block,
            row_block,
            items: 1,
        })
    }

    fn go_on(
        &self,
        alloc: Global,
        state: &mut Listing,
        text: &[u8],
        out: &mut Vec<u8>,
    ) -> Result<(), RoleFault> {
        let Some(entry) = read_cut(text) else {
            return Err(RoleFault::Bad);
        };
        append_lead(alloc, out, state.column_block, state.row_block, state.items)?;
        append_item(alloc, out, entry)?;
        state.items = items_after(state.items);
        Ok(())
    }

    fn close(&self, _: Global, _: &Listing, out: &mut Vec<u8>) -> Result<(), RoleFault> {
        out.push(b'\n')?;
        Ok(())
    }
}

/// How many items the line has after one more, which may begin a line.
fn items_after(items: u32) -> u32
    requires { items ≤ 4096 }
    ensures is { result ≡ next_count items }
    ensures few { result ≤ 4096 }
{
    if items == MOST_ITEMS { 1 } else { items + 1 }
}

/// Appends what stands before the items of a line. Without memory some of it may have been appended.
fn append_head(
    alloc: Global,
    out: &mut Vec<u8>,
    column_block: u32,
    row_block: u32,
) -> Result<(), NoMemory>
    ensures ok { OnOk result (out.new.items ≡ out.old.items ++ link_head column_block row_block) }
    ensures kept { GoesOnFrom out.old.items out.new.items }
{
    write_decimal(alloc, out, u64::from(column_block))?;
    out.push(b'\t')?;
    out.push(if row_block == column_block {
        b'W'
    } else {
        b'X'
    })?;
    out.push(b' ')?;
    write_decimal(alloc, out, u64::from(row_block))?;
    out.push(b' ')?;
    Ok(())
}

/// Appends what stands before a further item, where the line has so many. Without memory some of it may have been
/// appended.
fn append_lead(
    alloc: Global,
    out: &mut Vec<u8>,
    column_block: u32,
    row_block: u32,
    items: u32,
) -> Result<(), NoMemory>
    ensures ok { OnOk result (out.new.items ≡ out.old.items ++ item_lead (link_head column_block row_block) items) }
    ensures kept { GoesOnFrom out.old.items out.new.items }
{
    if items == MOST_ITEMS {
        out.push(b'\n')?;
        append_head(alloc, out, column_block, row_block)?;
        return Ok(());
    }
    out.push(b',')?;
    Ok(())
}

/// Appends an item. Without memory some of it may have been appended.
fn append_item(alloc: Global, out: &mut Vec<u8>, entry: MatrixEntry) -> Result<(), NoMemory>
    ensures ok { OnOk result (out.new.items ≡ out.old.items ++ item_text (entry_of entry)) }
    ensures kept { GoesOnFrom out.old.items out.new.items }
{
    write_decimal(alloc, out, u64::from(entry.row))?;
    out.push(b':')?;
    write_decimal(alloc, out, u64::from(entry.column))?;
    out.push(b':')?;
    write_decimal(alloc, out, entry.weight)?;
    Ok(())
}

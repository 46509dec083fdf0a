ghost use Rattle.std.specs.Prelude.{◌≡◌, ◌≤◌, ◌++◌, ◌∷◌, decimal, OnOk};
ghost use Rattle.peg_text.specs.Lists.{GoesOnFrom};
ghost use Rattle.gimv_base.specs.Lines.{with_lf};
ghost use Rattle.gimv_base.specs.Standings.{fresh};
ghost use Rattle.gimv_block.specs.BlockLines.{block_key, cut_text};
ghost use Rattle.gimv_block.specs.BlockRules.{cut_rule};

use crate::blocks::Blocks;
use crate::records::{MatrixEntry, read_matrix};
use gimv_base::{Role, RoleFault};
use peg_text::{NoMemory, write_decimal};
use std::alloc::Global;

/// `cut`: each entry of a matrix, by the blocks of its column and its row.
#[derive(Drop)]
pub struct CutRole {
    blocks: Blocks,
}

impl CutRole {
    /// The role before its first record. A block has this many nodes.
    pub fn new(block: u32) -> CutRole
        requires { 1 ≤ block }
        ensures { ⟦<CutRole as Role>⟧.standing result ≡ fresh (cut_rule block) }
    {
        CutRole {
            blocks: Blocks::of_ids(block),
        }
    }
}

impl Role for CutRole {
    ghost standing = { λ s. fresh (cut_rule s.blocks.len) };

    fn line(&mut self, alloc: Global, text: &[u8], out: &mut Vec<u8>) -> Result<(), RoleFault> {
        let Some(entry) = read_matrix(text) else {
            return Err(RoleFault::Bad);
        };
        let before = out.len();
        match append_cut(alloc, out, self.blocks, entry) {
            Ok(()) => Ok(()),
            Err(_) => {
                out.truncate(before);
                Err(RoleFault::NoMemory)
            }
        }
    }

    fn end(&mut self, _: Global, _: &mut Vec<u8>) -> Result<(), RoleFault> {
        Ok(())
    }
}

/// Appends an entry by its blocks. Without memory some of it may have been appended.
fn append_cut(
    alloc: Global,
    out: &mut Vec<u8>,
    blocks: Blocks,
    entry: MatrixEntry,
) -> Result<(), NoMemory>
    ensures ok { OnOk result (out.new.items ≡ out.old.items ++ with_lf (cut_text blocks.len (record { row = entry.row; column = entry.column; weight = entry.weight }))) }
    ensures kept { GoesOnFrom out.old.items out.new.items }
{
    append_block_key(
        alloc,
        out,
        blocks.block_of(entry.column),
        blocks.block_of(entry.row),
    )?;
    out.push(b'\t')?;
    append_fields(
        alloc,
        out,
        blocks.offset_of(entry.row),
        blocks.offset_of(entry.column),
        entry.weight,
    )?;
    out.push(b'\n')?;
    Ok(())
}

/// Appends the key of a column's and a row's block. Without memory some of it may have been appended.
fn append_block_key(
    alloc: Global,
    out: &mut Vec<u8>,
    column_block: u32,
    row_block: u32,
) -> Result<(), NoMemory>
    ensures ok { OnOk result (out.new.items ≡ out.old.items ++ block_key column_block row_block) }
    ensures kept { GoesOnFrom out.old.items out.new.items }
{
    write_decimal(alloc, out, u64::from(column_block))?;
    out.push(b'.')?;
    write_decimal(alloc, out, u64::from(row_block))?;
    Ok(())
}

/// Appends the fields of an entry. Without memory some of it may have been appended.
fn append_fields(
    alloc: Global,
    out: &mut Vec<u8>,
    row: u32,
    column: u32,
    weight: u64,
) -> Result<(), NoMemory>
    ensures ok { OnOk result (out.new.items ≡ out.old.items ++ (decimal row ++ (32 ∷ (decimal column ++ (32 ∷ decimal weight))))) }
    ensures kept { GoesOnFrom out.old.items out.new.items }
{
    write_decimal(alloc, out, u64::from(row))?;
    out.push(b' ')?;
    write_decimal(alloc, out, u64::from(column))?;
    out.push(b' ')?;
    write_decimal(alloc, out, weight)?;
    Ok(())
}

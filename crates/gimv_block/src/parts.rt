ghost use Rattle.std.specs.Prelude.{◌≡◌, ◌++◌, ◌∷◌, ◌<◌, ◌^◌, [], true, None, Some, if◌then◌else◌, fold, length, map, option_map, replicate, IfSome, OnOk};
ghost use Rattle.std.specs.List.{join_with_byte, list_all};
ghost use Rattle.peg_text.specs.Lists.{GoesOnFrom};
ghost use Rattle.gimv_core.specs.Algebras.{FitsMsg};
ghost use Rattle.gimv_base.specs.Lines.{with_lf};
ghost use Rattle.gimv_block.specs.BlockLines.{part_text, parts_text};
ghost use Rattle.gimv_block.specs.BlockRecords.{item_of, part_of};
ghost use Rattle.gimv_block.specs.Items.{items_of};
ghost use Rattle.gimv_block.specs.Rows.{RowsFit, parts_in, take_in, with_one};

use crate::records::{next_item, next_part};
use gimv_core::Gimv;
use peg_text::{NoMemory, write_decimal};
use std::alloc::Global;

/// Makes so many rows of the list, with nothing put together for any of them yet. Without memory they may be fewer.
pub fn clear_rows<T: Drop>(rows: &mut Vec<Option<T>>, size: u32) -> Result<(), NoMemory>
    ensures { OnOk result (rows.new.items ≡ replicate size None) }
{
    rows.clear();
    for _ in 0..size {
        rows.push(None)?;
    }
    Ok(())
}

/// Puts what each item of a text passes on together with what the row at its offset has. `None` where a text is of
/// another kind, and then some rows may have been changed.
pub fn take_items<G: Gimv>(
    algorithm: &G,
    vals: &Vec<G::Val>,
    items: &[u8],
    rows: &mut Vec<Option<G::Msg>>,
) -> Option<()>
    requires vals_fit { list_all (G.algebra algorithm.now).fits_val vals.now.items ≡ true }
    requires rows_fit { RowsFit (G.algebra algorithm.now) rows.old.items }
    requires few { length rows.old.items < 2 ^ 32 }
    ensures is { option_map (λ _. rows.new.items) result ≡ option_map (fold (take_in (G.algebra algorithm.now)) rows.old.items) (items_of (item_of (G.algebra algorithm.now) vals.now.items (length rows.old.items)) items.now) }
    ensures rows_fit { RowsFit (G.algebra algorithm.now) rows.new.items }
    ensures as_many { length rows.new.items ≡ length rows.old.items }
{
    let size = rows.len() as u32;
    let mut left = Some(items);
    while let Some(text) = left {
        let ((row, message), rest) = next_item(algorithm, vals, size, text)?;
        put(algorithm, &mut rows[row as usize], message);
        left = rest;
    }
    Some(())
}

/// Puts each part of a text together with what the row at its offset has. `None` where a text is of another kind, and then
/// some rows may have been changed.
pub fn take_parts<G: Gimv>(
    algorithm: &G,
    parts: &[u8],
    rows: &mut Vec<Option<G::Msg>>,
) -> Option<()>
    requires rows_fit { RowsFit (G.algebra algorithm.now) rows.old.items }
    requires few { length rows.old.items < 2 ^ 32 }
    ensures is { option_map (λ _. rows.new.items) result ≡ option_map (fold (take_in (G.algebra algorithm.now)) rows.old.items) (items_of (part_of (G.algebra algorithm.now) (length rows.old.items)) parts.now) }
    ensures rows_fit { RowsFit (G.algebra algorithm.now) rows.new.items }
    ensures as_many { length rows.new.items ≡ length rows.old.items }
{
    let size = rows.len() as u32;
    let mut left = Some(parts);
    while let Some(text) = left {
        let ((row, message), rest) = next_part(algorithm, size, text)?;
        put(algorithm, &mut rows[row as usize], message);
        left = rest;
    }
    Some(())
}

/// Puts one more message together with what a row has.
pub fn put<G: Gimv>(algorithm: &G, row: &mut Option<G::Msg>, message: G::Msg)
    requires row_fits { IfSome row.old (FitsMsg (G.algebra algorithm.now)) }
    requires message_fits { FitsMsg (G.algebra algorithm.now) message }
    ensures { row.new ≡ Some (with_one (G.algebra algorithm.now) row.old message) }
{
    match row {
        Some(all) => algorithm.combine(all, &message),
        None => *row = Some(message),
    }
}

/// Appends what is put together for the rows of a block, as a line to that block. Without memory some of it may have been
/// appended.
pub fn append_parts<G: Gimv>(
    alloc: Global,
    out: &mut Vec<u8>,
    algorithm: &G,
    block: u32,
    rows: &Vec<Option<G::Msg>>,
) -> Result<(), NoMemory>
    requires fit { RowsFit (G.algebra algorithm.now) rows.now.items }
    requires few { length rows.now.items < 2 ^ 32 }
    ensures ok { OnOk result (out.new.items ≡ out.old.items ++ with_lf (parts_text (G.algebra algorithm.now) block (parts_in rows.now.items))) }
    ensures kept { GoesOnFrom out.old.items out.new.items }
{
    write_decimal(alloc, out, u64::from(block))?;
    out.extend_from_slice(b"\tY ")?;
    append_rows(alloc, out, algorithm, rows)?;
    out.push(b'\n')?;
    Ok(())
}

/// Appends the parts of a list of rows, with a comma between each two. Without memory some of it may have been appended.
fn append_rows<G: Gimv>(
    alloc: Global,
    out: &mut Vec<u8>,
    algorithm: &G,
    rows: &Vec<Option<G::Msg>>,
) -> Result<(), NoMemory>
    requires fit { RowsFit (G.algebra algorithm.now) rows.now.items }
    requires few { length rows.now.items < 2 ^ 32 }
    ensures ok { OnOk result (out.new.items ≡ out.old.items ++ join_with_byte 44 (map (part_text (G.algebra algorithm.now)) (parts_in rows.now.items))) }
    ensures kept { GoesOnFrom out.old.items out.new.items }
{
    let mut first = true;
    for row in 0..rows.len() {
        if let Some(message) = &rows[row] {
            append_part(alloc, out, algorithm, first, row as u32, message)?;
            first = false;
        }
    }
    Ok(())
}

/// Appends a part, behind a comma where it isn't the first one. Without memory some of it may have been appended.
fn append_part<G: Gimv>(
    alloc: Global,
    out: &mut Vec<u8>,
    algorithm: &G,
    first: bool,
    row: u32,
    message: &G::Msg,
) -> Result<(), NoMemory>
    requires { FitsMsg (G.algebra algorithm.now) message.now }
    ensures ok { OnOk result (out.new.items ≡ out.old.items ++ ((if first then [] else 44 ∷ []) ++ part_text (G.algebra algorithm.now) (row, message.now))) }
    ensures kept { GoesOnFrom out.old.items out.new.items }
{
    if !first {
        out.push(b',')?;
    }
    write_decimal(alloc, out, u64::from(row))?;
    out.push(b':')?;
    algorithm.write_msg(alloc, out, message)?;
    Ok(())
}

ghost use Rattle.std.specs.Prelude.{◌≡◌, ◌<◌, ◌≤◌, ◌^◌, true, Some, length, option_map, option_and_then, position, IfOk, IfSome};
ghost use Rattle.gimv_base.specs.Fields.{around_blank, parts_at};
ghost use Rattle.std.specs.List.{list_all};
ghost use Rattle.gimv_core.specs.Algebras.{FitsMsg};
ghost use Rattle.gimv_block.specs.Blocks.{block_count, block_size};
ghost use Rattle.gimv_block.specs.Items.{from_first, items_of};
ghost use Rattle.gimv_block.specs.MatrixEntries.{entry_of};
ghost use Rattle.gimv_block.specs.Numbers.{with_number};
ghost use Rattle.gimv_block.specs.BlockRecords.{any_tagged, block_pair_of, block_record_of, is_dot, cut_record_of, item_of, link_record_of, matrix_record_of, part_of, seat_record_of, weight_number_of};

use crate::blocks::Blocks;
use crate::items::{around_colon, first_item, read_vals};
use crate::numbers::number_before;
use gimv_base::{after_tag, around_blank, read_below, value_text};
use gimv_core::Gimv;
use peg_text::{NoMemory, read_decimal, split_pair};
use std::alloc::Global;

/// One more than the greatest id and the greatest block.
const IDS: u64 = 1 << 32;

/// A block and the values of its nodes. `None` where the record is of another kind.
pub fn read_block<G: Gimv>(
    alloc: Global,
    algorithm: &G,
    blocks: Blocks,
    line: &[u8],
) -> Result<Option<(u32, Vec<G::Val>)>, NoMemory>
    ensures is { IfOk result (λ found. option_map (λ block. (block.0, block.1.items)) found ≡ block_record_of (G.algebra algorithm.now) blocks.len blocks.nodes line.now) }
    ensures long { IfOk result (λ found. IfSome found (λ block. length block.1.items ≡ block_size blocks.len blocks.nodes block.0)) }
    ensures few { IfOk result (λ found. IfSome found (λ block. length block.1.items < 2 ^ 32)) }
{
    let (key, value) = split_pair(line);
    let Some(block) = read_below(key, u64::from(blocks.count())) else {
        return Ok(None);
    };
    let Some(text) = value_text(value) else {
        return Ok(None);
    };
    match read_vals(alloc, algorithm, text)? {
        Some(vals) if vals.len() == blocks.size(block) as usize => Ok(Some((block, vals))),
        _ => Ok(None),
    }
}

/// Any tag, and what follows it and a blank. `None` where a text doesn't begin so.
fn any_tag(text: &[u8]) -> Option<(u8, &[u8])>
    ensures { option_map (λ parts. (parts.0, parts.1.now)) result ≡ any_tagged text.now }
{
    match text {
        [tag, b' ', rest @ ..] => Some((*tag, rest)),
        _ => None,
    }
}

/// The number below `bound`, which is at most 2^32, before the first blank, and what stands behind it. `None` where the text
/// is of another kind.
fn first_number(text: &[u8], bound: u64) -> Option<(u32, &[u8])>
    requires { bound ≤ 2 ^ 32 }
    ensures { option_map (λ found. (found.0, found.1.now)) result ≡ option_and_then (with_number bound) (around_blank text.now) }
{
    if let Some((number, rest)) = number_before(text, b' ') {
        if number < bound {
            return Some((number as u32, rest));
        }
    }
    let (number, rest) = around_blank(text)?;
    Some((read_below(number, bound)?, rest))
}

/// The row's block of a line of items of a column's block, and the text of the items. `None` where the record is of
/// another kind.
pub fn read_link(line: &[u8], blocks: Blocks, column_block: u32) -> Option<(u32, &[u8])>
    ensures { option_map (λ link. (link.0, link.1.now)) result ≡ link_record_of (block_count blocks.len blocks.nodes) column_block line.now }
{
    let (_, value) = split_pair(line);
    let (tag, rest) = any_tag(value)?;
    let (row_block, items) = first_number(rest, u64::from(blocks.count()))?;
    let wanted = if row_block == column_block {
        b'W'
    } else {
        b'X'
    };
    if tag != wanted {
        return None;
    }
    Some((row_block, items))
}

/// What an item passes on of the values of its column's block, and the offset of its row. `None` where the text is of
/// another kind.
fn read_item<G: Gimv>(
    algorithm: &G,
    vals: &Vec<G::Val>,
    rows: u32,
    text: &[u8],
) -> Option<(u32, G::Msg)>
    requires { list_all (G.algebra algorithm.now).fits_val vals.now.items ≡ true }
    ensures is { result ≡ item_of (G.algebra algorithm.now) vals.now.items rows text.now }
    ensures below { IfSome result (λ item. item.0 < rows) }
    ensures fits { IfSome result (λ item. FitsMsg (G.algebra algorithm.now) item.1) }
{
    let (row, rest) = around_colon(text)?;
    let (column, weight) = around_colon(rest)?;
    let row = read_below(row, u64::from(rows))?;
    let val = vals.get(read_decimal(column)? as usize)?;
    let weight = algorithm.read_weight(weight)?;
    Some((row, algorithm.combine2(&weight, val)))
}

/// The first item of a text, as `read_item` gives it, and what stands behind its comma, if it has one. `None` where the
/// item is of another kind.
pub fn next_item<'a, G: Gimv>(
    algorithm: &G,
    vals: &Vec<G::Val>,
    rows: u32,
    text: &'a [u8],
) -> Option<((u32, G::Msg), Option<&'a [u8]>)>
    requires { list_all (G.algebra algorithm.now).fits_val vals.now.items ≡ true }
    ensures is { items_of (item_of (G.algebra algorithm.now) vals.now.items rows) text.now ≡ from_first (item_of (G.algebra algorithm.now) vals.now.items rows) (option_map (λ found. (found.0, option_map (λ rest. rest.now) found.1)) result) }
    ensures below { IfSome result (λ found. found.0.0 < rows) }
    ensures fits { IfSome result (λ found. FitsMsg (G.algebra algorithm.now) found.0.1) }
    ensures shorter { IfSome result (λ found. IfSome found.1 (λ rest. length rest.now < length text.now)) }
{
    if let Some(found) = quick_item(algorithm, vals, rows, text) {
        return Some(found);
    }
    let (item, rest) = first_item(text);
    Some((read_item(algorithm, vals, rows, item)?, rest))
}

/// The same in one pass, for an item whose offsets have no more than 19 digits. `None` also at other texts.
fn quick_item<'a, G: Gimv>(
    algorithm: &G,
    vals: &Vec<G::Val>,
    rows: u32,
    text: &'a [u8],
) -> Option<((u32, G::Msg), Option<&'a [u8]>)>
    requires { list_all (G.algebra algorithm.now).fits_val vals.now.items ≡ true }
    ensures is { IfSome result (λ found. items_of (item_of (G.algebra algorithm.now) vals.now.items rows) text.now ≡ from_first (item_of (G.algebra algorithm.now) vals.now.items rows) (Some (found.0, option_map (λ rest. rest.now) found.1))) }
    ensures below { IfSome result (λ found. found.0.0 < rows) }
    ensures fits { IfSome result (λ found. FitsMsg (G.algebra algorithm.now) found.0.1) }
    ensures shorter { IfSome result (λ found. IfSome found.1 (λ rest. length rest.now < length text.now)) }
{
    let (row, fields) = number_before(text, b':')?;
    if row >= u64::from(rows) {
        return None;
    }
    let (column, last) = number_before(fields, b':')?;
    let val = vals.get(column as usize)?;
    let (weight, rest) = first_item(last);
    let weight = algorithm.read_weight(weight)?;
    Some(((row as u32, algorithm.combine2(&weight, val)), rest))
}

/// A part: the offset of its row, and a message to it. `None` where the text is of another kind.
fn read_part<G: Gimv>(algorithm: &G, rows: u32, text: &[u8]) -> Option<(u32, G::Msg)>
    ensures is { result ≡ part_of (G.algebra algorithm.now) rows text.now }
    ensures below { IfSome result (λ part. part.0 < rows) }
    ensures fits { IfSome result (λ part. FitsMsg (G.algebra algorithm.now) part.1) }
{
    let (row, message) = around_colon(text)?;
    let row = read_below(row, u64::from(rows))?;
    Some((row, algorithm.read_msg(message)?))
}

/// The first part of a text, as `read_part` gives it, and what stands behind its comma, if it has one. `None` where the
/// part is of another kind.
pub fn next_part<'a, G: Gimv>(
    algorithm: &G,
    rows: u32,
    text: &'a [u8],
) -> Option<((u32, G::Msg), Option<&'a [u8]>)>
    ensures is { items_of (part_of (G.algebra algorithm.now) rows) text.now ≡ from_first (part_of (G.algebra algorithm.now) rows) (option_map (λ found. (found.0, option_map (λ rest. rest.now) found.1)) result) }
    ensures below { IfSome result (λ found. found.0.0 < rows) }
    ensures fits { IfSome result (λ found. FitsMsg (G.algebra algorithm.now) found.0.1) }
    ensures shorter { IfSome result (λ found. IfSome found.1 (λ rest. length rest.now < length text.now)) }
{
    if let Some(found) = quick_part(algorithm, rows, text) {
        return Some(found);
    }
    let (part, rest) = first_item(text);
    Some((read_part(algorithm, rows, part)?, rest))
}

/// The same in one pass, for a part whose offset has no more than 19 digits. `None` also at other texts.
fn quick_part<'a, G: Gimv>(
    algorithm: &G,
    rows: u32,
    text: &'a [u8],
) -> Option<((u32, G::Msg), Option<&'a [u8]>)>
    ensures is { IfSome result (λ found. items_of (part_of (G.algebra algorithm.now) rows) text.now ≡ from_first (part_of (G.algebra algorithm.now) rows) (Some (found.0, option_map (λ rest. rest.now) found.1))) }
    ensures below { IfSome result (λ found. found.0.0 < rows) }
    ensures fits { IfSome result (λ found. FitsMsg (G.algebra algorithm.now) found.0.1) }
    ensures shorter { IfSome result (λ found. IfSome found.1 (λ rest. length rest.now < length text.now)) }
{
    let (row, last) = number_before(text, b':')?;
    if row >= u64::from(rows) {
        return None;
    }
    let (message, rest) = first_item(last);
    Some(((row as u32, algorithm.read_msg(message)?), rest))
}

/// An entry of a matrix.
#[derive(Clone, Copy, Debug, PartialEq, Eq)]
pub struct MatrixEntry {
    pub row: u32,
    pub column: u32,
    /// At least 1.
    pub weight: u64,
}

/// A weight as a number: each algorithm's weight is written as a decimal of at least 1. `None` where the text is of
/// another kind.
fn read_weight_number(text: &[u8]) -> Option<u64>
    ensures { result ≡ weight_number_of text.now }
{
    match read_decimal(text) {
        Some(weight) if weight != 0 => Some(weight),
        _ => None,
    }
}

/// An entry of a matrix, by its column. `None` where the record is of another kind.
pub fn read_matrix(line: &[u8]) -> Option<MatrixEntry>
    ensures { option_map entry_of result ≡ matrix_record_of line.now }
{
    if let Some(entry) = quick_matrix(line) {
        return Some(entry);
    }
    let (key, value) = split_pair(line);
    let column = read_below(key, IDS)?;
    let (row, weight) = around_blank(after_tag(value, b'W')?)?;
    let row = read_below(row, IDS)?;
    let weight = read_weight_number(weight)?;
    Some(MatrixEntry {
        row,
        column,
        weight,
    })
}

/// The same in one pass, for ids of no more than 19 digits. `None` also at other records.
fn quick_matrix(line: &[u8]) -> Option<MatrixEntry>
    ensures { IfSome result (λ entry. Some (entry_of entry) ≡ matrix_record_of line.now) }
{
    let (column, value) = number_before(line, b'\t')?;
    let (row, weight) = number_before(after_tag(value, b'W')?, b' ')?;
    if column >= IDS || row >= IDS {
        return None;
    }
    let weight = read_weight_number(weight)?;
    Some(MatrixEntry {
        row: row as u32,
        column: column as u32,
        weight,
    })
}

/// The offset of a node in a block of this size, and the node, which is below `bound`. `None` where the record is of
/// another kind.
pub fn read_seat(line: &[u8], size: u32, bound: u32) -> Option<(u32, u32)>
    ensures is { result ≡ seat_record_of size bound line.now }
    ensures below { IfSome result (λ seat. seat.0 < size) }
{
    let (_, value) = split_pair(line);
    let (offset, node) = around_blank(after_tag(value, b'P')?)?;
    let offset = read_below(offset, u64::from(size))?;
    let node = read_below(node, u64::from(bound))?;
    Some((offset, node))
}

/// The blocks of a column and of a row, with a dot between them. `None` where the text is of another kind.
pub fn read_block_pair(key: &[u8]) -> Option<(u32, u32)>
    ensures { result ≡ block_pair_of key.now }
{
    let (column_block, row_block) = around_dot(key)?;
    let column_block = read_below(column_block, IDS)?;
    let row_block = read_below(row_block, IDS)?;
    Some((column_block, row_block))
}

/// The texts before and after the first dot. `None` where there is no dot.
fn around_dot(text: &[u8]) -> Option<(&[u8], &[u8])>
    ensures { option_map (λ parts. (parts.0.now, parts.1.now)) result ≡ option_map (parts_at text.now) (position is_dot text.now) }
{
    match first_dot(text) {
        Some(at) => Some((&text[..at], &text[at + 1..])),
        None => None,
    }
}

/// Where the first dot stands.
fn first_dot(text: &[u8]) -> Option<usize>
    ensures is { result ≡ position is_dot text.now }
    ensures inside { IfSome result (λ at. at < length text.now) }
{
    text.iter().position(|byte| *byte == b'.')
}

/// An entry between two blocks, by its offsets there. `None` where the record is of another kind.
pub fn read_cut(line: &[u8]) -> Option<MatrixEntry>
    ensures { option_map entry_of result ≡ cut_record_of line.now }
{
    if let Some(entry) = quick_cut(line) {
        return Some(entry);
    }
    let (_, value) = split_pair(line);
    let (row, rest) = around_blank(value)?;
    let (column, weight) = around_blank(rest)?;
    let row = read_below(row, IDS)?;
    let column = read_below(column, IDS)?;
    let weight = read_weight_number(weight)?;
    Some(MatrixEntry {
        row,
        column,
        weight,
    })
}

/// The same in one pass, for offsets of no more than 19 digits. `None` also at other records.
fn quick_cut(line: &[u8]) -> Option<MatrixEntry>
    ensures { IfSome result (λ entry. Some (entry_of entry) ≡ cut_record_of line.now) }
{
    let (_, value) = split_pair(line);
    let (row, rest) = number_before(value, b' ')?;
    let (column, weight) = number_before(rest, b' ')?;
    if column >= IDS || row >= IDS {
        return None;
    }
    let weight = read_weight_number(weight)?;
    Some(MatrixEntry {
        row: row as u32,
        column: column as u32,
        weight,
    })
}

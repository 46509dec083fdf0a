ghost use Rattle.std.specs.Prelude.{◌≡◌, ◌≤◌, ◌^◌, length, IfOk, IfSome, None, true, option_map, option_and_then};
ghost use Rattle.std.specs.Char.{is_ascii_digit};
ghost use Rattle.std.specs.List.{list_all};
ghost use Rattle.std.specs.Option.{is_some};
ghost use Rattle.peg_text.specs.Pairs.{key_of, value_of};
ghost use Rattle.gimv_base.specs.EdgeTexts.{edge_texts};
ghost use Rattle.gimv_base.specs.Fields.{number_below, tagged};
ghost use Rattle.gimv_base.specs.Records.{edge_record_of, entry_record_of, message_record_of, node_record_of, number_record_of, place_record_of, value_record_of, value_text_of};

use crate::fields::{
    IDS, after_tag, around_blank, is_id, is_id_text, leading_digits, read_below,
    without_leading_zeros,
};
use gimv_core::Gimv;
use graph::Edge;
use peg_text::{NoMemory, read_decimal, split_pair};
use std::alloc::Global;

/// One more than the number of nodes whose values may have changed.
const CHANGES: u64 = 257;

/// An edge, from its source, TAB and its target. `None` where the record is of another kind.
pub fn read_edge(line: &[u8]) -> Option<Edge>
    ensures { result ≡ edge_record_of line.now }
{
    let (key, value) = split_pair(line);
    let source = read_below(key, IDS)?;
    let target = read_below(value, IDS)?;
    Some(Edge { source, target })
}

/// How an edge's source and target are written. `None` where the record is of another kind.
pub fn edge_texts(line: &[u8]) -> Option<(&[u8], &[u8])>
    ensures is { option_map (λ texts. (texts.0.now, texts.1.now)) result ≡ option_map edge_texts (edge_record_of line.now) }
    ensures short { IfSome result (λ texts. (length texts.0.now ≤ 20) × (length texts.1.now ≤ 20)) }
{
    let (source, target) = id_fields(line)?;
    Some((without_leading_zeros(source), without_leading_zeros(target)))
}

/// The source and the target of an edge, as the record has them. `None` where the record is of another kind.
fn id_fields(line: &[u8]) -> Option<(&[u8], &[u8])>
    ensures some { IfSome result (λ fields. (fields.0.now ≡ key_of line.now) × (fields.1.now ≡ value_of line.now)) }
    ensures is { is_some result ≡ is_some (edge_record_of line.now) }
{
    let (source, target) = split_digits(line)?;
    if !is_id(source) || !is_id_text(target) {
        return None;
    }
    Some((source, target))
}

/// The key and the value of a pair whose key is digits: one pass over the key finds both them and its TAB. `None` where
/// the record isn't such a pair, and so no edge.
fn split_digits(line: &[u8]) -> Option<(&[u8], &[u8])>
    ensures some { IfSome result (λ pair. (pair.0.now ≡ key_of line.now) × (pair.1.now ≡ value_of line.now)) }
    ensures digits { IfSome result (λ pair. list_all is_ascii_digit pair.0.now ≡ true) }
    ensures none { result ≡ None → edge_record_of line.now ≡ None }
{
    let end = leading_digits(line);
    if end < line.len() && line[end] == b'\t' {
        return Some((&line[..end], &line[end + 1..]));
    }
    None
}

/// The id that a text writes after the tag P, where it is below `bound`, which is at most 2^32.
fn read_placed(value: &[u8], bound: u64) -> Option<u32>
    requires { bound ≤ 2 ^ 32 }
    ensures { result ≡ option_and_then (number_below bound) (tagged 80 value.now) }
{
    read_below(after_tag(value, b'P')?, bound)
}

/// A place and the id there. `None` where the record is of another kind.
pub fn read_place(line: &[u8]) -> Option<(u32, u32)>
    ensures { result ≡ place_record_of line.now }
{
    let (key, value) = split_pair(line);
    let place = read_below(key, IDS)?;
    let id = read_placed(value, IDS)?;
    Some((place, id))
}

/// A place and the node there, both below `nodes`. `None` where the record is of another kind.
pub fn read_node(line: &[u8], nodes: u32) -> Option<(u32, u32)>
    ensures { result ≡ node_record_of nodes line.now }
{
    let (key, value) = split_pair(line);
    let place = read_below(key, u64::from(nodes))?;
    let node = read_placed(value, u64::from(nodes))?;
    Some((place, node))
}

/// The number of a place. `None` where the record is of another kind.
pub fn read_number(line: &[u8]) -> Option<u64>
    ensures { result ≡ number_record_of line.now }
{
    let (_, value) = split_pair(line);
    read_decimal(after_tag(value, b'Q')?)
}

/// The text of a value, behind how many of its nodes changed. `None` where the text is of another kind.
pub fn value_text(value: &[u8]) -> Option<&[u8]>
    ensures { option_map (λ text. text.now) result ≡ value_text_of value.now }
{
    let (changed, text) = around_blank(after_tag(value, b'V')?)?;
    read_below(changed, CHANGES)?;
    Some(text)
}

/// A node below `nodes` and its value. `None` where the record is of another kind.
pub fn read_value<G: Gimv>(
    alloc: Global,
    algorithm: &G,
    nodes: u32,
    line: &[u8],
) -> Result<Option<(u32, G::Val)>, NoMemory>
    ensures { IfOk result (λ found. found ≡ value_record_of (G.algebra algorithm.now) nodes line.now) }
{
    let (key, value) = split_pair(line);
    let Some(node) = read_below(key, u64::from(nodes)) else {
        return Ok(None);
    };
    let Some(text) = value_text(value) else {
        return Ok(None);
    };
    match algorithm.read_val(alloc, text)? {
        Some(val) => Ok(Some((node, val))),
        None => Ok(None),
    }
}

/// An entry of a column: its row, below `nodes`, and its weight. `None` where the record is of another kind.
pub fn read_entry<G: Gimv>(algorithm: &G, nodes: u32, line: &[u8]) -> Option<(u32, G::Weight)>
    ensures { result ≡ entry_record_of (G.algebra algorithm.now) nodes line.now }
{
    let (_, value) = split_pair(line);
    let (row, weight) = around_blank(after_tag(value, b'W')?)?;
    let row = read_below(row, u64::from(nodes))?;
    let weight = algorithm.read_weight(weight)?;
    Some((row, weight))
}

/// A message. `None` where the record is of another kind.
pub fn read_message<G: Gimv>(algorithm: &G, line: &[u8]) -> Option<G::Msg>
    ensures { result ≡ message_record_of (G.algebra algorithm.now) line.now }
{
    let (_, value) = split_pair(line);
    algorithm.read_msg(after_tag(value, b'Y')?)
}

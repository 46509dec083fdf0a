ghost use Rattle.std.specs.Prelude.{◌≡◌, ◌+◌, ◌≤◌, ◌*◌, ◌++◌, length, take, if◌then◌else◌, OnOk, OnErr};
ghost use Rattle.gimv_base.specs.BaseRules.{entries_rule};
ghost use Rattle.gimv_base.specs.EdgeTexts.{unit_entries, unit_entry};
ghost use Rattle.gimv_base.specs.Standings.{fresh};

use crate::records::edge_texts;
use crate::role::{Role, RoleFault};
use peg_text::NoMemory;
use std::alloc::Global;

/// How many bytes of an entry of weight 1 are neither its column nor its row: TAB, W, a blank, a blank, 1 and LF.
const MARKS: usize = 6;

/// The most digits of a node.
const MOST_DIGITS: usize = 20;

/// The most bytes of both entries of an edge.
const MOST_BYTES: usize = 2 * (2 * MOST_DIGITS + MARKS);

/// `entries one` and `entries both`: the entry of each edge, by its column, and that of the edge turned round.
#[derive(Clone, Copy, Debug, PartialEq, Eq)]
pub struct EntriesRole {
    both: bool,
}

impl EntriesRole {
    /// The role before its first record.
    pub fn new(both: bool) -> EntriesRole
        ensures { ⟦<EntriesRole as Role>⟧.standing result ≡ fresh (entries_rule both) }
    {
        EntriesRole { both }
    }
}

impl Role for EntriesRole {
    ghost standing = { λ s. fresh (entries_rule s.both) };

    fn line(&mut self, _: Global, text: &[u8], out: &mut Vec<u8>) -> Result<(), RoleFault> {
        let both = self.both;
        let Some((source, target)) = edge_texts(text) else {
            return Err(RoleFault::Bad);
        };
        append_entries(out, source, target, both)?;
        Ok(())
    }

    fn end(&mut self, _: Global, _: &mut Vec<u8>) -> Result<(), RoleFault> {
        Ok(())
    }
}

/// Appends the entries of an edge, from the texts of its source and its target. Without memory `out` is as before.
fn append_entries(
    out: &mut Vec<u8>,
    source: &[u8],
    target: &[u8],
    both: bool,
) -> Result<(), NoMemory>
    requires { (length source.now ≤ 20) × (length target.now ≤ 20) }
    ensures ok { OnOk result (out.new.items ≡ out.old.items ++ unit_entries both source.now target.now) }
    ensures err { OnErr result (out.new.items ≡ out.old.items) }
{
    let before = out.len();
    // Room of a constant size is made in a few moves, and what isn't needed of it goes again.
    out.extend_from_slice(&[0; MOST_BYTES])?;
    let end = write_unit_entries(out, before, source, target, both);
    out.truncate(end);
    Ok(())
}

/// Writes the entries of an edge behind the first `before` bytes, from the texts of its source and its target. Answers
/// where they end.
fn write_unit_entries(
    list: &mut [u8],
    before: usize,
    source: &[u8],
    target: &[u8],
    both: bool,
) -> usize
    requires short { (length source.now ≤ 20) × (length target.now ≤ 20) }
    requires room { before + 92 ≤ length list.old }
    ensures is { take result list.new ≡ take before list.old ++ unit_entries both source.now target.now }
    ensures same { length list.new ≡ length list.old }
{
    let size = source.len() + target.len() + MARKS;
    let (_, room) = list.split_at_mut(before);
    let (entry, rest) = room.split_at_mut(size);
    write_unit_entry(entry, target, source);
    if !both {
        return before + size;
    }
    let (turned, _) = rest.split_at_mut(size);
    write_unit_entry(turned, source, target);
    before + 2 * size
}

/// Fills the room with an entry of weight 1, by its column, from the texts of its column and its row.
fn write_unit_entry(room: &mut [u8], column: &[u8], row: &[u8])
    requires { length room.old ≡ length column.now + length row.now + 6 }
    ensures { room.new ≡ unit_entry column.now row.now }
{
    let tag = b"\tW ";
    let (for_column, rest) = room.split_at_mut(column.len());
    let (for_tag, rest) = rest.split_at_mut(tag.len());
    let (for_row, for_weight) = rest.split_at_mut(row.len());
    for_column.copy_from_slice(column);
    for_tag.copy_from_slice(tag);
    for_row.copy_from_slice(row);
    for_weight.copy_from_slice(b" 1\n");
}

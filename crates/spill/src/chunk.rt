ghost use Rattle.std.specs.Prelude.{◌≡◌, ◌++◌, ◌∷◌, [], All, length, IfOk, OnOk, OnErr};
ghost use Rattle.peg_text.specs.Pairs.{pair_line};
ghost use Rattle.pairs.specs.Pairs.{sorted_pairs};
ghost use Rattle.spill.specs.Lines.{AreEntries, IsEntry, pushed_entry, entry_pairs, lists_of, sorted_lists};

use crate::entry::{Entry, rank};
use peg_text::{NoMemory, write_pair};
use std::alloc::Global;

/// As many empty lists as there are parts, each with room for so many entries.
pub(crate) fn empty_parts(
    alloc: Global,
    reducers: u32,
    room: usize,
) -> Result<Vec<Vec<Entry>>, NoMemory>
    ensures none { IfOk result (λ parts. All (λ entries. entries.items ≡ []) parts.items) }
    ensures len { IfOk result (λ parts. length parts.items ≡ reducers) }
{
    let mut parts = Vec::new(alloc);
    for _part in 0..reducers {
        let empty: Vec<Entry> = Vec::with_capacity(alloc, room)?;
        parts.push(empty)?;
    }
    Ok(parts)
}

/// Appends a pair as a line to a text, and its entry to those of its part. Without memory, or where the text or the
/// line has 4 GiB or more, both are as before.
pub(crate) fn hold(
    alloc: Global,
    text: &mut Vec<u8>,
    entries: &mut Vec<Entry>,
    key: &[u8],
    value: &[u8],
) -> Result<(), NoMemory>
    ensures text { OnOk result (text.new.items ≡ text.old.items ++ pair_line key.now value.now) }
    ensures entry { OnOk result
        (entries.new.items ≡ entries.old.items ++ pushed_entry text.old.items (key.now, value.now) ∷ []) }
    ensures text_kept { OnErr result (text.new.items ≡ text.old.items) }
    ensures entries_kept { OnErr result (entries.new.items ≡ entries.old.items) }
{
    let size = key.len() + value.len() + 1;
    let (Ok(start), Ok(size)) = (u32::try_from(text.len()), u32::try_from(size)) else {
        return Err(NoMemory);
    };
    let before = entries.len();
    entries.push(Entry {
        rank: rank(key),
        start,
        size,
    })?;
    match write_pair(alloc, text, key, value) {
        Ok(()) => Ok(()),
        Err(fault) => {
            entries.truncate(before);
            Err(fault)
        }
    }
}

/// Sorts entries of a text by their pairs.
fn sort_entries(text: &[u8], entries: &mut Vec<Entry>)
    requires { All (IsEntry text.now) entries.old.items }
    ensures are { All (IsEntry text.now) entries.new.items }
    ensures sorted { entry_pairs text.now entries.new.items ≡ sorted_pairs (entry_pairs text.now entries.old.items) }
{
    entries.sort_unstable_by(|one, other| one.compare(other, text));
}

/// Sorts the entries of each part.
pub(crate) fn sort_parts(text: &[u8], parts: &mut [Vec<Entry>])
    requires { AreEntries text.now parts.old }
    ensures are { AreEntries text.now parts.new }
    ensures sorted { lists_of text.now parts.new ≡ sorted_lists text.now parts.old }
{
    for entries in parts.iter_mut() {
        sort_entries(text, entries);
    }
}

/// Takes all entries out of the parts, and keeps their room.
pub(crate) fn clear_parts(parts: &mut [Vec<Entry>])
    ensures none { All (λ entries. entries.items ≡ []) parts.new }
    ensures len { length parts.new ≡ length parts.old }
{
    for entries in parts.iter_mut() {
        entries.clear();
    }
}

ghost use Rattle.std.specs.Prelude.{◌≡◌, ◌++◌, OnOk};
ghost use Rattle.peg_text.specs.Pairs.{pair_line};
ghost use Rattle.pairs.specs.Prefixes.{prefix_of};
ghost use Rattle.spill.specs.Lines.{IsEntry, entry_cmp, pair_of_entry, line_of_entry, rank_of};

use peg_text::{NoMemory, split_pair};
use std::alloc::Global;
use std::cmp::Ordering;

/// A pair that lies in a chunk's text as a line: where the line stands, and the rank of its key.
#[derive(Clone, Copy)]
pub(crate) struct Entry {
    /// The first seven bytes of the key as a number, and in its lowest byte how many bytes the key has, eight at most.
    pub rank: u64,
    /// Where the line begins.
    pub start: u32,
    /// How many bytes it has, without its LF.
    pub size: u32,
}

impl Entry {
    /// Its line in the text, without the LF.
    fn line<'a>(&self, text: &'a [u8]) -> &'a [u8]
        ensures { result.now ≡ line_of_entry text.now self.now }
    {
        let rest = &text[text.len().min(self.start as usize)..];
        &rest[..rest.len().min(self.size as usize)]
    }

    /// Appends its line and the LF. Without memory `out` is as before.
    pub fn write(&self, _: Global, text: &[u8], out: &mut Vec<u8>) -> Result<(), NoMemory>
        requires { IsEntry text.now self.now }
        ensures { let pair = pair_of_entry text.now self.now in OnOk result
            (out.new.items ≡ out.old.items ++ pair_line pair.0 pair.1) }
    {
        let start = self.start as usize;
        out.extend_from_slice(&text[start..start + self.size as usize + 1])?;
        Ok(())
    }

    /// Which of the lines of two entries comes first: the ranks decide, and the lines where these are the same.
    pub fn compare(&self, other: &Entry, text: &[u8]) -> Ordering
        ensures { result ≡ entry_cmp text.now self.now other.now }
    {
        match self.rank.cmp(&other.rank) {
            Ordering::Equal if self.rank % 256 < 8 => self.line(text).cmp(other.line(text)),
            Ordering::Equal => split_pair(self.line(text)).cmp(&split_pair(other.line(text))),
            order => order,
        }
    }
}

/// The rank of a key: its first seven bytes as a number, and in the lowest byte how many bytes it has, eight at most.
pub(crate) fn rank(key: &[u8]) -> u64
    ensures { result ≡ rank_of key.now }
{
    front_of(key) / 256 * 256 + key.len().min(8) as u64
}

/// The first eight bytes of a text as a number, with zeros where it has fewer.
fn front_of(text: &[u8]) -> u64
    ensures { result ≡ prefix_of text.now }
{
    let mut number = 0;
    for at in 0..8 {
        number = number * 256 + u64::from(text.get(at).copied().unwrap_or(0));
    }
    number
}

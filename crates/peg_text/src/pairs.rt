ghost use Rattle.std.specs.Prelude.{◌≡◌, ◌++◌, OnOk, OnErr};
ghost use Rattle.peg_text.specs.Lists.{GoesOnFrom};
ghost use Rattle.peg_text.specs.Pairs.{key_of, value_of, pair_line};

use crate::memory::NoMemory;
use memchr::memchr;
use std::alloc::Global;

/// The key of a line, which stands before its first TAB, and the value, which is all that stands after it.
///
/// Without a TAB all is key, and the value is empty.
pub fn split_pair(line: &[u8]) -> (&[u8], &[u8])
    ensures key { result.0.now ≡ key_of line.now }
    ensures value { result.1.now ≡ value_of line.now }
{
    match memchr(b'\t', line) {
        Some(at) => (&line[..at], &line[at + 1..]),
        None => (line, &line[line.len()..]),
    }
}

/// Appends a pair as a line: key, TAB, value and LF.
///
/// Without memory `out` is as before.
pub fn write_pair(_: Global, out: &mut Vec<u8>, key: &[u8], value: &[u8]) -> Result<(), NoMemory>
    ensures ok { OnOk result (out.new.items ≡ out.old.items ++ pair_line key.now value.now) }
    ensures no_memory { OnErr result (out.new.items ≡ out.old.items) }
{
    let before = out.len();
    match append_pair(out, key, value) {
        Ok(()) => Ok(()),
        Err(fault) => {
            out.truncate(before);
            Err(fault)
        }
    }
}

/// Appends the parts of a pair one after another. Without memory some of them may have been appended.
fn append_pair(out: &mut Vec<u8>, key: &[u8], value: &[u8]) -> Result<(), NoMemory>
    ensures ok { OnOk result (out.new.items ≡ out.old.items ++ pair_line key.now value.now) }
    ensures kept { GoesOnFrom out.old.items out.new.items }
{
    out.extend_from_slice(key)?;
    out.push(b'\t')?;
    out.extend_from_slice(value)?;
    out.push(b'\n')?;
    Ok(())
}

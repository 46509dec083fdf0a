ghost use Rattle.std.specs.Prelude.{◌≡◌, map, IfOk};
ghost use Rattle.peg_text.specs.Records.{records_of};

use crate::memory::NoMemory;
use memchr::memchr;
use std::alloc::Global;

/// The pieces of the bytes between LFs, and what stands after the last LF unless that is nothing.
pub fn records(alloc: Global, bytes: &[u8]) -> Result<Vec<&[u8]>, NoMemory>
    ensures { IfOk result (λ found. map (λ record'. record'.now) found.items ≡ records_of bytes.now) }
{
    let mut found = Vec::new(alloc);
    let mut start = 0;
    while let Some(length) = memchr(b'\n', &bytes[start..]) {
        found.push(&bytes[start..start + length])?;
        start += length + 1;
    }
    if start < bytes.len() {
        found.push(&bytes[start..])?;
    }
    Ok(found)
}

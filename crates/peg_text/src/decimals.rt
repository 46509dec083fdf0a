ghost use Rattle.std.specs.Prelude.{◌≡◌, ◌++◌, decimal, OnOk, OnErr};
ghost use Rattle.peg_text.specs.Decimal.{decimal_of};

use crate::memory::NoMemory;
use itoa::Buffer;
use std::alloc::Global;

/// The most digits that a number may have, leading zeros included.
const MOST_DIGITS: usize = 20;

/// The most digits of which every number is below 2^64.
const SAFE_DIGITS: usize = 19;

/// The number that a decimal text writes.
///
/// `None` where the text is empty, has a byte that is no digit, has more than 20 bytes, or writes 2^64 or more.
/// Leading zeros are accepted.
pub fn read_decimal(text: &[u8]) -> Option<u64>
    ensures { result ≡ decimal_of text.now }
{
    if text.is_empty() || text.len() > MOST_DIGITS {
        return None;
    }
    let (safe, rest) = text.split_at(text.len().min(SAFE_DIGITS));
    let mut number: u64 = 0;
    for digit in safe {
        if !digit.is_ascii_digit() {
            return None;
        }
        number = number * 10 + u64::from(*digit - b'0');
    }
    let Some(last) = rest.first() else {
        return Some(number);
    };
    if !last.is_ascii_digit() {
        return None;
    }
    number.checked_mul(10)?.checked_add(u64::from(*last - b'0'))
}

/// Appends the decimal text of a number, without leading zeros.
///
/// Without memory `out` is as before.
pub fn write_decimal(_: Global, out: &mut Vec<u8>, number: u64) -> Result<(), NoMemory>
    ensures ok { OnOk result (out.new.items ≡ out.old.items ++ decimal number) }
    ensures no_memory { OnErr result (out.new.items ≡ out.old.items) }
{
    let mut buffer = Buffer::new();
    out.extend_from_slice(buffer.format(number).as_bytes())?;
    Ok(())
}

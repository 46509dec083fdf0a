ghost use Rattle.std.specs.Prelude.{◌≡◌, ◌≤◌, length, take};
ghost use Rattle.peg_text.specs.Pairs.{key_of};
ghost use Rattle.pairs.specs.Prefixes.{prefix_of};

use peg_text::split_pair;

/// How many bytes the key of a line has, and its prefix: the first eight bytes of the key as a number, the first one as
/// its highest byte, with zeros where the key has fewer.
///
/// Of two pairs whose keys have different prefixes, the one with the lesser prefix comes first.
pub fn measured_key(line: &[u8]) -> (usize, u64)
    ensures key { take result.0 line.now ≡ key_of line.now }
    ensures length { result.0 ≡ length (key_of line.now) }
    ensures inside { result.0 ≤ length line.now }
    ensures prefix { result.1 ≡ prefix_of (key_of line.now) }
{
    let mut length = 0;
    let mut number = 0;
    for at in 0..8 {
        let byte = line.get(at).copied().unwrap_or(b'\t');
        if length == at && byte != b'\t' {
            number = number * 256 + u64::from(byte);
            length += 1;
        } else {
            number *= 256;
        }
    }
    if length == 8 {
        length = split_pair(line).0.len();
    }
    (length, number)
}

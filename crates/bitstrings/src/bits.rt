ghost use Rattle.std.specs.Prelude.{◌≡◌, ◌<◌, length};
ghost use Rattle.bitstrings.specs.Radius.{radius};

use std::marker::Model;

/// What a node keeps: 32 bitstrings of 32 bits, and the sum of their first-zero places after each step so far.
///
/// Contracts see the list of the words and the list of the sums.
#[derive(Drop)]
pub struct Bits {
    /// The bitstrings.
    pub words: [u32; 32],
    /// The sums, of which the first is that before the first step. There are 257 at the most.
    pub sums: Vec<u16>,
}

impl Model for Bits {
    ghost use Rattle.bitstrings.specs.Bitstrings.{Bitstrings};

    ghost Value = { Bitstrings };

    ghost view = { λ bits. record { words = bits.words; sums = bits.sums.items } };
}

/// The first step after which the sum is within 4 of the last one.
pub fn radius(sums: &[u16]) -> u64
    requires { 0 < length sums.now }
    ensures { result ≡ radius sums.now }
{
    let last = sums[sums.len() - 1];
    let mut step: u64 = 0;
    for sum in sums {
        if last.saturating_sub(*sum) <= 4 {
            return step;
        }
        step += 1;
    }
    step
}

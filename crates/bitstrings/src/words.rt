ghost use Rattle.std.specs.Prelude.{◌≡◌, ◌<◌, ◌^◌};
ghost use Rattle.bitstrings.specs.Stream.{bit_of, first_words};
ghost use Rattle.bitstrings.specs.Words.{first_zero, or_words, places};

use rand_core::utils::NextWord;
use rand_pcg::Pcg32;

/// The stream of random words that bitstrings are drawn from.
const STREAM: u64 = 54;

/// The bitstrings of a node before the first step: each has one bit, by 32 words of the stream that no other node has.
pub fn first_words(seed: u64, node: u32) -> [u32; 32]
    ensures { result ≡ first_words seed node }
{
    let mut stream = Pcg32::new(seed, STREAM);
    stream.advance(32 * u64::from(node));
    let mut words = [0; 32];
    for l in 0..32 {
        words[l] = bit_of(stream.next_word());
    }
    words
}

/// The bit of a random word: that of its lowest one, and the last bit where there is none.
fn bit_of(word: u32) -> u32
    ensures { result ≡ bit_of word }
{
    1 << word.trailing_zeros().min(31)
}

/// Puts the bits of other words into these.
pub fn or_into(words: &mut [u32; 32], others: &[u32; 32])
    ensures { words.new ≡ or_words words.old others.now }
{
    for l in 0..32 {
        words[l] |= others[l];
    }
}

/// The sum of the words' first-zero places: of each the number of its lowest bit that is 0, and 32 where there is none.
pub fn places(words: &[u32; 32]) -> u16
    ensures { result ≡ places words.now }
{
    let mut sum: u16 = 0;
    for word in words {
        sum += word.trailing_ones() as u16;
    }
    sum
}

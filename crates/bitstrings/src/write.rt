ghost use Rattle.std.specs.Prelude.{◌≡◌, ◌+◌, ◌/◌, ◌%◌, ◌<◌, ◌^◌, ◌++◌, OnOk, OnErr};
ghost use Rattle.peg_text.specs.Lists.{GoesOnFrom};
ghost use Rattle.bitstrings.specs.Texts.{bitstrings_text, hex_digit, sum_text, sums_text, word_text, words_text};

use crate::bits::Bits;
use peg_text::{NoMemory, write_decimal};
use std::alloc::Global;

/// Appends the words in hexadecimal digits.
///
/// Without memory `out` is as before.
pub fn write_words(_: Global, out: &mut Vec<u8>, words: &[u32; 32]) -> Result<(), NoMemory>
    ensures ok { OnOk result (out.new.items ≡ out.old.items ++ words_text words.now) }
    ensures no_memory { OnErr result (out.new.items ≡ out.old.items) }
{
    let before = out.len();
    match append_words(out, words) {
        Ok(()) => Ok(()),
        Err(fault) => {
            out.truncate(before);
            Err(fault)
        }
    }
}

/// Appends the text of what a node keeps.
///
/// Without memory `out` is as before.
pub fn write_bits(alloc: Global, out: &mut Vec<u8>, bits: &Bits) -> Result<(), NoMemory>
    ensures ok { OnOk result (out.new.items ≡ out.old.items ++ bitstrings_text bits.now) }
    ensures no_memory { OnErr result (out.new.items ≡ out.old.items) }
{
    let before = out.len();
    match append_bits(alloc, out, &bits.words, &bits.sums) {
        Ok(()) => Ok(()),
        Err(fault) => {
            out.truncate(before);
            Err(fault)
        }
    }
}

/// Appends words and sums. Without memory some of them may have been appended.
fn append_bits(
    alloc: Global,
    out: &mut Vec<u8>,
    words: &[u32; 32],
    sums: &[u16],
) -> Result<(), NoMemory>
    ensures ok { OnOk result (out.new.items ≡ out.old.items ++ (words_text words.now ++ sums_text sums.now)) }
    ensures kept { GoesOnFrom out.old.items out.new.items }
{
    append_words(out, words)?;
    append_sums(alloc, out, sums)?;
    Ok(())
}

/// Appends the words one after another. Without memory some of them may have been appended.
fn append_words(out: &mut Vec<u8>, words: &[u32]) -> Result<(), NoMemory>
    ensures ok { OnOk result (out.new.items ≡ out.old.items ++ words_text words.now) }
    ensures kept { GoesOnFrom out.old.items out.new.items }
{
    for word in words {
        out.extend_from_slice(&word_digits(*word))?;
    }
    Ok(())
}

/// Appends the sums, each behind a colon. Without memory some of them may have been appended.
fn append_sums(alloc: Global, out: &mut Vec<u8>, sums: &[u16]) -> Result<(), NoMemory>
    ensures ok { OnOk result (out.new.items ≡ out.old.items ++ sums_text sums.now) }
    ensures kept { GoesOnFrom out.old.items out.new.items }
{
    for sum in sums {
        append_sum(alloc, out, *sum)?;
    }
    Ok(())
}

/// Appends a colon and a sum. Without memory the colon may have been appended.
fn append_sum(alloc: Global, out: &mut Vec<u8>, sum: u16) -> Result<(), NoMemory>
    ensures ok { OnOk result (out.new.items ≡ out.old.items ++ sum_text sum) }
    ensures kept { GoesOnFrom out.old.items out.new.items }
{
    out.push(b':')?;
    write_decimal(alloc, out, u64::from(sum))?;
    Ok(())
}

/// The eight digits of a word, the highest first.
fn word_digits(word: u32) -> [u8; 8]
    ensures { result ≡ word_text word }
{
    [
        hex_digit(word >> 28),
        hex_digit(word >> 24),
        hex_digit(word >> 20),
        hex_digit(word >> 16),
        hex_digit(word >> 12),
        hex_digit(word >> 8),
        hex_digit(word >> 4),
        hex_digit(word),
    ]
}

/// The lowest digit of a number, in lower case.
fn hex_digit(number: u32) -> u8
    ensures { result ≡ hex_digit (number % 16) }
{
    let digit = (number % 16) as u8;
    if digit < 10 {
        b'0' + digit
    } else {
        b'a' - 10 + digit
    }
}

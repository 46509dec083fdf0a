ghost use Rattle.std.specs.Prelude.{◌≤◌, IfOk, IfSome};
ghost use Rattle.std.specs.Vec.{vec_len};

use peg_text::NoMemory;
use std::alloc::Global;
use std::env::FillError;
use std::rt::Env;
use std::str;

/// The bytes of the first buffer for a word; most words fit.
const FIRST: usize = 4_096;

/// How often the buffer is doubled for a word that doesn't fit.
const DOUBLINGS: u32 = 18;

/// The words that a program was started with, its name left out.
#[derive(Drop)]
pub struct ProgramWords {
    /// The words, where U+FFFD stands for what isn't text in UTF-8.
    pub texts: Vec<String>,
    /// The numbers of the words that aren't text in UTF-8, from 0.
    pub not_texts: Vec<u32>,
}

/// The words that this program was started with, its name left out. A word of more than 2^30 bytes counts as want of memory;
/// no system hands one over.
pub fn program_words(rt: &impl Env, alloc: Global) -> Result<ProgramWords, NoMemory> {
    let mut buffer = vec![in alloc; 0u8; FIRST]?;
    let mut words = ProgramWords {
        texts: Vec::new(alloc),
        not_texts: Vec::new(alloc),
    };
    for word in 0..u32::MAX {
        let Some(len) = read_word(rt, word as usize + 1, &mut buffer)? else {
            break;
        };
        let bytes = &buffer[..len];
        if str::from_utf8(bytes).is_err() {
            words.not_texts.push(word)?;
        }
        words.texts.push(String::from_utf8_lossy(alloc, bytes)?)?;
    }
    Ok(words)
}

/// Puts a word into the buffer, which is made longer where it has to be: the word's length, or `None` behind the last one.
fn read_word(rt: &impl Env, number: usize, buffer: &mut Vec<u8>) -> Result<Option<usize>, NoMemory>
    ensures { IfOk result (λ found. IfSome found (λ len. len ≤ vec_len buffer.new)) }
{
    for _ in 0..=DOUBLINGS {
        match rt.arg(number, buffer) {
            Ok(len) => return Ok(Some(len)),
            Err(FillError::NotPresent) => return Ok(None),
            Err(FillError::TooLong) => buffer.resize(buffer.len().saturating_mul(2), 0)?,
        }
    }
    Err(NoMemory)
}

use crate::reading::{command_of, number_of, path_of, paths_of, small_of};
use crate::trouble::Trouble;
use peg_base::{Path, Words};
use std::alloc::Global;

/// The words that settings begin with.
const NAMES: [&[u8]; 11] = [
    b"from", b"into", b"parts", b"split", b"slots", b"spill", b"backup", b"scratch", b"map",
    b"reduce", b"pairs",
];

fn is_name(word: &[u8]) -> bool {
    NAMES.iter().any(|name| *name == word)
}

/// Whether the word is among these.
fn is_among(words: &[Vec<u8>], word: &[u8]) -> bool {
    words.iter().any(|other| other.as_slice() == word)
}

/// That the words are settings of these names: one of them stands first, and none stands twice.
pub(crate) fn check_settings(words: &[Vec<u8>], names: &[&[u8]]) -> Result<(), Trouble> {
    if words.first().is_some_and(|first| !is_name(first)) {
        return Err(Trouble::Misread);
    }
    for (at, word) in words.iter().enumerate() {
        let is_taken = names.iter().any(|name| *name == word.as_slice());
        let is_again = is_among(words.get(..at).unwrap_or(words), word);
        if is_name(word) && (!is_taken || is_again) {
            return Err(Trouble::Misread);
        }
    }
    Ok(())
}

/// The words behind the name of a setting, up to the next name.
fn setting<'a>(words: &'a [Vec<u8>], name: &[u8]) -> Option<&'a [Vec<u8>]> {
    let at = words.iter().position(|word| word.as_slice() == name)?;
    let behind = words.get(at.saturating_add(1)..)?;
    let end = behind.iter().position(|word| is_name(word));
    match end {
        None => Some(behind),
        Some(end) => behind.get(..end),
    }
}

/// The one word of a setting.
fn word_in<'a>(words: &'a [Vec<u8>], name: &[u8]) -> Result<Option<&'a [u8]>, Trouble> {
    match setting(words, name) {
        None => Ok(None),
        Some([word]) => Ok(Some(word)),
        Some(_) => Err(Trouble::Misread),
    }
}

pub(crate) fn number_in(words: &[Vec<u8>], name: &[u8], default: u64) -> Result<u64, Trouble> {
    match word_in(words, name)? {
        None => Ok(default),
        Some(word) => number_of(word),
    }
}

pub(crate) fn small_in(words: &[Vec<u8>], name: &[u8], default: u32) -> Result<u32, Trouble> {
    match word_in(words, name)? {
        None => Ok(default),
        Some(word) => small_of(word),
    }
}

/// The text of a setting; empty where it isn't there.
pub(crate) fn text_in<'a>(words: &'a [Vec<u8>], name: &[u8]) -> Result<&'a [u8], Trouble> {
    match word_in(words, name)? {
        None => Ok(b""),
        Some(word) => Ok(word),
    }
}

/// The path of a setting, which has to be there.
pub(crate) fn path_in(alloc: Global, words: &[Vec<u8>], name: &[u8]) -> Result<Path, Trouble> {
    match word_in(words, name)? {
        None => Err(Trouble::Misread),
        Some(word) => path_of(alloc, word),
    }
}

pub(crate) fn paths_in(
    alloc: Global,
    words: &[Vec<u8>],
    name: &[u8],
) -> Result<Vec<Path>, Trouble> {
    paths_of(alloc, setting(words, name).unwrap_or(&[]))
}

/// The words of a child; `pegchild id` where the setting isn't there.
pub(crate) fn command_in(alloc: Global, words: &[Vec<u8>], name: &[u8]) -> Result<Words, Trouble> {
    if let Some(texts) = setting(words, name) {
        return command_of(alloc, texts);
    }
    let mut command = Words::new(alloc);
    command.push(alloc, "pegchild")?;
    command.push(alloc, "id")?;
    Ok(command)
}

ghost use Rattle.std.specs.Prelude.{◌≡◌, ◌<◌, ◌≤◌, ◌↔◌, [], ◌∷◌, ◌++◌, length, All, IfOk, IfSome, IsSome, IsTrue, OnErr, slice_get, if◌then◌else◌};
ghost use Rattle.std.specs.Option.{option_copied};
ghost use Rattle.peg_base.specs.WordText.{IsWord};

use peg_text::NoMemory;
use std::alloc::Global;
use std::marker::Model;

/// The greatest number of words.
const MOST_WORDS: usize = 16;

/// The greatest number of bytes of a word.
const LONGEST_WORD: usize = 255;

/// A word, seen as its text.
#[derive(Debug, Drop)]
struct Word {
    text: String,
}

impl Model for Word {
    ghost use Rattle.std.specs.Prelude.{ℕ, List};
    ghost use Rattle.std.specs.String.{string_bytes};
    ghost use Rattle.peg_base.specs.WordText.{IsWord};

    ghost Value = { List ℕ };

    ghost view = { λ w. string_bytes w.text };

    ghost invariant = { λ w. IsWord (string_bytes w.text) };
}

impl Word {
    fn new(alloc: Global, text: &str) -> Result<Word, NoMemory>
        requires { IsWord text.now }
        ensures { IfOk result (λ word. word ≡ text.now) }
    {
        Ok(Word {
            text: String::from_str(alloc, text)?,
        })
    }

    fn text(&self) -> &str
        ensures value { result.now ≡ self.now }
        ensures is_word { IsWord self.now }
    {
        self.text.as_str()
    }
}

/// The words that start a child: at most 16, each of 1 to 255 bytes without NUL. Contracts see the list of their texts.
#[derive(Debug, Drop)]
pub struct Words {
    words: Vec<Word>,
}

impl Model for Words {
    ghost use Rattle.std.specs.Prelude.{ℕ, ◌≤◌, List, length};

    ghost Value = { List (List ℕ) };

    ghost view = { λ w. w.words.items };

    ghost invariant = { λ w. length w.words.items ≤ 16 };
}

impl Words {
    /// No words.
    pub fn new(alloc: Global) -> Words
        ensures { result ≡ [] }
    {
        Words {
            words: Vec::new(alloc),
        }
    }

    /// The number of words.
    pub fn len(&self) -> usize
        ensures value { result ≡ length self.now }
        ensures few { result ≤ 16 }
    {
        self.words.len()
    }

    /// Whether there are no words.
    pub fn is_empty(&self) -> bool
        ensures { IsTrue result ↔ (self.now ≡ []) }
    {
        self.words.is_empty()
    }

    /// The word at this place, counted from 0, or `None` exactly where `at` is the number of words or more.
    pub fn get(&self, at: usize) -> Option<&str>
        ensures value { option_copied result ≡ slice_get self.now at }
        ensures is_word { IfSome result (λ word. IsWord word.now) }
    {
        let word = self.words.get(at)?;
        Some(word.text())
    }

    /// Appends the word and answers true. Answers false, and leaves the words as they were, exactly where 16 words
    /// are held or the text is no word; leaves them so at `NoMemory` too.
    pub fn push(&mut self, alloc: Global, word: &str) -> Result<bool, NoMemory>
        ensures accepted { IfOk result (λ pushed. IsTrue pushed ↔ ((length self.old < 16) × IsWord word.now)) }
        ensures words { IfOk result (λ pushed. self.new ≡ (if pushed then self.old ++ word.now ∷ [] else self.old)) }
        ensures no_memory { OnErr result (self.new ≡ self.old) }
    {
        if self.words.len() >= MOST_WORDS || !is_word(word) {
            return Ok(false);
        }
        let word = Word::new(alloc, word)?;
        self.words.push(word)?;
        Ok(true)
    }

    /// The same words again.
    pub fn copy(&self, alloc: Global) -> Result<Words, NoMemory>
        ensures { IfOk result (λ words. words ≡ self.now) }
    {
        Ok(Words {
            words: copy_words(alloc, self.words.as_slice())?,
        })
    }
}

fn is_word(text: &str) -> bool
    ensures { IsTrue result ↔ IsWord text.now }
{
    1 <= text.len() && text.len() <= LONGEST_WORD && text.as_bytes().iter().all(|b| *b != 0)
}

fn copy_words(alloc: Global, words: &[Word]) -> Result<Vec<Word>, NoMemory>
    ensures { IfOk result (λ copies. copies.items ≡ words.now) }
{
    let mut copies = Vec::new(alloc);
    for word in words {
        copies.push(Word::new(alloc, word.text())?)?;
    }
    Ok(copies)
}

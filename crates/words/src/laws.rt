//! What the reading of a word tells of it. Each function is a law that its contract states, and does nothing.
ghost use Rattle.words.specs.Laws.{NumbersAreWithin, PrefixesSplit, WordsAreEqual};

/// A word is just a text exactly where the two are equal.
pub fn words_are_equal()
    ensures { WordsAreEqual }
{}

/// A text stands in a word behind a prefix exactly where the word is the prefix and then the text.
pub fn prefixes_split()
    ensures { PrefixesSplit }
{}

/// A number is read exactly where the text writes it in decimal and it is in the limits.
pub fn numbers_are_within()
    ensures { NumbersAreWithin }
{}

//! What the store's words come to. Each function is a law that its contract states, and does nothing.
ghost use Rattle.store.specs.Laws.{ChangesByExample, CountsByExample, TextsPartByExample, TextsPartEitherWay, TotalsByExample};

/// Texts part in the same line whichever of them comes first.
pub fn texts_part_either_way()
    ensures { TextsPartEitherWay }
{}

/// Where texts part: within a line, at an LF that one of them lacks, and where just one of them goes on.
pub fn texts_part_by_example()
    ensures { TextsPartByExample }
{}

/// Which lines of a vector are of the grammar.
pub fn changes_by_example()
    ensures { ChangesByExample }
{}

/// What the lines of a vector count, and where the first one stands that counts a change.
pub fn counts_by_example()
    ensures { CountsByExample }
{}

/// What the lines of a result say together.
pub fn totals_by_example()
    ensures { TotalsByExample }
{}

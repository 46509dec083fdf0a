//! What several flushes of a spill leave together. Each function is a law that its contract states, and does nothing.
ghost use Rattle.spill.specs.Laws.{RunsAreApart, FlushesAddUp, PathsAddUp, RunsHoldThePairs, NamesByExample};

/// Runs of different parts, or of different flushes, are apart.
pub fn runs_are_apart()
    ensures { RunsAreApart }
{}

/// A flush adds the runs of the pairs that it writes, and leaves those of the flushes before it.
pub fn flushes_add_up()
    ensures files { FlushesAddUp }
    ensures paths { PathsAddUp }
{}

/// The runs of a part together have each of its pairs as often as it was pushed.
pub fn runs_hold_the_pairs()
    ensures { RunsHoldThePairs }
{}

/// Names of runs have their numbers with zeros in front.
pub fn names_by_example()
    ensures { NamesByExample }
{}

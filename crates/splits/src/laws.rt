//! What the splits of a file are good for. Each function is a law that its contract states, and does nothing.
ghost use Rattle.splits.specs.Laws.{EachLineIsInOneSplit, SplitsCoverEachLineOnce};

/// The lines of a file's splits, one split after the other, are the file's records.
pub fn splits_cover_each_line_once()
    ensures { SplitsCoverEachLineOnce }
{}

/// Each line of a file is in just one of its splits.
pub fn each_line_is_in_one_split()
    ensures { EachLineIsInOneSplit }
{}

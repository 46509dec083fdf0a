//! Laws on decimals, records and pairs. Each is the contract of a function that does nothing.

ghost use Rattle.peg_text.specs.Decimal.{DecimalsReadBack};
ghost use Rattle.peg_text.specs.Pairs.{PairsSplitBack};
ghost use Rattle.peg_text.specs.Records.{CuttingKeepsRecords, LfParts, LinesReadBack};

/// Each number below 2^64 is read back from the text that is written for it.
pub fn decimals_read_back()
    ensures { DecimalsReadBack }
{}

/// A pair whose key has no TAB is read back from the line that is written for it.
pub fn pairs_split_back()
    ensures { PairsSplitBack }
{}

/// Where bytes come in pieces, the records are the same for each cutting.
pub fn cutting_keeps_records()
    ensures { CuttingKeepsRecords }
{}

/// An LF parts the records before it from those after it.
pub fn lf_parts()
    ensures { LfParts }
{}

/// Lines that have no LF, each followed by one, are read back as records.
pub fn lines_read_back()
    ensures { LinesReadBack }
{}

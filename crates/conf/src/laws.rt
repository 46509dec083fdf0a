//! Laws on confs and on the text of one. Each is the contract of a function that does nothing.

ghost use Rattle.conf.specs.Laws.{MeaningsAreWithinLimits, TextsTellConfs};

use peg_text::laws::{decimals_read_back, lines_read_back};
use words::laws::numbers_are_within;

/// Two confs have one text exactly where they are the same in all that it shows.
pub fn texts_tell_confs()
    ensures { TextsTellConfs }
{
    decimals_read_back();
    lines_read_back();
}

/// What accepted words mean is within the limits of each setting.
pub fn meanings_are_within_limits()
    ensures { MeaningsAreWithinLimits }
{
    numbers_are_within();
}

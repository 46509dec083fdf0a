//! Laws on sums, each the contract of a function that does nothing.

ghost use Rattle.std.specs.Prelude.{◌*◌, ◌<◌, ◌≤◌, ◌^◌};
ghost use Rattle.bitstrings.specs.Radius.{WithinFourIsNineTenths};

/// The test of the radius on sums is one of 9/10 on the estimates that sums stand for.
pub fn within_four_is_nine_tenths()
    ensures four { 16 * 9 ^ 32 ≤ 10 ^ 32 }
    ensures no_more { 10 ^ 32 < 32 * 9 ^ 32 }
    ensures test { WithinFourIsNineTenths }
{}

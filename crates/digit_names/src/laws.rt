//! Laws on the digits of numbers. Each is the contract of a function that does nothing.
ghost use Rattle.digit_names.specs.Digits.{DigitsHaveTheirWidth, DigitsTellNumbers, DigitsByExample};

/// A number has as many digits as it is to have.
pub fn digits_have_their_width()
    ensures { DigitsHaveTheirWidth }
{}

/// Different numbers that fit the width have different digits.
pub fn digits_tell_numbers()
    ensures { DigitsTellNumbers }
{}

/// Short numbers have zeros in front.
pub fn digits_by_example()
    ensures { DigitsByExample }
{}

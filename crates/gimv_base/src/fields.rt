ghost use Rattle.std.specs.Prelude.{◌≡◌, ◌<◌, ◌≤◌, ◌^◌, true, decimal, length, position, option_map, IfSome};
ghost use Rattle.std.specs.Char.{is_ascii_digit};
ghost use Rattle.std.specs.List.{list_all, prefix_len};
ghost use Rattle.std.specs.Option.{is_some};
ghost use Rattle.peg_text.specs.Decimal.{decimal_of};
ghost use Rattle.gimv_base.specs.Fields.{around_blank, is_blank, number_below, tagged};
ghost use Rattle.gimv_base.specs.Records.{id_of};

use peg_text::read_decimal;

/// One more than the greatest id.
pub const IDS: u64 = 1 << 32;

/// The most digits of which every number is an id.
const SAFE_DIGITS: usize = 9;

/// The number that a decimal text writes, where it is below `bound`, which is at most 2^32.
pub fn read_below(text: &[u8], bound: u64) -> Option<u32>
    requires { bound ≤ 2 ^ 32 }
    ensures { result ≡ number_below bound text.now }
{
    match read_decimal(text) {
        Some(number) if number < bound => Some(number as u32),
        _ => None,
    }
}

/// Whether digits write an id.
pub fn is_id(digits: &[u8]) -> bool
    requires { list_all is_ascii_digit digits.now ≡ true }
    ensures { result ≡ is_some (id_of digits.now) }
{
    if digits.len() > SAFE_DIGITS {
        return read_below(digits, IDS).is_some();
    }
    !digits.is_empty()
}

/// Whether a text writes an id.
pub fn is_id_text(text: &[u8]) -> bool
    ensures { result ≡ is_some (id_of text.now) }
{
    leading_digits(text) == text.len() && is_id(text)
}

/// How many digits a text begins with.
pub fn leading_digits(text: &[u8]) -> usize
    ensures { result ≡ prefix_len is_ascii_digit text.now }
{
    let mut count = 0;
    while count < text.len() && text[count].is_ascii_digit() {
        count += 1;
    }
    count
}

/// A decimal text without the zeros that lead it, which is how its number is written.
pub fn without_leading_zeros(text: &[u8]) -> &[u8]
    ensures is { IfSome (decimal_of text.now) (λ number. result.now ≡ decimal number) }
    ensures short { IfSome (decimal_of text.now) (λ _. length result.now ≤ 20) }
{
    // The last digit stays, since the number 0 has one too.
    let last = text.len().saturating_sub(1);
    let mut zeros = 0;
    while zeros < last && text[zeros] == b'0' {
        zeros += 1;
    }
    &text[zeros..]
}

/// What follows a tag and a blank. `None` where a text doesn't begin so.
pub fn after_tag(text: &[u8], tag: u8) -> Option<&[u8]>
    ensures { option_map (λ rest. rest.now) result ≡ tagged tag text.now }
{
    match text {
        [first, b' ', rest @ ..] if *first == tag => Some(rest),
        _ => None,
    }
}

/// The texts before and after the first blank. `None` where there is no blank.
pub fn around_blank(text: &[u8]) -> Option<(&[u8], &[u8])>
    ensures { option_map (λ parts. (parts.0.now, parts.1.now)) result ≡ around_blank text.now }
{
    match first_blank(text) {
        Some(at) => Some((&text[..at], &text[at + 1..])),
        None => None,
    }
}

/// Where the first blank stands.
fn first_blank(text: &[u8]) -> Option<usize>
    ensures is { result ≡ position is_blank text.now }
    ensures inside { IfSome result (λ at. at < length text.now) }
{
    text.iter().position(|byte| *byte == b' ')
}

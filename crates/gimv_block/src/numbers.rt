ghost use Rattle.std.specs.Prelude.{◌≡◌, ◌≤◌, true, length, take, IfSome};
ghost use Rattle.std.specs.Char.{is_ascii_digit};
ghost use Rattle.std.specs.List.{list_all};
ghost use Rattle.std.specs.Str.Parse.{digits_value};
ghost use Rattle.gimv_block.specs.Numbers.{BeginsWithNumber};

/// The most digits of which every number is below 2^64.
const SAFE_DIGITS: usize = 19;

/// The number that the digits at the front of a text write, and how many they are. No more than 19 are looked at.
fn leading_number(text: &[u8]) -> (u64, usize)
    ensures value { result.0 ≡ digits_value 10 (take result.1 text.now) }
    ensures digits { list_all is_ascii_digit (take result.1 text.now) ≡ true }
    ensures inside { result.1 ≤ length text.now }
    ensures few { result.1 ≤ 19 }
{
    let most = text.len().min(SAFE_DIGITS);
    let mut number: u64 = 0;
    let mut count = 0;
    while count < most && text[count].is_ascii_digit() {
        number = number * 10 + u64::from(text[count] - b'0');
        count += 1;
    }
    (number, count)
}

/// The number at the front of a text, and what follows the mark behind it, in one pass. A text that goes on otherwise, or
/// with more than 19 digits, gives `None`.
pub fn number_before(text: &[u8], mark: u8) -> Option<(u64, &[u8])>
    ensures { IfSome result (λ front. BeginsWithNumber text.now mark front.0 front.1.now) }
{
    let (number, count) = leading_number(text);
    if count == 0 || count == text.len() || text[count] != mark {
        return None;
    }
    Some((number, &text[count + 1..]))
}

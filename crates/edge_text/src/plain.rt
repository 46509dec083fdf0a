ghost use Rattle.std.specs.Prelude.{◌≤◌, length, IfSome};
ghost use Rattle.edge_text.specs.Plain.{EndsLine, HasDigits, HasPlainRecord};

/// The most digits of an id, leading zeros included.
const MOST_DIGITS: usize = 10;

/// A record that is just two ids, and where the bytes after its LF begin.
#[derive(Clone, Copy)]
pub struct PlainRecord {
    pub source: u64,
    pub target: u64,
    pub next: usize,
}

/// The number that digits write, and where they end.
#[derive(Clone, Copy)]
struct Digits {
    value: u64,
    end: usize,
}

/// Reads the record that begins at `start` in one pass over its bytes, if it is two ids with a TAB between them.
///
/// Each other record, and one that no LF ends, has to be looked at in full.
#[inline(always)]
pub fn read_plain(bytes: &[u8], start: usize) -> Option<PlainRecord>
    requires { start ≤ length bytes.now }
    ensures { IfSome result (λ plain. HasPlainRecord bytes.now start plain.source plain.target plain.next) }
{
    let source = read_digits(bytes, start)?;
    if source.end >= bytes.len() || bytes[source.end] != b'\t' {
        return None;
    }
    let target = read_digits(bytes, source.end + 1)?;
    let next = end_of_line(bytes, target.end)?;
    Some(PlainRecord {
        source: source.value,
        target: target.value,
        next,
    })
}

/// Where the bytes after an LF begin, if it stands here, or behind one CR that does.
#[inline(always)]
fn end_of_line(bytes: &[u8], end: usize) -> Option<usize>
    requires { end ≤ length bytes.now }
    ensures { IfSome result (λ next. EndsLine bytes.now end next) }
{
    if end < bytes.len() && bytes[end] == b'\n' {
        return Some(end + 1);
    }
    if end + 1 < bytes.len() && bytes[end] == b'\r' && bytes[end + 1] == b'\n' {
        return Some(end + 2);
    }
    None
}

/// Reads the digits that stand from a place on, up to the most that an id has.
#[inline(always)]
fn read_digits(bytes: &[u8], from: usize) -> Option<Digits>
    requires { from ≤ length bytes.now }
    ensures { IfSome result (λ digits. HasDigits bytes.now from digits.end digits.value) }
{
    let most = bytes.len().min(from.saturating_add(MOST_DIGITS));
    let mut value: u64 = 0;
    let mut end = from;
    while end < most && bytes[end].is_ascii_digit() {
        value = 10 * value + u64::from(bytes[end] - b'0');
        end += 1;
    }
    if end == from {
        return None;
    }
    Some(Digits { value, end })
}

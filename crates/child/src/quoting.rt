ghost use Rattle.std.specs.Prelude.{◌≡◌, ◌<◌, ◌++◌, OnOk};
ghost use Rattle.std.specs.List.{flat_map};
ghost use Rattle.child.specs.Quoting.{hex_digit as digit_of, quoted, shown_byte};

use crate::front::Front;
use peg_text::NoMemory;

/// Appends the front of a record in quotes, and ` ..` where the record has more. A printable byte of ASCII stands as it is,
/// but for the quote and the backslash, which a backslash precedes; TAB is `\t`, and any other byte `\x` and two digits.
pub fn append_quoted(out: &mut Vec<u8>, front: &Front) -> Result<(), NoMemory>
    ensures { OnOk result (out.new.items ≡ out.old.items ++ quoted front.now) }
{
    append(out, b"\"")?;
    append_bytes(out, &front.bytes)?;
    append(
        out,
        if front.is_cut {
            b"\" ..".as_slice()
        } else {
            b"\"".as_slice()
        },
    )
}

fn append_bytes(out: &mut Vec<u8>, bytes: &[u8]) -> Result<(), NoMemory>
    ensures { OnOk result (out.new.items ≡ out.old.items ++ flat_map shown_byte bytes.now) }
{
    for byte in bytes {
        append_byte(out, *byte)?;
    }
    Ok(())
}

fn append_byte(out: &mut Vec<u8>, byte: u8) -> Result<(), NoMemory>
    ensures { OnOk result (out.new.items ≡ out.old.items ++ shown_byte byte) }
{
    if byte == b'\t' {
        return append(out, b"\\t");
    }
    if byte == b'"' || byte == b'\\' {
        return append(out, &[b'\\', byte]);
    }
    if 32 <= byte && byte < 127 {
        return append(out, &[byte]);
    }
    append(
        out,
        &[b'\\', b'x', hex_digit(byte / 16), hex_digit(byte % 16)],
    )
}

fn append(out: &mut Vec<u8>, text: &[u8]) -> Result<(), NoMemory>
    ensures { OnOk result (out.new.items ≡ out.old.items ++ text.now) }
{
    out.extend_from_slice(text)?;
    Ok(())
}

fn hex_digit(value: u8) -> u8
    requires { value < 16 }
    ensures { result ≡ digit_of value }
{
    if value < 10 {
        b'0' + value
    } else {
        b'a' - 10 + value
    }
}

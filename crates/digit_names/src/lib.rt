//! Names that end in a number, filled with zeros to a set number of digits.
#![tactic(auto)]

ghost use Rattle.std.specs.Prelude.{◌≡◌, ◌+◌, ◌≤◌, ◌++◌, length, IfOk, OnOk, IsTrue};
ghost use Rattle.digit_names.specs.Digits.{digits, begins_name};

pub mod laws;

use peg_base::Name;
use peg_text::NoMemory;
use std::alloc::Global;

/// Appends the last `width` decimal digits of a number. After a refusal some of them may have been appended.
pub fn push_digits(
    alloc: Global,
    text: &mut Vec<u8>,
    number: u64,
    width: u8,
) -> Result<(), NoMemory>
    ensures { OnOk result (text.new.items ≡ text.old.items ++ digits width number) }
{
    if width > 0 {
        push_digits(alloc, text, number / 10, width - 1)?;
        text.push(b'0' + (number % 10) as u8)?;
    }
    Ok(())
}

/// The name of these bytes and then the last `width` digits of a number.
pub fn numbered(alloc: Global, front: &[u8], number: u64, width: u8) -> Result<Name, NoMemory>
    requires front { IsTrue (begins_name front.now) }
    requires short { length front.now + width ≤ 64 }
    ensures { IfOk result (λ name. name ≡ front.now ++ digits width number) }
{
    let mut text = Vec::from_slice(alloc, front)?;
    push_digits(alloc, &mut text, number, width)?;
    let name = Name::new(alloc, &text)?;
    Ok(name.unwrap())
}

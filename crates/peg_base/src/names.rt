ghost use Rattle.std.specs.Prelude.{◌≡◌, ◌↔◌, IfOk, IfSome, IsSome, IsTrue, Some, nat_eq, refl};
ghost use Rattle.std.specs.Ordering.{nat_cmp};
ghost use Rattle.std.specs.Cmp.{partial_equiv_from_equiv};
ghost use Rattle.std.specs.Cmp.Lexicographic.{pointwise, slice_cmp, nat_list_eq_equiv, nat_list_cmp_total, texts_ties, texts_po};
ghost use Rattle.peg_base.specs.NameText.{is_name_byte, IsName};

use peg_text::NoMemory;
use std::alloc::Global;
use std::cmp::Ordering;
use std::marker::Model;
use std::str;

/// The name of a file or a folder, seen as its text: 1 to 64 letters, digits, `.`, `_` and `-`, but neither `.` nor
/// `..`. Names are ordered by their bytes.
#[derive(Debug, Drop)]
pub struct Name {
    text: String,
}

impl Model for Name {
    ghost use Rattle.std.specs.Prelude.{ℕ, List};
    ghost use Rattle.std.specs.String.{string_bytes};
    ghost use Rattle.peg_base.specs.NameText.{IsName};

    ghost Value = { List ℕ };

    ghost view = { λ n. string_bytes n.text };

    ghost invariant = { λ n. IsName (string_bytes n.text) };
}

impl Name {
    /// The name of this text, or `None` exactly where the text is no name.
    pub fn new(alloc: Global, bytes: &[u8]) -> Result<Option<Name>, NoMemory>
        ensures grammar { IfOk result (λ name. IsSome name ↔ IsName bytes.now) }
        ensures text { IfOk result (λ name. IfSome name (λ n. n ≡ bytes.now)) }
    {
        if !is_name(bytes) {
            return Ok(None);
        }
        let text = String::from_str(alloc, str::from_utf8(bytes).unwrap())?;
        Ok(Some(Name { text }))
    }

    /// The text of the name.
    pub fn text(&self) -> &str
        ensures value { result.now ≡ self.now }
        ensures is_name { IsName self.now }
    {
        self.text.as_str()
    }

    /// The same name again.
    pub(crate) fn copy(&self, alloc: Global) -> Result<Name, NoMemory>
        ensures { IfOk result (λ name. name ≡ self.now) }
    {
        Ok(Name {
            text: String::from_str(alloc, self.text.as_str())?,
        })
    }
}

fn is_name_byte(byte: u8) -> bool
    ensures { result ≡ is_name_byte byte }
{
    byte.is_ascii_alphanumeric() || byte == b'.' || byte == b'_' || byte == b'-'
}

fn is_name(bytes: &[u8]) -> bool
    ensures { IsTrue result ↔ IsName bytes.now }
{
    1 <= bytes.len()
        && bytes.len() <= 64
        && bytes.iter().all(|b| is_name_byte(*b))
        && bytes != b".".as_slice()
        && bytes != b"..".as_slice()
}

impl PartialEq for Name {
    ghost eq = { pointwise nat_eq };

    ghost laws = { partial_equiv_from_equiv nat_list_eq_equiv };

    fn eq(&self, other: &Name) -> bool {
        self.text() == other.text()
    }
}

impl Eq for Name {
    ghost laws = { nat_list_eq_equiv };
}

impl PartialOrd for Name {
    ghost partial_cmp = { λ x y. Some (slice_cmp nat_cmp x y) };

    ghost laws = { texts_po };

    fn partial_cmp(&self, other: &Name) -> Option<Ordering> {
        Some(self.cmp(other))
    }
}

impl Ord for Name {
    ghost cmp = { slice_cmp nat_cmp };

    ghost total = { nat_list_cmp_total };

    ghost matches_partial_cmp = { λ x y. refl };

    ghost matches_eq = { texts_ties };

    fn cmp(&self, other: &Name) -> Ordering {
        self.text().cmp(other.text())
    }
}

ghost use Rattle.std.specs.Prelude.{◌≡◌, ℕ, List, [], ◌++◌, OnOk};
ghost use Rattle.child.specs.Shown.{IsFrontOf};
ghost use Rattle.child.specs.declared.front.Front.{Front};

use peg_text::NoMemory;
use std::alloc::Global;

/// The most bytes of a record that are shown.
const MOST_SHOWN: usize = 80;

/// What is shown of a record.
#[derive(Debug, Drop)]
pub struct Front {
    /// Its first 80 bytes, or all of them.
    pub bytes: Vec<u8>,
    /// Whether it has more.
    pub is_cut: bool,
}

impl Front {
    /// That of an empty record.
    pub fn new(alloc: Global) -> Front
        ensures { IsFrontOf [] result }
    {
        Front {
            bytes: Vec::new(alloc),
            is_cut: false,
        }
    }

    /// Takes in further bytes of the record.
    pub(crate) fn add(&mut self, more: &[u8]) -> Result<(), NoMemory>
        ensures { (text : List ℕ) → IsFrontOf text self.old → OnOk result (IsFrontOf (text ++ more.now) self.new) }
    {
        let room = MOST_SHOWN.saturating_sub(self.bytes.len());
        if more.len() > room {
            self.is_cut = true;
            self.bytes.extend_from_slice(&more[..room])?;
        } else {
            self.bytes.extend_from_slice(more)?;
        }
        Ok(())
    }

    /// Forgets the record, for an empty one.
    pub(crate) fn clear(&mut self)
        ensures { IsFrontOf [] self.new }
    {
        self.bytes.clear();
        self.is_cut = false;
    }

    /// Becomes that of the record of another.
    pub(crate) fn copy(&mut self, other: &Front) -> Result<(), NoMemory>
        ensures { (text : List ℕ) → IsFrontOf text other.now → OnOk result (IsFrontOf text self.new) }
    {
        self.bytes.clear();
        self.bytes.extend_from_slice(&other.bytes)?;
        self.is_cut = other.is_cut;
        Ok(())
    }
}

ghost use Rattle.std.specs.Prelude.{◌≡◌, [], false, OnOk, OnErr, IsErrOf};
ghost use Rattle.gimv_base.specs.Answers.{Ends, GoesOnWith, IsBadAt, IsNotBad, Takes};
ghost use Rattle.gimv_base.specs.Standings.{Standing, goes_on, key_after, open_key, yet};

use peg_text::NoMemory;
use std::alloc::{AllocError, AllocFailed, Global};

/// Why a [`Role`] refuses.
#[derive(Clone, Copy, Debug, PartialEq, Eq)]
pub enum RoleFault {
    /// The record that was handed in is bad.
    Bad,
    /// The record before it is bad, since its group ended too early.
    BadBefore,
    /// There was no memory.
    NoMemory,
}

impl From<NoMemory> for RoleFault {
    ghost use Rattle.std.specs.Prelude.{◌≡◌};
    ghost use Rattle.gimv_base.specs.declared.role.RoleFault.TheVariants.{NoMemory as OutOfMemory};

    ghost from_gives = { λ _ fault. fault ≡ OutOfMemory };

    fn from(_: NoMemory) -> RoleFault {
        RoleFault::NoMemory
    }
}

impl From<AllocError> for RoleFault {
    ghost use Rattle.std.specs.Prelude.{◌≡◌};
    ghost use Rattle.gimv_base.specs.declared.role.RoleFault.TheVariants.{NoMemory as OutOfMemory};

    ghost from_gives = { λ _ fault. fault ≡ OutOfMemory };

    fn from(_: AllocError) -> RoleFault {
        RoleFault::NoMemory
    }
}

impl<T: Drop> From<AllocFailed<T>> for RoleFault {
    ghost use Rattle.std.specs.Prelude.{◌≡◌};
    ghost use Rattle.gimv_base.specs.declared.role.RoleFault.TheVariants.{NoMemory as OutOfMemory};

    ghost from_gives = { λ _ fault. fault ≡ OutOfMemory };

    fn from(_: AllocFailed<T>) -> RoleFault {
        RoleFault::NoMemory
    }
}

/// What a child does with its records, one after another.
///
/// A record comes without its LF. After a refusal the role is of no more use.
pub trait Role {
    /// How it writes, and the group that has begun.
    ghost standing: { Self → Standing };

    /// Takes the next record, and appends what is certain now.
    ///
    /// After a refusal `out` is as before.
    fn line(&mut self, alloc: Global, text: &[u8], out: &mut Vec<u8>) -> Result<(), RoleFault>
        ensures ok { OnOk result (Takes (yet (standing self.old)) (yet (standing self.new)) text.now out.old.items out.new.items) }
        ensures good { OnOk result (IsNotBad (yet (standing self.old)) text.now) }
        ensures bad { IsErrOf result RoleFault.Bad → IsBadAt 1 (yet (standing self.old)) text.now }
        ensures bad_before { IsErrOf result RoleFault.BadBefore → IsBadAt 0 (yet (standing self.old)) text.now }
        ensures err { OnErr result (out.new.items ≡ out.old.items) }

        // What completes the group that had begun is written at once.
        ensures prompt { OnOk result (goes_on (open_key (standing self.old)) text.now ≡ false → GoesOnWith (yet (standing self.old) []).out out.old.items out.new.items) }
        ensures key { OnOk result (open_key (standing self.new) ≡ key_after (standing self.old).rule text.now) }
        ensures rule { (standing self.new).rule ≡ (standing self.old).rule };

    /// Appends what is left after the last record.
    ///
    /// After a refusal `out` is as before.
    fn end(&mut self, alloc: Global, out: &mut Vec<u8>) -> Result<(), RoleFault>
        ensures ok { OnOk result (Ends (yet (standing self.old) []) out.old.items out.new.items) }
        ensures bad_before { IsErrOf result RoleFault.BadBefore → (yet (standing self.old) []).bad ≡ Some 0 }
        ensures never_bad { ¬ IsErrOf result RoleFault.Bad }
        ensures err { OnErr result (out.new.items ≡ out.old.items) };
}

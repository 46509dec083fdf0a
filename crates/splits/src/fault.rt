ghost use Rattle.std.specs.Prelude.{◌≡◌};
ghost use Rattle.splits.specs.declared.fault.SplitFault.TheVariants.{NoMemory as OutOfMemory};

use dir_disk::DirFault;
use peg_text::NoMemory;
use thiserror::Error;

/// Why the lines of a split were not written.
#[derive(Clone, Copy, Debug, PartialEq, Eq, Error)]
pub enum SplitFault {
    /// The directory failed; it counted the fault.
    #[error("the directory failed")]
    Disk,
    /// There was no memory.
    #[error("no memory")]
    NoMemory,
}

impl From<DirFault> for SplitFault {
    ghost use Rattle.splits.specs.Faults.{fault_of};

    ghost from_gives = { λ fault e. e ≡ fault_of fault };

    fn from(fault: DirFault) -> Self {
        match fault {
            DirFault::Failed => SplitFault::Disk,
            DirFault::NoMemory => SplitFault::NoMemory,
        }
    }
}

impl From<NoMemory> for SplitFault {
    ghost from_gives = { λ _ e. e ≡ OutOfMemory };

    fn from(_: NoMemory) -> Self {
        SplitFault::NoMemory
    }
}

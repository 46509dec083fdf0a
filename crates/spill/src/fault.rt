ghost use Rattle.std.specs.Prelude.{◌≡◌};
ghost use Rattle.spill.specs.declared.fault.SpillFault.TheVariants.{NoMemory as OutOfMemory};

use dir_disk::DirFault;
use peg_text::NoMemory;
use thiserror::Error;

/// Why a flush was refused.
#[derive(Clone, Copy, Debug, PartialEq, Eq, Error)]
pub enum SpillFault {
    /// The directory failed; it counted the fault.
    #[error("the directory failed at a run")]
    Disk,
    /// There was no memory.
    #[error("no memory for a run")]
    NoMemory,
}

impl From<DirFault> for SpillFault {
    ghost use Rattle.spill.specs.Faults.{fault_of};

    ghost from_gives = { λ fault e. e ≡ fault_of fault };

    fn from(fault: DirFault) -> Self {
        match fault {
            DirFault::Failed => SpillFault::Disk,
            DirFault::NoMemory => SpillFault::NoMemory,
        }
    }
}

impl From<NoMemory> for SpillFault {
    ghost from_gives = { λ _ e. e ≡ OutOfMemory };

    fn from(_: NoMemory) -> Self {
        SpillFault::NoMemory
    }
}

ghost use Rattle.std.specs.Prelude.{◌≡◌};
ghost use Rattle.merge.specs.declared.fault.MergeFault.TheVariants.{NoMemory as OutOfMemory};

use dir_disk::DirFault;
use peg_text::NoMemory;
use thiserror::Error;

/// Why runs were not merged.
#[derive(Clone, Copy, Debug, PartialEq, Eq, Error)]
pub enum MergeFault {
    /// The directory failed; it counted the fault.
    #[error("the directory failed at a merge")]
    Disk,
    /// There was no memory.
    #[error("no memory for a merge")]
    NoMemory,
}

impl From<DirFault> for MergeFault {
    ghost use Rattle.merge.specs.Faults.{fault_of};

    ghost from_gives = { λ fault e. e ≡ fault_of fault };

    fn from(fault: DirFault) -> Self {
        match fault {
            DirFault::Failed => MergeFault::Disk,
            DirFault::NoMemory => MergeFault::NoMemory,
        }
    }
}

impl From<NoMemory> for MergeFault {
    ghost from_gives = { λ _ e. e ≡ OutOfMemory };

    fn from(_: NoMemory) -> Self {
        MergeFault::NoMemory
    }
}

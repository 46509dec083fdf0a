ghost use Rattle.std.specs.Prelude.{◌≡◌};
ghost use Rattle.committer.specs.declared.fault.CommitFault.TheVariants.{NoMemory as OutOfMemory};

use dir_disk::DirFault;
use peg_text::NoMemory;
use thiserror::Error;

/// Why a call of the committer was refused.
#[derive(Clone, Copy, Debug, PartialEq, Eq, Error)]
pub enum CommitFault {
    /// The directory failed; it counted the fault.
    #[error("the directory failed")]
    Disk,
    /// There was no memory.
    #[error("no memory")]
    NoMemory,
}

impl From<DirFault> for CommitFault {
    ghost use Rattle.committer.specs.Faults.{fault_of};

    ghost from_gives = { λ fault e. e ≡ fault_of fault };

    fn from(fault: DirFault) -> Self {
        match fault {
            DirFault::Failed => CommitFault::Disk,
            DirFault::NoMemory => CommitFault::NoMemory,
        }
    }
}

impl From<NoMemory> for CommitFault {
    ghost from_gives = { λ _ e. e ≡ OutOfMemory };

    fn from(_: NoMemory) -> Self {
        CommitFault::NoMemory
    }
}

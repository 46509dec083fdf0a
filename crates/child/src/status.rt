ghost use Rattle.std.specs.Prelude.{◌≡◌};
ghost use Rattle.child.specs.Statuses.{code_of};

use dir_disk::{SinkFault, SourceFault};

/// How a child ended.
#[derive(Clone, Copy, Debug, PartialEq, Eq)]
pub enum ChildStatus {
    /// All records were read, and all that they give was written.
    Ok,
    /// No role has these words.
    Usage,
    /// A record isn't as the role reads it: its number, from 1.
    BadLine { line: u64 },
    /// The source has more than 2^50 bytes.
    TooLarge,
    /// There was no memory.
    NoMemory,
    /// The source or the sink failed.
    Fault,
}

impl ChildStatus {
    /// The exit status of the program.
    pub fn code(&self) -> u8
        ensures { result ≡ code_of self.now }
    {
        match self {
            ChildStatus::Ok => 0,
            ChildStatus::Usage => 2,
            ChildStatus::BadLine { .. } => 65,
            ChildStatus::TooLarge => 66,
            ChildStatus::NoMemory => 70,
            ChildStatus::Fault => 74,
        }
    }
}

impl From<SourceFault> for ChildStatus {
    ghost use Rattle.std.specs.Prelude.{◌≡◌};
    ghost use Rattle.child.specs.Statuses.{status_of_source};

    ghost from_gives = { λ fault status. status ≡ status_of_source fault };

    fn from(fault: SourceFault) -> ChildStatus {
        match fault {
            SourceFault::Failed => ChildStatus::Fault,
            SourceFault::NoMemory => ChildStatus::NoMemory,
        }
    }
}

impl From<SinkFault> for ChildStatus {
    ghost use Rattle.std.specs.Prelude.{◌≡◌};
    ghost use Rattle.child.specs.Statuses.{status_of_sink};

    ghost from_gives = { λ fault status. status ≡ status_of_sink fault };

    fn from(fault: SinkFault) -> ChildStatus {
        match fault {
            SinkFault::Failed => ChildStatus::Fault,
            SinkFault::NoMemory => ChildStatus::NoMemory,
        }
    }
}

use std::alloc::AllocGlobal;
use std::fs::{File, TryLockError};
use std::io;
use std::io::{Eprint, Print};
use std::process::Processes;
use std::random::RandomSource;
use std::rt::{Clock, Files, HostRuntime};

/// What a site asks of the machine.
pub trait Machine: Files
    + Processes
    + Print
    + Eprint
    + Clock
    + RandomSource
    + AllocGlobal
    + Clone
    + Drop {
    /// Takes the lock of an open file or folder, which lasts until that is closed, at the latest where the process ends:
    /// `false` where another one has it. A file system that has no locks is an error.
    fn try_lock(file: &Self::File) -> io::Result<bool>;
}

impl Machine for HostRuntime {
    fn try_lock(file: &File) -> io::Result<bool> {
        match file.try_lock() {
            Ok(()) => Ok(true),
            Err(TryLockError::WouldBlock) => Ok(false),
            Err(TryLockError::Error(error)) => Err(error),
        }
    }
}

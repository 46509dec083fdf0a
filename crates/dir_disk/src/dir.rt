ghost use Rattle.std.specs.Prelude.{◌≡◌, ◌+◌, ◌^◌, ◌≤◌, ℕ, List, [], Some, None, length, IfOk, IfSome, OnOk, IsErrOf};
ghost use Rattle.peg_base.specs.Names.{Names};
ghost use Rattle.dir_disk.specs.Causes.{HasCause};
ghost use Rattle.dir_disk.specs.State.{Allows, Content, bytes_of};
ghost use Rattle.dir_disk.specs.Moments.{Told, files};
ghost use Rattle.dir_disk.specs.Calls.{Look, Append, Move, Remove, Settle, Does, HasFile, IsLength, IsRead, CanAppend, CanMove};
ghost use Rattle.dir_disk.specs.Lent.{Loan, IsNoOutput, IsFree};

use peg_base::Path;
use std::alloc::Global;

/// Why a call of a [`Dir`] was refused.
#[derive(Clone, Copy, Debug, PartialEq, Eq)]
pub enum DirFault {
    /// The outside failed, maybe after some of the work; the directory counted it.
    Failed,
    /// There was no memory, and nothing was changed.
    NoMemory,
}

/// A directory of files that may be cut off at any moment, within a call too.
///
/// A file has a path of at least one name and at most 2^50 bytes. A folder is the set of files under its path. A
/// directory that tells its state says for each path what it has now, and what a stop may leave there.
pub trait Dir {
    /// Holds where the directory tells its state and its moments.
    ghost tells: { Type 0 };

    /// The moments so far, with their states.
    ghost told: { Self → Told };

    /// The paths that are lent to children.
    ghost lent: { Self → List Loan };

    /// How often a call has failed.
    ghost faults: { Self → ℕ };

    /// What else the object is that the directory is a part of.
    ghost Beside: { Type 0 };

    /// What its calls leave as it is.
    ghost beside: { Self → Beside };

    /// The number of bytes of the file at the path, or `None` where no file is. A refusal changes no file.
    fn size(&mut self, alloc: Global, path: &Path) -> Result<Option<u64>, DirFault>
        requires { IsNoOutput (lent self.old) path.now }
        ensures length { tells → IfOk result (λ size. IsLength (files (told self.old) path.now).now size) }
        ensures small { IfOk result (λ size. IfSome size (λ n. n ≤ 2 ^ 50)) }
        ensures call { tells → Does (Look path.now) (told self.old) (told self.new) result }
        ensures lent { lent self.new ≡ lent self.old }
        ensures beside { beside self.new ≡ beside self.old }
        ensures cause { HasCause DirFault.Failed (faults self.old) (faults self.new) result }
        ensures no_memory { IsErrOf result DirFault.NoMemory → faults self.new ≡ faults self.old };

    /// The bytes of the file at the path from the place `from` on, at most `max` of them, and as many as there are. A
    /// refusal changes no file.
    fn read(&mut self, alloc: Global, path: &Path, from: u64, max: u32) -> Result<Vec<u8>, DirFault>
        requires lent { IsNoOutput (lent self.old) path.now }
        requires there { tells → HasFile (files (told self.old)) path.now }
        ensures bytes { tells → IfOk result (λ bytes. IsRead (files (told self.old) path.now).now from max bytes.items) }
        ensures few { IfOk result (λ bytes. length bytes.items ≤ max) }
        ensures call { tells → Does (Look path.now) (told self.old) (told self.new) result }
        ensures lent { lent self.new ≡ lent self.old }
        ensures beside { beside self.new ≡ beside self.old }
        ensures cause { HasCause DirFault.Failed (faults self.old) (faults self.new) result }
        ensures no_memory { IsErrOf result DirFault.NoMemory → faults self.new ≡ faults self.old };

    /// Appends the bytes to the file at the path, or makes it of them where no file is. It fails where the file would
    /// pass 2^50 bytes. After a fault the path may have anything.
    fn append(&mut self, alloc: Global, path: &Path, bytes: &[u8]) -> Result<(), DirFault>
        requires lent { IsFree (lent self.old) path.now }
        requires can { tells → CanAppend (files (told self.old)) path.now }
        ensures call { tells → Does (Append path.now bytes.now) (told self.old) (told self.new) result }
        ensures fits { tells
            → OnOk result (length (bytes_of (files (told self.old) path.now).now) + length bytes.now ≤ 2 ^ 50) }
        ensures lent { lent self.new ≡ lent self.old }
        ensures beside { beside self.new ≡ beside self.old }
        ensures cause { HasCause DirFault.Failed (faults self.old) (faults self.new) result }
        ensures no_memory { IsErrOf result DirFault.NoMemory → faults self.new ≡ faults self.old };

    /// Moves each file at or under `from` to the same place at or under `to`. After a fault any part of that may have
    /// happened.
    fn move_tree(&mut self, alloc: Global, from: &Path, to: &Path) -> Result<(), DirFault>
        requires lent_from { IsFree (lent self.old) from.now }
        requires lent_to { IsFree (lent self.old) to.now }
        requires can { tells → CanMove (files (told self.old)) from.now to.now }
        ensures call { tells → Does (Move from.now to.now) (told self.old) (told self.new) result }
        ensures lent { lent self.new ≡ lent self.old }
        ensures beside { beside self.new ≡ beside self.old }
        ensures cause { HasCause DirFault.Failed (faults self.old) (faults self.new) result }
        ensures no_memory { IsErrOf result DirFault.NoMemory → faults self.new ≡ faults self.old };

    /// Removes each file at or under the path; there may be none. After a fault any part of that may have happened.
    fn remove_tree(&mut self, alloc: Global, path: &Path) -> Result<(), DirFault>
        requires { IsFree (lent self.old) path.now }
        ensures call { tells → Does (Remove path.now) (told self.old) (told self.new) result }
        ensures lent { lent self.new ≡ lent self.old }
        ensures beside { beside self.new ≡ beside self.old }
        ensures cause { HasCause DirFault.Failed (faults self.old) (faults self.new) result }
        ensures no_memory { IsErrOf result DirFault.NoMemory → faults self.new ≡ faults self.old };

    /// Makes sure that a stop leaves all at and under the path as it is now; there may be no file. After a fault the
    /// files there may be as a stop might have left them.
    fn settle(&mut self, alloc: Global, path: &Path) -> Result<(), DirFault>
        requires { IsFree (lent self.old) path.now }
        ensures call { tells → Does (Settle path.now) (told self.old) (told self.new) result }
        ensures lent { lent self.new ≡ lent self.old }
        ensures beside { beside self.new ≡ beside self.old }
        ensures cause { HasCause DirFault.Failed (faults self.old) (faults self.new) result }
        ensures no_memory { IsErrOf result DirFault.NoMemory → faults self.new ≡ faults self.old };

    /// The number of its calls never falls.
    ghost clock: { (d : Self) (early late : ℕ) → tells → early ≤ late → late ≤ (told d).count → ((told d).at early).calls ≤ ((told d).at late).calls };

    /// What is there now may be there after a stop.
    ghost now_allowed: { (d : Self) (path : Names) → tells → Allows (files (told d) path).may (files (told d) path).now };

    /// No file is longer than 2^50 bytes.
    ghost short_files: { (d : Self) (path : Names) (bytes : List ℕ) → tells → (files (told d) path).now ≡ Some bytes → length bytes ≤ 2 ^ 50 };

    /// The path without names is never a file, after a stop neither.
    ghost top_is_no_file: { (d : Self) (content : Content) → tells → Allows (files (told d) []).may content → content ≡ None };
}

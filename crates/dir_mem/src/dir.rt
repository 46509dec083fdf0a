ghost use Rattle.std.specs.Prelude.{◌≡◌, ◌++◌, ◌+◌, ◌^◌, ◌≤◌, ◌||◌, not, length, take, drop, IfOk, IfSome, OnOk, IsErrOf};
ghost use Rattle.dir_disk.specs.Calls.{IsRead};
ghost use Rattle.dir_disk.specs.State.{bytes_of};
ghost use Rattle.dir_mem.specs.Log.{state_of};
ghost use Rattle.dir_mem.specs.Sound.{is_short};

use crate::effects::{appending, moving, removing, settling};
use crate::log::{Step, content_at};
use crate::mem_dir::MemDir;
use dir_disk::{Dir, DirFault};
use peg_base::Path;
use peg_text::NoMemory;
use std::alloc::Global;

/// No file is longer than so many bytes.
const LONGEST: u64 = 1 << 50;

/// Whether the file at the path would be too long with these bytes behind it.
fn is_too_long(steps: &[Step], path: &Path, bytes: &[u8]) -> bool
    ensures { result ≡ not (is_short (bytes_of (state_of steps.now path.now).now ++ bytes.now)) }
{
    let held = content_at(steps, path).unwrap_or(&[]).len() as u64;
    bytes.len() as u64 > LONGEST.saturating_sub(held) || held > LONGEST
}

/// At most `max` of the bytes from the place `from` on, and as many as there are.
fn piece_of(alloc: Global, file: &[u8], from: u64, max: u32) -> Result<Vec<u8>, NoMemory>
    ensures { IfOk result (λ bytes. bytes.items ≡ take max (drop from file.now)) }
{
    let start = from.min(file.len() as u64) as usize;
    let rest = &file[start..];
    let len = rest.len().min(max as usize);
    Ok(Vec::from_slice(alloc, &rest[..len])?)
}

/// Such a piece of the file at the path.
fn piece_at(
    alloc: Global,
    steps: &[Step],
    path: &Path,
    from: u64,
    max: u32,
) -> Result<Vec<u8>, NoMemory>
    ensures { IfOk result (λ bytes. IsRead (state_of steps.now path.now).now from max bytes.items) }
{
    match content_at(steps, path) {
        None => Ok(Vec::new(alloc)),
        Some(file) => piece_of(alloc, file, from, max),
    }
}

impl Dir for MemDir {
    ghost use Rattle.dir_mem.specs.Memory.{fail_of, faults_of, has_room, is_due, lent_of, told_of};
    ghost use Rattle.dir_mem.specs.Failing.{FailsWhen, HasNewest};
    ghost use Rattle.dir_disk.specs.Causes.{HasCause};
    ghost use Rattle.dir_disk.specs.Lent.{IsFree, IsNoOutput};
    ghost use Rattle.dir_disk.specs.Moments.{files};
    ghost use Rattle.dir_disk.specs.Calls.{Look, Append, Move, Remove, Settle, Does, HasFile, IsLength, CanAppend, CanMove};
    ghost use Rattle.dir_mem.specs.Laws.{clock_of_memory, now_is_allowed, files_are_short, top_is_none};

    ghost tells = { Unit {0} };

    ghost told = { told_of };

    ghost lent = { lent_of };

    ghost faults = { faults_of };

    ghost Beside = { Unit {0} };

    ghost beside = { λ _. tt };

    fn size(&mut self, alloc: Global, path: &Path) -> Result<Option<u64>, DirFault>
        requires { IsNoOutput (lent_of self.old) path.now }
        ensures length { IfOk result (λ size. IsLength (files (told_of self.old) path.now).now size) }
        ensures small { IfOk result (λ size. IfSome size (λ n. n ≤ 2 ^ 50)) }
        ensures call { Does (Look path.now) (told_of self.old) (told_of self.new) result }
        ensures lent { lent_of self.new ≡ lent_of self.old }
        ensures fail { fail_of self.new ≡ fail_of self.old }
        ensures cause { HasCause DirFault.Failed (faults_of self.old) (faults_of self.new) result }
        ensures no_memory { IsErrOf result DirFault.NoMemory → faults_of self.new ≡ faults_of self.old }

        // It fails just where it is told.
        ensures fails { FailsWhen (is_due self.old) result }
    {
        if let Err(fault) = self.look(alloc) {
            return Err(fault);
        }
        match content_at(&self.steps, path) {
            None => Ok(None),
            Some(bytes) => Ok(Some(bytes.len() as u64)),
        }
    }

    fn read(&mut self, alloc: Global, path: &Path, from: u64, max: u32) -> Result<Vec<u8>, DirFault>
        requires lent { IsNoOutput (lent_of self.old) path.now }
        requires there { HasFile (files (told_of self.old)) path.now }
        ensures bytes { IfOk result (λ bytes. IsRead (files (told_of self.old) path.now).now from max bytes.items) }
        ensures few { IfOk result (λ bytes. length bytes.items ≤ max) }
        ensures call { Does (Look path.now) (told_of self.old) (told_of self.new) result }
        ensures lent { lent_of self.new ≡ lent_of self.old }
        ensures fail { fail_of self.new ≡ fail_of self.old }
        ensures cause { HasCause DirFault.Failed (faults_of self.old) (faults_of self.new) result }
        ensures no_memory { IsErrOf result DirFault.NoMemory → faults_of self.new ≡ faults_of self.old }

        // It fails just where it is told.
        ensures fails { FailsWhen (is_due self.old) result }
    {
        let Ok(bytes) = piece_at(alloc, &self.steps, path, from, max) else {
            return Err(DirFault::NoMemory);
        };
        if let Err(fault) = self.look(alloc) {
            return Err(fault);
        }
        Ok(bytes)
    }

    #[tactic(auto, using(crate::proofs::CallLemmas::fails_due, crate::proofs::CallLemmas::fails_not, crate::proofs::CallLemmas::none_failed))]
    fn append(&mut self, alloc: Global, path: &Path, bytes: &[u8]) -> Result<(), DirFault>
        requires lent { IsFree (lent_of self.old) path.now }
        requires can { CanAppend (files (told_of self.old)) path.now }
        ensures call { Does (Append path.now bytes.now) (told_of self.old) (told_of self.new) result }
        ensures fits { OnOk result (length (bytes_of (files (told_of self.old) path.now).now) + length bytes.now ≤ 2 ^ 50) }
        ensures lent { lent_of self.new ≡ lent_of self.old }
        ensures fail { fail_of self.new ≡ fail_of self.old }
        ensures cause { HasCause DirFault.Failed (faults_of self.old) (faults_of self.new) result }
        ensures no_memory { IsErrOf result DirFault.NoMemory → faults_of self.new ≡ faults_of self.old }

        // It fails just where it is told, and where the file would pass 2^50 bytes.
        ensures fails { FailsWhen (is_due self.old || not (has_room (files (told_of self.old)) path.now bytes.now)) result }

        // Where it fails, each path that it may change has the newest of what a stop may leave there.
        ensures newest { IsErrOf result DirFault.Failed → HasNewest (Append path.now bytes.now) (files (told_of self.new)) }
    {
        if self.is_due() || is_too_long(&self.steps, path, bytes) {
            return Err(self.break_append(alloc, path));
        }
        let Ok(changes) = appending(alloc, &self.steps, path, bytes) else {
            return Err(DirFault::NoMemory);
        };
        self.finish(alloc, changes)
    }

    #[tactic(auto, using(crate::proofs::CallLemmas::fails_due, crate::proofs::CallLemmas::fails_not, crate::proofs::CallLemmas::none_failed))]
    fn move_tree(&mut self, alloc: Global, from: &Path, to: &Path) -> Result<(), DirFault>
        requires lent_from { IsFree (lent_of self.old) from.now }
        requires lent_to { IsFree (lent_of self.old) to.now }
        requires can { CanMove (files (told_of self.old)) from.now to.now }
        ensures call { Does (Move from.now to.now) (told_of self.old) (told_of self.new) result }
        ensures lent { lent_of self.new ≡ lent_of self.old }
        ensures fail { fail_of self.new ≡ fail_of self.old }
        ensures cause { HasCause DirFault.Failed (faults_of self.old) (faults_of self.new) result }
        ensures no_memory { IsErrOf result DirFault.NoMemory → faults_of self.new ≡ faults_of self.old }

        // It fails just where it is told.
        ensures fails { FailsWhen (is_due self.old) result }

        // Where it fails, each path that it may change has the newest of what a stop may leave there.
        ensures newest { IsErrOf result DirFault.Failed → HasNewest (Move from.now to.now) (files (told_of self.new)) }
    {
        let Ok(changes) = moving(alloc, &self.steps, &self.paths, from, to) else {
            return Err(DirFault::NoMemory);
        };
        if self.is_due() {
            return Err(self.break_off(alloc, &changes, from, to));
        }
        self.finish(alloc, changes)
    }

    #[tactic(auto, using(crate::proofs::CallLemmas::fails_due, crate::proofs::CallLemmas::fails_not, crate::proofs::CallLemmas::none_failed))]
    fn remove_tree(&mut self, alloc: Global, path: &Path) -> Result<(), DirFault>
        requires { IsFree (lent_of self.old) path.now }
        ensures call { Does (Remove path.now) (told_of self.old) (told_of self.new) result }
        ensures lent { lent_of self.new ≡ lent_of self.old }
        ensures fail { fail_of self.new ≡ fail_of self.old }
        ensures cause { HasCause DirFault.Failed (faults_of self.old) (faults_of self.new) result }
        ensures no_memory { IsErrOf result DirFault.NoMemory → faults_of self.new ≡ faults_of self.old }

        // It fails just where it is told.
        ensures fails { FailsWhen (is_due self.old) result }

        // Where it fails, each path that it may change has the newest of what a stop may leave there.
        ensures newest { IsErrOf result DirFault.Failed → HasNewest (Remove path.now) (files (told_of self.new)) }
    {
        let Ok(changes) = removing(alloc, &self.steps, &self.paths, path) else {
            return Err(DirFault::NoMemory);
        };
        if self.is_due() {
            return Err(self.break_off(alloc, &changes, path, path));
        }
        self.finish(alloc, changes)
    }

    #[tactic(auto, using(crate::proofs::CallLemmas::fails_due, crate::proofs::CallLemmas::fails_not, crate::proofs::CallLemmas::none_failed))]
    fn settle(&mut self, alloc: Global, path: &Path) -> Result<(), DirFault>
        requires { IsFree (lent_of self.old) path.now }
        ensures call { Does (Settle path.now) (told_of self.old) (told_of self.new) result }
        ensures lent { lent_of self.new ≡ lent_of self.old }
        ensures fail { fail_of self.new ≡ fail_of self.old }
        ensures cause { HasCause DirFault.Failed (faults_of self.old) (faults_of self.new) result }
        ensures no_memory { IsErrOf result DirFault.NoMemory → faults_of self.new ≡ faults_of self.old }

        // It fails just where it is told.
        ensures fails { FailsWhen (is_due self.old) result }

        // Where it fails, each path that it may change has the newest of what a stop may leave there.
        ensures newest { IsErrOf result DirFault.Failed → HasNewest (Settle path.now) (files (told_of self.new)) }
    {
        if self.is_due() {
            return Err(self.break_off(alloc, &[], path, path));
        }
        let Ok(changes) = settling(alloc, &self.steps, &self.paths, path) else {
            return Err(DirFault::NoMemory);
        };
        self.finish(alloc, changes)
    }

    ghost clock = { λ d early late tells. clock_of_memory d early late };

    ghost now_allowed = { λ d path tells. now_is_allowed d path };

    ghost short_files = { λ d path bytes tells. files_are_short d path bytes };

    ghost top_is_no_file = { λ d content tells. top_is_none d content };
}

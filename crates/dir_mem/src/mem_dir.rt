ghost use Rattle.std.specs.Prelude.{◌≡◌, ◌≢◌, ◌+◌, ◌<◌, ◌≤◌, [], ◌∷◌, ◌++◌, true, false, None, Err, OnOk, OnErr, IfErr, IsErrOf};
ghost use Rattle.std.specs.List.{remove};
ghost use Rattle.std.specs.Vec.{vec_len, vec_capacity};
ghost use Rattle.dir_mem.specs.Log.{AddsStep, after_changes, calls_of, change_at, state_of};
ghost use Rattle.dir_mem.specs.Sound.{HasNoTop, IsSoundState, LendsOpen, ListsAll, WasFine, is_listed, loans_of};
ghost use Rattle.peg_base.specs.Names.{Names};
ghost use Rattle.dir_disk.specs.Lent.{IsFree};
ghost use Rattle.dir_mem.specs.Effects.{after_break};
ghost use Rattle.dir_disk.specs.State.{after_append};
ghost use Rattle.dir_mem.specs.Failing.{FailsWhen, is_named};
ghost use Rattle.dir_disk.specs.Causes.{Rose};

use crate::effects::{appending, breaking};
use crate::log::{Change, Step, list_path, list_paths};
use dir_disk::DirFault;
use peg_base::Path;
use peg_text::NoMemory;
use std::alloc::Global;

/// The paths that are lent to a child.
#[derive(Drop)]
pub(crate) struct Lending {
    pub input: Path,
    pub output: Path,
}

/// A directory in memory that tells each moment since it was made, and what a stop may leave of it.
///
/// It keeps what each call changed, and no copy of its files for each moment. The calls that are named by
/// [`fail`](MemDir::fail) fail, and so does an append by which a file would pass 2^50 bytes; after such a call each
/// path that it may change has the newest of what a stop may leave there, and `garbage\n` where that is any file.
#[derive(Drop)]
pub struct MemDir {
    pub(crate) steps: Vec<Step>,
    pub(crate) paths: Vec<Path>,
    pub(crate) lent: Vec<Lending>,
    pub(crate) fail: Vec<u64>,
    pub(crate) calls: u64,
    pub(crate) faults: u64,
    ghost counted: { calls ≡ calls_of steps.items },
    ghost sound: { IsSoundState (state_of steps.items) },
    ghost no_top: { HasNoTop (state_of steps.items) },
    ghost listed: { ListsAll paths.items (state_of steps.items) },
    ghost open_ends: { LendsOpen lent.items (state_of steps.items) },
    ghost past: { WasFine paths.items steps.items },
    ghost room: { vec_len steps + vec_len lent ≤ vec_capacity steps },
}

impl MemDir {
    /// Adds a call that made these changes, whose paths are listed.
    pub(crate) fn add_call(&mut self, changes: Vec<Change>) -> Result<(), NoMemory>
        requires sound { IsSoundState (after_changes changes.items (state_of self.old.steps.items)) }
        requires no_top { HasNoTop (after_changes changes.items (state_of self.old.steps.items)) }
        requires listed { ListsAll self.old.paths.items (after_changes changes.items (state_of self.old.steps.items)) }
        requires open_ends { LendsOpen self.old.lent.items (after_changes changes.items (state_of self.old.steps.items)) }
        ensures ok { OnOk result (AddsStep 1 self.old.steps.items self.new.steps.items
            (after_changes changes.items (state_of self.old.steps.items))) }
        ensures err { OnErr result (self.new.steps.items ≡ self.old.steps.items) }
        ensures lent { self.new.lent ≡ self.old.lent }
        ensures fail { self.new.fail ≡ self.old.fail }
        ensures faults { self.new.faults ≡ self.old.faults }
    {
        self.steps.reserve(self.lent.len() + 1)?;
        self.steps.push(Step::Call(changes))?;
        self.calls += 1;
        Ok(())
    }

    /// Adds what is lent, with what that makes of the output; the output is listed.
    pub(crate) fn add_loan(&mut self, change: Change, lending: Lending) -> Result<(), NoMemory>
        requires sound { IsSoundState (after_changes (change ∷ []) (state_of self.old.steps.items)) }
        requires no_top { HasNoTop (after_changes (change ∷ []) (state_of self.old.steps.items)) }
        requires listed { ListsAll self.old.paths.items (after_changes (change ∷ []) (state_of self.old.steps.items)) }
        requires open_ends { LendsOpen (self.old.lent.items ++ lending ∷ [])
            (after_changes (change ∷ []) (state_of self.old.steps.items)) }
        ensures ok { OnOk result (AddsStep 0 self.old.steps.items self.new.steps.items
            (after_changes (change ∷ []) (state_of self.old.steps.items))) }
        ensures lent { OnOk result (self.new.lent.items ≡ self.old.lent.items ++ lending ∷ []) }
        ensures err { OnErr result (self.new.steps.items ≡ self.old.steps.items) }
        ensures err_lent { OnErr result (self.new.lent.items ≡ self.old.lent.items) }
        ensures faults { self.new.faults ≡ self.old.faults }
        ensures fail { self.new.fail ≡ self.old.fail }
    {
        self.lent.reserve(1)?;
        self.steps.reserve(self.lent.len() + 2)?;
        self.steps.push(Step::Between(change))?;
        self.lent.push(lending)?;
        Ok(())
    }

    /// Adds a change between two calls; the path is listed.
    pub(crate) fn add_change(&mut self, change: Change) -> Result<(), NoMemory>
        requires sound { IsSoundState (after_changes (change ∷ []) (state_of self.old.steps.items)) }
        requires no_top { HasNoTop (after_changes (change ∷ []) (state_of self.old.steps.items)) }
        requires listed { ListsAll self.old.paths.items (after_changes (change ∷ []) (state_of self.old.steps.items)) }
        requires open_ends { LendsOpen self.old.lent.items
            (after_changes (change ∷ []) (state_of self.old.steps.items)) }
        ensures ok { OnOk result (AddsStep 0 self.old.steps.items self.new.steps.items
            (after_changes (change ∷ []) (state_of self.old.steps.items))) }
        ensures err { OnErr result (self.new.steps.items ≡ self.old.steps.items) }
        ensures lent { self.new.lent ≡ self.old.lent }
        ensures faults { self.new.faults ≡ self.old.faults }
        ensures fail { self.new.fail ≡ self.old.fail }
    {
        self.steps.reserve(self.lent.len() + 1)?;
        self.steps.push(Step::Between(change)).unwrap();
        Ok(())
    }

    /// Takes a loan off what is lent, with what its end makes of the output. There is room for that since it was lent.
    pub(crate) fn end_at(&mut self, place: usize, change: Change)
        requires within { place < vec_len self.old.lent }
        requires sound { IsSoundState (after_changes (change ∷ []) (state_of self.old.steps.items)) }
        requires no_top { HasNoTop (after_changes (change ∷ []) (state_of self.old.steps.items)) }
        requires listed { ListsAll self.old.paths.items (after_changes (change ∷ []) (state_of self.old.steps.items)) }
        requires open_ends { LendsOpen (remove self.old.lent.items place)
            (after_changes (change ∷ []) (state_of self.old.steps.items)) }
        ensures step { AddsStep 0 self.old.steps.items self.new.steps.items
            (after_changes (change ∷ []) (state_of self.old.steps.items)) }
        ensures lent { self.new.lent.items ≡ remove self.old.lent.items place }
        ensures faults { self.new.faults ≡ self.old.faults }
        ensures fail { self.new.fail ≡ self.old.fail }
    {
        self.lent.remove(place);
        self.steps.push(Step::Between(change)).unwrap();
    }

    /// Lists the paths of these changes.
    fn list(&mut self, alloc: Global, changes: &[Change]) -> Result<(), NoMemory>
        ensures steps { self.new.steps ≡ self.old.steps }
        ensures lent { self.new.lent ≡ self.old.lent }
        ensures calls { self.new.calls ≡ self.old.calls }
        ensures fail { self.new.fail ≡ self.old.fail }
        ensures faults { self.new.faults ≡ self.old.faults }
        ensures listed { OnOk result
            ((path : Names) → is_listed self.new.paths.items path ≡ false → change_at changes.now path ≡ None) }
    {
        list_paths(alloc, &mut self.paths, changes)
    }

    /// Lists the path.
    pub(crate) fn list_one(&mut self, alloc: Global, path: &Path) -> Result<(), NoMemory>
        ensures steps { self.new.steps ≡ self.old.steps }
        ensures lent { self.new.lent ≡ self.old.lent }
        ensures calls { self.new.calls ≡ self.old.calls }
        ensures fail { self.new.fail ≡ self.old.fail }
        ensures faults { self.new.faults ≡ self.old.faults }
        ensures listed { OnOk result (is_listed self.new.paths.items path.now ≡ true) }
    {
        list_path(alloc, &mut self.paths, path)
    }

    /// Whether the next call is one of those that are to fail.
    pub(crate) fn is_due(&self) -> bool
        ensures { result ≡ is_named self.now.fail.items self.now.calls }
    {
        self.fail.contains(&self.calls)
    }

    /// Ends a call that made these changes.
    pub(crate) fn finish(&mut self, alloc: Global, changes: Vec<Change>) -> Result<(), DirFault>
        requires sound { IsSoundState (after_changes changes.items (state_of self.old.steps.items)) }
        requires no_top { HasNoTop (after_changes changes.items (state_of self.old.steps.items)) }
        requires open_ends { LendsOpen self.old.lent.items (after_changes changes.items (state_of self.old.steps.items)) }
        ensures ok { OnOk result (AddsStep 1 self.old.steps.items self.new.steps.items
            (after_changes changes.items (state_of self.old.steps.items))) }
        ensures err { IfErr result (λ fault. fault ≡ DirFault.NoMemory) }
        ensures steps { OnErr result (self.new.steps.items ≡ self.old.steps.items) }
        ensures lent { self.new.lent ≡ self.old.lent }
        ensures fail { self.new.fail ≡ self.old.fail }
        ensures faults { self.new.faults ≡ self.old.faults }
    {
        let Ok(()) = self.list(alloc, &changes) else {
            return Err(DirFault::NoMemory);
        };
        let Ok(()) = self.add_call(changes) else {
            return Err(DirFault::NoMemory);
        };
        Ok(())
    }

    /// Breaks off a call that would have made these changes, at and under one of two paths. It tells why it fails.
    pub(crate) fn break_off(
        &mut self,
        alloc: Global,
        changes: &[Change],
        top: &Path,
        other: &Path,
    ) -> DirFault
        requires sound { IsSoundState (after_changes changes.now (state_of self.old.steps.items)) }
        requires no_top { HasNoTop (after_changes changes.now (state_of self.old.steps.items)) }
        requires free_top { IsFree (loans_of self.old.lent.items) top.now }
        requires free_other { IsFree (loans_of self.old.lent.items) other.now }
        ensures failed { result ≡ DirFault.Failed → AddsStep 1 self.old.steps.items self.new.steps.items
            (after_break top.now other.now (after_changes changes.now (state_of self.old.steps.items)) (state_of self.old.steps.items)) }
        ensures no_memory { result ≡ DirFault.NoMemory → self.new.steps.items ≡ self.old.steps.items }
        ensures lent { self.new.lent ≡ self.old.lent }
        ensures fail { self.new.fail ≡ self.old.fail }
        ensures later { self.old.faults ≤ self.new.faults }
        ensures rose { result ≡ DirFault.Failed → Rose self.old.faults self.new.faults }
        ensures same { result ≡ DirFault.NoMemory → self.new.faults ≡ self.old.faults }
    {
        let Ok(()) = self.list(alloc, changes) else {
            return DirFault::NoMemory;
        };
        let Ok(broken) = breaking(alloc, &self.steps, &self.paths, changes, top, other) else {
            return DirFault::NoMemory;
        };
        let Ok(()) = self.finish(alloc, broken) else {
            return DirFault::NoMemory;
        };
        self.faults = self.faults.saturating_add(1);
        DirFault::Failed
    }

    /// Breaks off an append. What a stop may leave doesn't hang on the bytes.
    pub(crate) fn break_append(&mut self, alloc: Global, path: &Path) -> DirFault
        requires named { path.now ≢ [] }
        requires free { IsFree (loans_of self.old.lent.items) path.now }
        ensures failed { result ≡ DirFault.Failed → AddsStep 1 self.old.steps.items self.new.steps.items
            (after_break path.now path.now (after_append path.now [] (state_of self.old.steps.items)) (state_of self.old.steps.items)) }
        ensures no_memory { result ≡ DirFault.NoMemory → self.new.steps.items ≡ self.old.steps.items }
        ensures lent { self.new.lent ≡ self.old.lent }
        ensures fail { self.new.fail ≡ self.old.fail }
        ensures later { self.old.faults ≤ self.new.faults }
        ensures rose { result ≡ DirFault.Failed → Rose self.old.faults self.new.faults }
        ensures same { result ≡ DirFault.NoMemory → self.new.faults ≡ self.old.faults }
    {
        let Ok(changes) = appending(alloc, &self.steps, path, &[]) else {
            return DirFault::NoMemory;
        };
        self.break_off(alloc, &changes, path, path)
    }

    /// Counts a call that changes no file.
    pub(crate) fn look(&mut self, alloc: Global) -> Result<(), DirFault>
        ensures ok { OnOk result (AddsStep 1 self.old.steps.items self.new.steps.items (state_of self.old.steps.items)) }
        ensures failed { IsErrOf result DirFault.Failed
            → AddsStep 1 self.old.steps.items self.new.steps.items (state_of self.old.steps.items) }
        ensures no_memory { IsErrOf result DirFault.NoMemory → self.new.steps.items ≡ self.old.steps.items }
        ensures lent { self.new.lent ≡ self.old.lent }
        ensures fail { self.new.fail ≡ self.old.fail }
        ensures fails { FailsWhen (is_named self.old.fail.items self.old.calls) result }
        ensures later { self.old.faults ≤ self.new.faults }
        ensures calm { OnOk result (self.new.faults ≡ self.old.faults) }
        ensures rose { IsErrOf result DirFault.Failed → Rose self.old.faults self.new.faults }
        ensures same { IsErrOf result DirFault.NoMemory → self.new.faults ≡ self.old.faults }
    {
        let due = self.is_due();
        let Ok(()) = self.add_call(Vec::new(alloc)) else {
            return Err(DirFault::NoMemory);
        };
        if due {
            self.faults = self.faults.saturating_add(1);
            return Err(DirFault::Failed);
        }
        Ok(())
    }
}

ghost use Rattle.std.specs.Prelude.{◌≡◌, ◌+◌, ◌^◌, ◌≤◌, ◌||◌, not, length, IfOk, IfSome, OnOk, IsErrOf};

use crate::mem_site::MemSite;
use crate::roles::Roles;
use dir_disk::{Dir, DirFault};
use peg_base::Path;
use std::alloc::Global;

impl<R: Roles + Drop> Dir for MemSite<R> {
    ghost use Rattle.std.specs.Prelude.{ℕ, List};
    ghost use Rattle.dir_disk.specs.Causes.{HasCause};
    ghost use Rattle.dir_disk.specs.Lent.{IsFree, IsNoOutput};
    ghost use Rattle.dir_disk.specs.Moments.{files};
    ghost use Rattle.dir_disk.specs.State.{bytes_of};
    ghost use Rattle.dir_disk.specs.Calls.{Look, Append, Move, Remove, Settle, Does, HasFile, IsLength, IsRead, CanAppend, CanMove};
    ghost use Rattle.dir_disk.specs.Children.{Given, Seen, loans_of};
    ghost use Rattle.dir_mem.specs.Failing.{FailsWhen, HasNewest};
    ghost use Rattle.dir_mem.specs.Memory.{faults_of, has_room, is_due, told_of};
    ghost use Rattle.dir_mem.specs.Laws.{clock_of_memory, now_is_allowed, files_are_short, top_is_none};
    ghost use Rattle.site_mem.specs.Memory.{beside_dir};
    ghost use Rattle.site_mem.specs.Voices.{Voiced};
    ghost use Rattle.site_mem.specs.Plans.{Planned};

    ghost tells = { Unit {0} };

    ghost told = { λ site. told_of site.dir };

    ghost lent = { λ site. loans_of site.seen.running };

    ghost faults = { λ site. faults_of site.dir };

    ghost Beside = { Seen × List Given × Voiced × Planned × List ℕ };

    ghost beside = { λ site. beside_dir site };

    fn size(&mut self, alloc: Global, path: &Path) -> Result<Option<u64>, DirFault>
        requires { IsNoOutput (loans_of self.old.seen.running) path.now }
        ensures length { IfOk result (λ size. IsLength (files (told_of self.old.dir) path.now).now size) }
        ensures small { IfOk result (λ size. IfSome size (λ n. n ≤ 2 ^ 50)) }
        ensures call { Does (Look path.now) (told_of self.old.dir) (told_of self.new.dir) result }
        ensures lent { loans_of self.new.seen.running ≡ loans_of self.old.seen.running }
        ensures beside { beside_dir self.new ≡ beside_dir self.old }
        ensures cause { HasCause DirFault.Failed (faults_of self.old.dir) (faults_of self.new.dir) result }
        ensures no_memory { IsErrOf result DirFault.NoMemory → faults_of self.new.dir ≡ faults_of self.old.dir }

        // It fails just where it is told.
        ensures fails { FailsWhen (is_due self.old.dir) result }
    {
        self.dir.size(alloc, path)
    }

    fn read(&mut self, alloc: Global, path: &Path, from: u64, max: u32) -> Result<Vec<u8>, DirFault>
        requires lent { IsNoOutput (loans_of self.old.seen.running) path.now }
        requires there { HasFile (files (told_of self.old.dir)) path.now }
        ensures bytes { IfOk result (λ bytes. IsRead (files (told_of self.old.dir) path.now).now from max bytes.items) }
        ensures few { IfOk result (λ bytes. length bytes.items ≤ max) }
        ensures call { Does (Look path.now) (told_of self.old.dir) (told_of self.new.dir) result }
        ensures lent { loans_of self.new.seen.running ≡ loans_of self.old.seen.running }
        ensures beside { beside_dir self.new ≡ beside_dir self.old }
        ensures cause { HasCause DirFault.Failed (faults_of self.old.dir) (faults_of self.new.dir) result }
        ensures no_memory { IsErrOf result DirFault.NoMemory → faults_of self.new.dir ≡ faults_of self.old.dir }

        // It fails just where it is told.
        ensures fails { FailsWhen (is_due self.old.dir) result }
    {
        self.dir.read(alloc, path, from, max)
    }

    fn append(&mut self, alloc: Global, path: &Path, bytes: &[u8]) -> Result<(), DirFault>
        requires lent { IsFree (loans_of self.old.seen.running) path.now }
        requires can { CanAppend (files (told_of self.old.dir)) path.now }
        ensures call { Does (Append path.now bytes.now) (told_of self.old.dir) (told_of self.new.dir) result }
        ensures fits { OnOk result (length (bytes_of (files (told_of self.old.dir) path.now).now) + length bytes.now ≤ 2 ^ 50) }
        ensures lent { loans_of self.new.seen.running ≡ loans_of self.old.seen.running }
        ensures beside { beside_dir self.new ≡ beside_dir self.old }
        ensures cause { HasCause DirFault.Failed (faults_of self.old.dir) (faults_of self.new.dir) result }
        ensures no_memory { IsErrOf result DirFault.NoMemory → faults_of self.new.dir ≡ faults_of self.old.dir }

        // It fails just where it is told, and where the file would pass 2^50 bytes.
        ensures fails { FailsWhen (is_due self.old.dir || not (has_room (files (told_of self.old.dir)) path.now bytes.now)) result }

        // Where it fails, each path that it may change has the newest of what a stop may leave there.
        ensures newest { IsErrOf result DirFault.Failed → HasNewest (Append path.now bytes.now) (files (told_of self.new.dir)) }
    {
        self.dir.append(alloc, path, bytes)
    }

    fn move_tree(&mut self, alloc: Global, from: &Path, to: &Path) -> Result<(), DirFault>
        requires lent_from { IsFree (loans_of self.old.seen.running) from.now }
        requires lent_to { IsFree (loans_of self.old.seen.running) to.now }
        requires can { CanMove (files (told_of self.old.dir)) from.now to.now }
        ensures call { Does (Move from.now to.now) (told_of self.old.dir) (told_of self.new.dir) result }
        ensures lent { loans_of self.new.seen.running ≡ loans_of self.old.seen.running }
        ensures beside { beside_dir self.new ≡ beside_dir self.old }
        ensures cause { HasCause DirFault.Failed (faults_of self.old.dir) (faults_of self.new.dir) result }
        ensures no_memory { IsErrOf result DirFault.NoMemory → faults_of self.new.dir ≡ faults_of self.old.dir }

        // It fails just where it is told.
        ensures fails { FailsWhen (is_due self.old.dir) result }

        // Where it fails, each path that it may change has the newest of what a stop may leave there.
        ensures newest { IsErrOf result DirFault.Failed → HasNewest (Move from.now to.now) (files (told_of self.new.dir)) }
    {
        self.dir.move_tree(alloc, from, to)
    }

    fn remove_tree(&mut self, alloc: Global, path: &Path) -> Result<(), DirFault>
        requires { IsFree (loans_of self.old.seen.running) path.now }
        ensures call { Does (Remove path.now) (told_of self.old.dir) (told_of self.new.dir) result }
        ensures lent { loans_of self.new.seen.running ≡ loans_of self.old.seen.running }
        ensures beside { beside_dir self.new ≡ beside_dir self.old }
        ensures cause { HasCause DirFault.Failed (faults_of self.old.dir) (faults_of self.new.dir) result }
        ensures no_memory { IsErrOf result DirFault.NoMemory → faults_of self.new.dir ≡ faults_of self.old.dir }

        // It fails just where it is told.
        ensures fails { FailsWhen (is_due self.old.dir) result }

        // Where it fails, each path that it may change has the newest of what a stop may leave there.
        ensures newest { IsErrOf result DirFault.Failed → HasNewest (Remove path.now) (files (told_of self.new.dir)) }
    {
        self.dir.remove_tree(alloc, path)
    }

    fn settle(&mut self, alloc: Global, path: &Path) -> Result<(), DirFault>
        requires { IsFree (loans_of self.old.seen.running) path.now }
        ensures call { Does (Settle path.now) (told_of self.old.dir) (told_of self.new.dir) result }
        ensures lent { loans_of self.new.seen.running ≡ loans_of self.old.seen.running }
        ensures beside { beside_dir self.new ≡ beside_dir self.old }
        ensures cause { HasCause DirFault.Failed (faults_of self.old.dir) (faults_of self.new.dir) result }
        ensures no_memory { IsErrOf result DirFault.NoMemory → faults_of self.new.dir ≡ faults_of self.old.dir }

        // It fails just where it is told.
        ensures fails { FailsWhen (is_due self.old.dir) result }

        // Where it fails, each path that it may change has the newest of what a stop may leave there.
        ensures newest { IsErrOf result DirFault.Failed → HasNewest (Settle path.now) (files (told_of self.new.dir)) }
    {
        self.dir.settle(alloc, path)
    }

    ghost clock = { λ site early late tells. clock_of_memory site.dir early late };

    ghost now_allowed = { λ site path tells. now_is_allowed site.dir path };

    ghost short_files = { λ site path bytes tells. files_are_short site.dir path bytes };

    ghost top_is_no_file = { λ site content tells. top_is_none site.dir content };
}

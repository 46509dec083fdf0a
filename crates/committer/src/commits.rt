ghost use Rattle.std.specs.Prelude.{◌≡◌, ◌+◌, ◌<◌, ◌≤◌, length, OnOk};
ghost use Rattle.dir_disk.specs.Causes.{HasCause};
ghost use Rattle.dir_disk.specs.State.{after_move};
ghost use Rattle.dir_disk.specs.Moments.{Both, Through, clock, files};
ghost use Rattle.dir_disk.specs.Calls.{HasFile, IsOpen, CanMove};
ghost use Rattle.dir_disk.specs.Lent.{IsFree};
ghost use Rattle.committer.specs.Paths.{part_of, task_part_of, attempt_of, output_of, committed_of, committed_output_of};
ghost use Rattle.committer.specs.Faults.{calls_of};
ghost use Rattle.committer.specs.Commits.{HasNoFile, HasShortPaths, StandsBeside, CanCommit, Commits, IsCommitted, IsUnsealed, IsMovedUpTo};

use crate::fault::CommitFault;
use crate::paths::{
    attempt_path, part_path, success_path, task_part_path, task_path, temporary_path,
};
use crate::steps::seal;
use dir_disk::Dir;
use peg_base::{Attempt, Path};
use std::alloc::Global;

/// Moves all at and under a path to another one.
fn move_all<D: Dir>(alloc: Global, dir: &mut D, from: &Path, to: &Path) -> Result<(), CommitFault>
    requires lent_from { IsFree (D.lent dir.old) from.now }
    requires lent_to { IsFree (D.lent dir.old) to.now }
    requires can { D.tells → CanMove (files (D.told dir.old)) from.now to.now }
    ensures steps { D.tells
        → Through (Both (StandsBeside from.now to.now (files (D.told dir.old)))) (D.told dir.old) (D.told dir.new) }
    ensures moved { D.tells
        → OnOk result (files (D.told dir.new) ≡ after_move from.now to.now (files (D.told dir.old))) }
    ensures calls { D.tells → clock (D.told dir.new) ≡ clock (D.told dir.old) + calls_of result }
    ensures lent { D.lent dir.new ≡ D.lent dir.old }
    ensures beside { D.beside dir.new ≡ D.beside dir.old }
    ensures cause { HasCause CommitFault.Disk (D.faults dir.old) (D.faults dir.new) result }
{
    dir.move_tree(alloc, from, to)?;
    Ok(())
}

/// Makes an attempt of a task of this folder the one whose output counts: its folder is moved to the task's. After a
/// refusal each file of these two folders may be in either, in both or in none. It is one call of the directory.
pub fn commit_task<D: Dir>(
    alloc: Global,
    dir: &mut D,
    folder: &Path,
    attempt: &Attempt,
) -> Result<(), CommitFault>
    requires short { length folder.now < 7 }
    requires lent_attempt { IsFree (D.lent dir.old) (attempt_of folder.now attempt.now) }
    requires lent_task { IsFree (D.lent dir.old) (committed_of folder.now attempt.now) }
    requires output { D.tells → HasFile (files (D.told dir.old)) (output_of folder.now attempt.now) }
    requires short_paths { D.tells
        → HasShortPaths (attempt_of folder.now attempt.now) (files (D.told dir.old)) }
    requires empty { D.tells
        → HasNoFile (committed_of folder.now attempt.now) (files (D.told dir.old)) }
    requires is_open { D.tells
        → IsOpen (files (D.told dir.old)) (committed_of folder.now attempt.now) }
    ensures steps { let from = attempt_of folder.now attempt.now in
        let to = committed_of folder.now attempt.now in D.tells
        → Through (Both (StandsBeside from to (files (D.told dir.old)))) (D.told dir.old) (D.told dir.new) }
    ensures moved { let from = attempt_of folder.now attempt.now in
        let to = committed_of folder.now attempt.now in D.tells
        → OnOk result (files (D.told dir.new) ≡ after_move from to (files (D.told dir.old))) }
    ensures output { let output = committed_output_of folder.now attempt.now in D.tells
        → OnOk result ((files (D.told dir.new) output).now
        ≡ (files (D.told dir.old) (output_of folder.now attempt.now)).now) }
    ensures calls { D.tells → clock (D.told dir.new) ≡ clock (D.told dir.old) + calls_of result }
    ensures lent { D.lent dir.new ≡ D.lent dir.old }
    ensures beside { D.beside dir.new ≡ D.beside dir.old }
    ensures cause { HasCause CommitFault.Disk (D.faults dir.old) (D.faults dir.new) result }
{
    let from = attempt_path(alloc, folder, attempt)?;
    let to = task_path(alloc, folder, attempt.task.phase, attempt.task.task)?;
    move_all(alloc, dir, &from, &to)
}

/// Moves a part from where the commit of its task left it to its place in the folder.
fn move_part<D: Dir>(
    alloc: Global,
    dir: &mut D,
    folder: &Path,
    part: u32,
) -> Result<(), CommitFault>
    requires short { length folder.now < 6 }
    requires lent { IsFree (D.lent dir.old) folder.now }
    requires can { D.tells
        → CanMove (files (D.told dir.old)) (task_part_of folder.now part) (part_of folder.now part) }
    ensures steps { let from = task_part_of folder.now part in let to = part_of folder.now part in D.tells
        → Through (Both (StandsBeside from to (files (D.told dir.old)))) (D.told dir.old) (D.told dir.new) }
    ensures moved { let from = task_part_of folder.now part in let to = part_of folder.now part in D.tells
        → OnOk result (files (D.told dir.new) ≡ after_move from to (files (D.told dir.old))) }
    ensures lent { D.lent dir.new ≡ D.lent dir.old }
    ensures beside { D.beside dir.new ≡ D.beside dir.old }
    ensures cause { HasCause CommitFault.Disk (D.faults dir.old) (D.faults dir.new) result }
{
    let from = task_part_path(alloc, folder, part)?;
    let to = part_path(alloc, folder, part)?;
    move_all(alloc, dir, &from, &to)
}

/// Moves all parts to their places in the folder, which isn't whole before and after.
fn move_parts<D: Dir>(
    alloc: Global,
    dir: &mut D,
    folder: &Path,
    reducers: u32,
) -> Result<(), CommitFault>
    requires short { length folder.now < 6 }
    requires few { reducers ≤ 100000 }
    requires lent { IsFree (D.lent dir.old) folder.now }
    requires can { D.tells → CanCommit folder.now reducers (files (D.told dir.old)) }
    ensures steps { D.tells
        → Through (Both (IsUnsealed folder.now (files (D.told dir.old)))) (D.told dir.old) (D.told dir.new) }
    ensures moved { D.tells
        → OnOk result (IsMovedUpTo folder.now reducers (files (D.told dir.old)) (files (D.told dir.new))) }
    ensures lent { D.lent dir.new ≡ D.lent dir.old }
    ensures beside { D.beside dir.new ≡ D.beside dir.old }
    ensures cause { HasCause CommitFault.Disk (D.faults dir.old) (D.faults dir.new) result }
{
    for part in 0..reducers {
        move_part(alloc, dir, folder, part)?;
    }
    Ok(())
}

/// Makes a job's folder whole: moves each reduce task's part to its place, removes what the job needed, settles the
/// folder, and makes `_SUCCESS` then. After a refusal each image has the folder not whole, or whole with all its bytes.
pub fn commit_job<D: Dir>(
    alloc: Global,
    dir: &mut D,
    folder: &Path,
    reducers: u32,
) -> Result<(), CommitFault>
    requires short { length folder.now < 6 }
    requires few { reducers ≤ 100000 }
    requires lent { IsFree (D.lent dir.old) folder.now }
    requires can { D.tells → CanCommit folder.now reducers (files (D.told dir.old)) }
    ensures steps { D.tells
        → Through (Commits folder.now reducers (files (D.told dir.old))) (D.told dir.old) (D.told dir.new) }
    ensures committed { D.tells
        → OnOk result (IsCommitted folder.now reducers (files (D.told dir.old)) (files (D.told dir.new))) }
    ensures lent { D.lent dir.new ≡ D.lent dir.old }
    ensures beside { D.beside dir.new ≡ D.beside dir.old }
    ensures cause { HasCause CommitFault.Disk (D.faults dir.old) (D.faults dir.new) result }
{
    let temporary = temporary_path(alloc, folder)?;
    let success = success_path(alloc, folder)?;
    move_parts(alloc, dir, folder, reducers)?;
    dir.remove_tree(alloc, &temporary)?;
    seal(alloc, dir, folder, &success)
}

ghost use Rattle.std.specs.Prelude.{◌≡◌, ◌≤◌, ◌&&◌, [], length, not, OnErr, OnOk};
ghost use Rattle.dir_disk.specs.Causes.{HasCause};
ghost use Rattle.dir_disk.specs.Moments.{files};
ghost use Rattle.dir_disk.specs.Children.{Child, Ends, Leaves};
ghost use Rattle.task_core.specs.Board.{End, is_success, IsBusy, NoneDead, after, becomes_done, tried_at};
ghost use Rattle.job.specs.Children.{AreChildrenOf};
ghost use Rattle.job.specs.Standing.{HasWork};
ghost use Rattle.job.specs.Going.{IsExact, Turn, has_dead, Waiting, Working};
ghost use Rattle.job.specs.Turned.{Moves};

use crate::delivery::Delivery;
use crate::tasks::Tasks;
use committer::CommitFault;
use dir_disk::{Ended, Site};
use std::alloc::Global;
use task_core::Attempting;

/// Whether a child has done its work.
fn succeeded(ended: &Ended) -> bool
    ensures { result ≡ is_success ended.now.status }
{
    ended.status == 0
}

/// Whether no task is dead.
fn is_alive<A: Attempting>(attempts: &A) -> bool
    ensures { result ≡ not (has_dead (A.board attempts.now).tasks) }
{
    attempts.doomed().is_none()
}

/// A child that has ended, and whether its task became done by it.
#[derive(Drop)]
struct Left {
    /// The end of the child.
    ended: Ended,
    /// Whether it was the first success of its task.
    first: bool,
}

/// Whether an attempt that has ended is to be committed: its task became done by it, and no task is dead.
fn is_due<A: Attempting>(attempts: &A, left: &Left) -> bool
    ensures { result ≡ (left.now.first && not (has_dead (A.board attempts.now).tasks)) }
{
    left.first && is_alive(attempts)
}

/// Waits for a child, and takes its end down.
fn take_end<S: Site, A: Attempting, V: Delivery>(
    site: &mut S,
    tasks: &Tasks<V>,
    attempts: &mut A,
) -> Left
    requires some { 1 ≤ length (S.seen site.old).running }
    requires fits { AreChildrenOf tasks.now (A.board attempts.old) (S.seen site.old).running }
    ensures ended { (child : Child) × Ends result.ended.attempt result.ended.status child (S.seen site.old) (S.seen site.new)
        × (S.tells → Leaves S.gives child result.ended.status (S.told site.old) (S.told site.new)) }
    ensures step { A.board attempts.new
        ≡ after (A.board attempts.old) (End result.ended.attempt.task.task result.ended.attempt.number result.ended.status) }
    ensures first { result.first
        ≡ becomes_done (tried_at (A.board attempts.old).tasks result.ended.attempt.task.task) (is_success result.ended.status) }
    ensures given { S.tells → S.given site.new ≡ S.given site.old }
    ensures faults { S.faults site.new ≡ S.faults site.old }
    ensures said { S.said site.new ≡ S.said site.old }
    ensures says { S.says site.new ≡ S.says site.old }
    ensures say_faults { S.say_faults site.new ≡ S.say_faults site.old }
{
    let ended = site.reap();
    let first = attempts.end(
        ended.attempt.task.task,
        ended.attempt.number,
        succeeded(&ended),
    );
    Left { ended, first }
}

/// Waits for a child, and commits its attempt where that succeeded and no task is dead.
pub(crate) fn end_one<S: Site, A: Attempting, V: Delivery>(
    alloc: Global,
    site: &mut S,
    tasks: &Tasks<V>,
    attempts: &mut A,
) -> Result<(), CommitFault>
    requires some { 1 ≤ length (S.seen site.old).running }
    requires busy { IsBusy A.may (A.board attempts.old) }
    requires fits { AreChildrenOf tasks.now (A.board attempts.old) (S.seen site.old).running }
    requires stands { S.tells → NoneDead (A.board attempts.old).tasks
        → HasWork tasks.now S.gives (files (S.told site.old)) (A.board attempts.old) (S.seen site.old).running }
    ensures turn { Turn A.may Working (IsExact tasks.now.home result) S.tells tasks.now
        (A.board attempts.old) (A.board attempts.new) (S.seen site.old) (S.seen site.new)
        (S.given site.old) (S.given site.new) (S.told site.old) (S.told site.new) }
    ensures stands { S.tells → OnOk result (NoneDead (A.board attempts.new).tasks
        → HasWork tasks.now S.gives (files (S.told site.new)) (A.board attempts.new) (S.seen site.new).running) }
    ensures moves { Moves 0
        (A.board attempts.old) (A.board attempts.new) (S.seen site.old) (S.seen site.new) }
    ensures none_dead { OnErr result (NoneDead (A.board attempts.new).tasks) }
    ensures said { S.said site.new ≡ S.said site.old }
    ensures says { S.says site.new ≡ S.says site.old }
    ensures say_faults { S.say_faults site.new ≡ S.say_faults site.old }
    ensures cause { HasCause CommitFault.Disk (S.faults site.old) (S.faults site.new) result }
{
    let left = take_end(site, tasks, attempts);
    if !is_due(attempts, &left) {
        return Ok(());
    }
    tasks.deliver(alloc, site, &left.ended.attempt)
}

/// Waits for each child that runs, and commits nothing.
pub(crate) fn reap_rest<S: Site, A: Attempting, V: Delivery>(
    site: &mut S,
    tasks: &Tasks<V>,
    attempts: &mut A,
)
    requires { AreChildrenOf tasks.now (A.board attempts.old) (S.seen site.old).running }
    ensures turn { Turn A.may Waiting (Unit {0}) S.tells tasks.now
        (A.board attempts.old) (A.board attempts.new) (S.seen site.old) (S.seen site.new)
        (S.given site.old) (S.given site.new) (S.told site.old) (S.told site.new) }
    ensures none { (S.seen site.new).running ≡ [] }
    ensures faults { S.faults site.new ≡ S.faults site.old }
    ensures said { S.said site.new ≡ S.said site.old }
    ensures says { S.says site.new ≡ S.says site.old }
    ensures say_faults { S.say_faults site.new ≡ S.say_faults site.old }
{
    while attempts.running() > 0 {
        take_end(site, tasks, attempts);
    }
}

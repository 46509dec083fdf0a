ghost use Rattle.std.specs.Prelude.{◌≡◌, ◌+◌, ◌≤◌, IfOk, OnErr, OnOk};
ghost use Rattle.dir_disk.specs.Causes.{HasCause};
ghost use Rattle.dir_disk.specs.Moments.{files};
ghost use Rattle.task_core.specs.Board.{IsBusy, NoneDead, running_of};
ghost use Rattle.job.specs.Children.{AreChildrenOf};
ghost use Rattle.job.specs.Standing.{HasWork};
ghost use Rattle.job.specs.Failing.{made_in};
ghost use Rattle.job.specs.Going.{IsExact, Turn, Working};
ghost use Rattle.job.specs.Turned.{IsOver, TurnedSo};

use crate::begin::start_one;
use crate::delivery::Delivery;
use crate::finish::end_one;
use crate::tasks::Tasks;
use committer::CommitFault;
use dir_disk::Site;
use std::alloc::Global;
use task_core::Attempting;

/// What one turn of a phase was.
#[derive(Clone, Copy, Debug, PartialEq, Eq)]
pub(crate) enum Turned {
    /// An attempt was made.
    Started,
    /// A child ended.
    Ended,
    /// Nothing runs and nothing may be started.
    Rests,
}

/// Makes the attempt that may be made, and else waits for a child.
fn take_turn<S: Site, A: Attempting, V: Delivery>(
    alloc: Global,
    site: &mut S,
    tasks: &Tasks<V>,
    attempts: &mut A,
) -> Result<Turned, CommitFault>
    requires fits { AreChildrenOf tasks.now (A.board attempts.old) (S.seen site.old).running }
    requires stands { S.tells → NoneDead (A.board attempts.old).tasks
        → HasWork tasks.now S.gives (files (S.told site.old)) (A.board attempts.old) (S.seen site.old).running }
    ensures turn { Turn A.may Working (IsExact tasks.now.home result) S.tells tasks.now
        (A.board attempts.old) (A.board attempts.new) (S.seen site.old) (S.seen site.new)
        (S.given site.old) (S.given site.new) (S.told site.old) (S.told site.new) }
    ensures turned { IfOk result (λ turned. TurnedSo A.may turned
        (A.board attempts.old) (A.board attempts.new) (S.seen site.old) (S.seen site.new)) }
    ensures stands { S.tells → OnOk result (NoneDead (A.board attempts.new).tasks
        → HasWork tasks.now S.gives (files (S.told site.new)) (A.board attempts.new) (S.seen site.new).running) }
    ensures none_dead { OnErr result (NoneDead (A.board attempts.new).tasks) }
    ensures said { S.said site.new ≡ S.said site.old }
    ensures says { S.says site.new ≡ S.says site.old }
    ensures say_faults { S.say_faults site.new ≡ S.say_faults site.old }
    ensures cause { HasCause CommitFault.Disk (S.faults site.old) (S.faults site.new) result }
{
    if let Some((task, number)) = attempts.ready() {
        start_one(alloc, site, tasks, attempts, task, number)?;
        return Ok(Turned::Started);
    }
    if attempts.running() == 0 {
        return Ok(Turned::Rests);
    }
    end_one(alloc, site, tasks, attempts)?;
    Ok(Turned::Ended)
}

/// Takes turns until nothing runs and nothing may be started, and answers the number of attempts.
pub(crate) fn run_tasks<S: Site, A: Attempting, V: Delivery>(
    alloc: Global,
    site: &mut S,
    tasks: &Tasks<V>,
    attempts: &mut A,
) -> Result<u32, CommitFault>
    requires fits { AreChildrenOf tasks.now (A.board attempts.old) (S.seen site.old).running }
    requires stands { S.tells → NoneDead (A.board attempts.old).tasks
        → HasWork tasks.now S.gives (files (S.told site.old)) (A.board attempts.old) (S.seen site.old).running }
    ensures turn { Turn A.may Working (IsExact tasks.now.home result) S.tells tasks.now
        (A.board attempts.old) (A.board attempts.new) (S.seen site.old) (S.seen site.new)
        (S.given site.old) (S.given site.new) (S.told site.old) (S.told site.new) }
    ensures over { IfOk result (λ made. IsOver A.may made (A.board attempts.new) (S.seen site.old) (S.seen site.new)) }
    ensures stands { S.tells → OnOk result (NoneDead (A.board attempts.new).tasks
        → HasWork tasks.now S.gives (files (S.told site.new)) (A.board attempts.new) (S.seen site.new).running) }
    ensures none_dead { OnErr result (NoneDead (A.board attempts.new).tasks) }
    ensures said { S.said site.new ≡ S.said site.old }
    ensures says { S.says site.new ≡ S.says site.old }
    ensures say_faults { S.say_faults site.new ≡ S.say_faults site.old }
    ensures cause { HasCause CommitFault.Disk (S.faults site.old) (S.faults site.new) result }
{
    let mut made = 0;
    loop {
        match take_turn(alloc, site, tasks, attempts)? {
            Turned::Started => made += 1,
            Turned::Ended => {}
            Turned::Rests => return Ok(made),
        }
    }
}

ghost use Rattle.std.specs.Prelude.{◌≡◌, ℕ, ◌<◌, ◌≤◌, [], length, OnOk};
ghost use Rattle.dir_disk.specs.Causes.{HasCause};
ghost use Rattle.dir_disk.specs.Moments.{files};
ghost use Rattle.job.specs.Work.{Keeps, task_id, text_at, work_of};
ghost use Rattle.job.specs.Standing.{AllMade, CanRun, HasWork};
ghost use Rattle.job.specs.Children.{AreChildrenOf};
ghost use Rattle.task_core.specs.Board.{IsRule, MayStart, NoneDead, Rule, fresh};
ghost use Rattle.job.specs.Failing.{done_of, gained};
ghost use Rattle.job.specs.Ran.{Judged, Ran, TellsOf};

use crate::delivery::{Commit, Delivery};
use crate::fault::JobFault;
use crate::finish::reap_rest;
use crate::tasks::Tasks;
use crate::turns::run_tasks;
use dir_disk::Site;
use peg_base::{Path, Phase, TaskId, Words};
use std::alloc::Global;
use task_core::{Attempting, Attempts};

/// The answer of a phase in which nothing runs any more.
fn judge<A: Attempting, V: Delivery>(
    job: Path,
    tasks: &Tasks<V>,
    attempts: &A,
    made: u32,
) -> Result<u32, JobFault>
    ensures { Judged job tasks.now.phase (A.board attempts.now) made result }
{
    match attempts.doomed() {
        Some(task) => Err(JobFault::TaskFailed {
            task: TaskId {
                job,
                phase: tasks.phase,
                task,
            },
        }),
        None => Ok(made),
    }
}

/// Runs tasks over a machine of attempts, and answers how many attempts were made.
pub(crate) fn run_over<S: Site, A: Attempting, V: Delivery>(
    alloc: Global,
    site: &mut S,
    tasks: &Tasks<V>,
    attempts: &mut A,
) -> Result<u32, JobFault>
    requires slots { 1 ≤ (A.board attempts.old).slots }
    requires none { (S.seen site.old).running ≡ [] }
    requires alive { NoneDead (A.board attempts.old).tasks }
    requires fits { AreChildrenOf tasks.now (A.board attempts.old) (S.seen site.old).running }
    requires stands { S.tells
        → HasWork tasks.now S.gives (files (S.told site.old)) (A.board attempts.old) (S.seen site.old).running }
    // No child runs.
    ensures none { (S.seen site.new).running ≡ [] }
    // The log grew by a run of the machine, whose state the answer tells.
    ensures ran { Ran A.may S.tells tasks.now (A.board attempts.old) (text_at tasks.now (files (S.told site.old)))
        (S.seen site.old) (S.seen site.new) (S.given site.old) (S.given site.new) (S.told site.old) (S.told site.new) result }
    // Each task has what its words give for its input.
    ensures made { S.tells → OnOk result (AllMade tasks.now S.gives (files (S.told site.old)) (files (S.told site.new))) }
    // At every moment all is as at entry but in the folders of the tasks and of their attempts.
    ensures keeps { S.tells → Keeps tasks.now (S.told site.old) (S.told site.new) }
    ensures said { S.said site.new ≡ S.said site.old }
    ensures says { S.says site.new ≡ S.says site.old }
    ensures say_faults { S.say_faults site.new ≡ S.say_faults site.old }
    ensures cause { HasCause JobFault.Disk (S.faults site.old) (S.faults site.new) result }
{
    let job = tasks.job(alloc)?;
    match run_tasks(alloc, site, tasks, attempts) {
        Ok(made) => judge(job, tasks, attempts, made),
        Err(fault) => {
            reap_rest(site, tasks, attempts);
            Err(fault.into())
        }
    }
}

/// Runs the tasks of one phase of a job over a machine of attempts in which each task is untried, and answers how many
/// attempts were made.
///
/// `folder` is the job's, `words` are what each child runs, and `attempts` says which attempt of which of the `tasks`,
/// at most 524,288, is started where fewer than `slots` children run. What is committed and what a refusal leaves is
/// as `run_phase` tells.
pub fn run_phase_over<S: Site, A: Attempting>(
    alloc: Global,
    site: &mut S,
    folder: &Path,
    phase: Phase,
    words: &Words,
    tasks: u32,
    slots: u32,
    attempts: &mut A,
) -> Result<u32, JobFault>
    requires fresh { A.board attempts.old ≡ fresh tasks slots }
    requires few { tasks ≤ 524288 }
    requires slots { 1 ≤ slots }
    requires short { length folder.now < 6 }
    requires words { 1 ≤ length words.now }
    requires none { (S.seen site.old).running ≡ [] }
    requires can { S.tells → CanRun (work_of folder.now phase words.now tasks) (files (S.told site.old)) }
    // No child runs.
    ensures none { (S.seen site.new).running ≡ [] }
    // The log grew by a run of the machine, whose state the answer tells.
    ensures ran { let work = work_of folder.now phase words.now tasks in
        Ran A.may S.tells work (fresh tasks slots) (text_at work (files (S.told site.old))) (S.seen site.old) (S.seen site.new)
        (S.given site.old) (S.given site.new) (S.told site.old) (S.told site.new) result }
    // The entries of the log tell the answer by themselves.
    ensures tells { TellsOf folder.now phase tasks (gained (S.seen site.old).log (S.seen site.new).log) result }
    // Each task has what its words give for its input.
    ensures made { let work = work_of folder.now phase words.now tasks in S.tells
        → OnOk result (AllMade work S.gives (files (S.told site.old)) (files (S.told site.new))) }
    // At every moment all is as at entry but in the folders of the tasks and of their attempts.
    ensures keeps { S.tells → Keeps (work_of folder.now phase words.now tasks) (S.told site.old) (S.told site.new) }
    ensures said { S.said site.new ≡ S.said site.old }
    ensures says { S.says site.new ≡ S.says site.old }
    ensures say_faults { S.say_faults site.new ≡ S.say_faults site.old }
    ensures cause { HasCause JobFault.Disk (S.faults site.old) (S.faults site.new) result }
{
    let work = Tasks {
        folder,
        phase,
        words,
        count: tasks,
        delivery: &Commit,
    };
    run_over(alloc, site, &work, attempts)
}

/// How the phases of a job are run.
pub trait Phases {
    /// Which attempt of which task may be started.
    ghost may: { Rule };

    /// Runs the tasks of one phase of a job, and answers how many attempts were made.
    fn run<S: Site>(
        &self,
        alloc: Global,
        site: &mut S,
        folder: &Path,
        phase: Phase,
        words: &Words,
        tasks: u32,
        slots: u32,
    ) -> Result<u32, JobFault>
        requires few { tasks ≤ 524288 }
        requires slots { 1 ≤ slots }
        requires short { length folder.now < 6 }
        requires words { 1 ≤ length words.now }
        requires none { (S.seen site.old).running ≡ [] }
        requires can { S.tells → CanRun (work_of folder.now phase words.now tasks) (files (S.told site.old)) }
        // No child runs.
        ensures none { (S.seen site.new).running ≡ [] }
        // The log grew by a run of the machine, whose state the answer tells.
        ensures ran { let work = work_of folder.now phase words.now tasks in
            Ran may S.tells work (fresh tasks slots) (text_at work (files (S.told site.old))) (S.seen site.old) (S.seen site.new)
            (S.given site.old) (S.given site.new) (S.told site.old) (S.told site.new) result }
        // The entries of the log tell the answer by themselves.
        ensures tells { TellsOf folder.now phase tasks (gained (S.seen site.old).log (S.seen site.new).log) result }
        // Each task has what its words give for its input.
        ensures made { let work = work_of folder.now phase words.now tasks in S.tells
            → OnOk result (AllMade work S.gives (files (S.told site.old)) (files (S.told site.new))) }
        // At every moment all is as at entry but in the folders of the tasks and of their attempts.
        ensures keeps { S.tells → Keeps (work_of folder.now phase words.now tasks) (S.told site.old) (S.told site.new) }
        ensures said { S.said site.new ≡ S.said site.old }
        ensures says { S.says site.new ≡ S.says site.old }
        ensures say_faults { S.say_faults site.new ≡ S.say_faults site.old }
        ensures cause { HasCause JobFault.Disk (S.faults site.old) (S.faults site.new) result };

    /// What the rule keeps to.
    ghost rule: { IsRule may };
}

/// One attempt of a task at once.
#[derive(Clone, Copy)]
pub struct Alone;

impl Phases for Alone {
    ghost use Rattle.task_core.specs.Rules.{rule_alone};

    ghost may = { MayStart };

    ghost rule = { rule_alone };

    fn run<S: Site>(
        &self,
        alloc: Global,
        site: &mut S,
        folder: &Path,
        phase: Phase,
        words: &Words,
        tasks: u32,
        slots: u32,
    ) -> Result<u32, JobFault> {
        let mut attempts = Attempts::new(alloc, tasks, slots)?;
        run_phase_over(
            alloc,
            site,
            folder,
            phase,
            words,
            tasks,
            slots,
            &mut attempts,
        )
    }
}

/// Runs the tasks of one phase of a job, and answers how many attempts were made.
///
/// A child of `words` is started for the least task that waits wherever fewer than `slots` run. The output of the
/// first attempt of a task that ends with status 0 is committed; a task whose attempts failed four times is dead.
/// After a dead task, a fault of the directory or want of memory nothing is started or committed any more, and each
/// child that runs is waited for.
pub fn run_phase<S: Site>(
    alloc: Global,
    site: &mut S,
    folder: &Path,
    phase: Phase,
    words: &Words,
    tasks: u32,
    slots: u32,
) -> Result<u32, JobFault>
    requires few { tasks ≤ 524288 }
    requires slots { 1 ≤ slots }
    requires short { length folder.now < 6 }
    requires words { 1 ≤ length words.now }
    requires none { (S.seen site.old).running ≡ [] }
    requires can { S.tells → CanRun (work_of folder.now phase words.now tasks) (files (S.told site.old)) }
    // No child runs.
    ensures none { (S.seen site.new).running ≡ [] }
    // The log grew by a run of the machine, whose state the answer tells.
    ensures ran { let work = work_of folder.now phase words.now tasks in
        Ran MayStart S.tells work (fresh tasks slots) (text_at work (files (S.told site.old))) (S.seen site.old) (S.seen site.new)
        (S.given site.old) (S.given site.new) (S.told site.old) (S.told site.new) result }
    // The entries of the log tell the answer by themselves.
    ensures tells { TellsOf folder.now phase tasks (gained (S.seen site.old).log (S.seen site.new).log) result }
    // No task has succeeded twice.
    ensures once { (t : ℕ) → done_of (task_id folder.now phase t) (gained (S.seen site.old).log (S.seen site.new).log) ≤ 1 }
    // Each task has what its words give for its input.
    ensures made { let work = work_of folder.now phase words.now tasks in S.tells
        → OnOk result (AllMade work S.gives (files (S.told site.old)) (files (S.told site.new))) }
    // At every moment all is as at entry but in the folders of the tasks and of their attempts.
    ensures keeps { S.tells → Keeps (work_of folder.now phase words.now tasks) (S.told site.old) (S.told site.new) }
    ensures said { S.said site.new ≡ S.said site.old }
    ensures says { S.says site.new ≡ S.says site.old }
    ensures say_faults { S.say_faults site.new ≡ S.say_faults site.old }
    ensures cause { HasCause JobFault.Disk (S.faults site.old) (S.faults site.new) result }
{
    Alone.run(alloc, site, folder, phase, words, tasks, slots)
}

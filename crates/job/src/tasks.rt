ghost use Rattle.std.specs.Prelude.{◌≡◌, ◌+◌, ◌<◌, ◌≤◌, length, IfOk, OnOk};
ghost use Rattle.dir_disk.specs.Causes.{HasCause};
ghost use Rattle.dir_disk.specs.Moments.{Both, Through, clock, files};
ghost use Rattle.dir_disk.specs.Calls.{HasFile};
ghost use Rattle.dir_disk.specs.Lent.{IsFree};
ghost use Rattle.committer.specs.Commits.{StandsBeside};
ghost use Rattle.job.specs.Going.{AreAsMany, IsExact};
ghost use Rattle.job.specs.Work.{calls_at, folder_at, home_at, input_at, output_at};
ghost use Rattle.job.specs.Standing.{IsMoved, IsOpenFrom};

use crate::delivery::Delivery;
use committer::{CommitFault, attempt_output, task_input};
use dir_disk::Dir;
use peg_base::{Attempt, Path, Phase, TaskId, Words};
use peg_text::NoMemory;
use std::alloc::Global;
use std::marker::Model;

/// The tasks of one phase of a job.
#[derive(Drop)]
pub(crate) struct Tasks<'a, V: Delivery> {
    /// The folder that the job makes.
    pub(crate) folder: &'a Path,
    /// The phase.
    pub(crate) phase: Phase,
    /// The words of each child.
    pub(crate) words: &'a Words,
    /// The number of tasks.
    pub(crate) count: u32,
    /// What is done with the output of the attempt that makes its task done.
    pub(crate) delivery: &'a V,
}

impl<'a, V: Delivery> Model for Tasks<'a, V> {
    ghost use Rattle.job.specs.Work.{Work};

    ghost Value = { Work };

    ghost view = { λ t. record {
      folder = t.folder.now;
      phase = t.phase;
      words = t.words.now;
      count = t.count;
      home = V.home t.delivery.now;
    } };
}

impl<'a, V: Delivery> Tasks<'a, V> {
    /// The words of each child.
    pub(crate) fn words(&self) -> &Words
        ensures { result.now ≡ self.now.words }
    {
        self.words
    }

    /// The folder that the job makes.
    pub(crate) fn job(&self, alloc: Global) -> Result<Path, NoMemory>
        ensures { IfOk result (λ path. path ≡ self.now.folder) }
    {
        self.folder.copy(alloc)
    }

    /// An attempt of one of the tasks.
    pub(crate) fn attempt(&self, alloc: Global, task: u32, number: u8) -> Result<Attempt, NoMemory>
        requires first { 1 ≤ number }
        requires last { number ≤ 4 }
        ensures job { IfOk result (λ attempt. attempt.task.job ≡ self.now.folder) }
        ensures phase { IfOk result (λ attempt. attempt.task.phase ≡ self.now.phase) }
        ensures task { IfOk result (λ attempt. attempt.task.task ≡ task) }
        ensures number { IfOk result (λ attempt. attempt.number ≡ number) }
    {
        Ok(Attempt {
            task: TaskId {
                job: self.folder.copy(alloc)?,
                phase: self.phase,
                task,
            },
            number,
        })
    }

    /// Where a task reads.
    pub(crate) fn input(&self, alloc: Global, task: u32) -> Result<Path, NoMemory>
        requires { length self.now.folder < 6 }
        ensures { IfOk result (λ path. path ≡ input_at self.now task) }
    {
        task_input(alloc, self.folder, self.phase, task)
    }

    /// Where the child of an attempt writes.
    pub(crate) fn output(&self, alloc: Global, attempt: &Attempt) -> Result<Path, NoMemory>
        requires short { length self.now.folder < 6 }
        requires phase { attempt.now.task.phase ≡ self.now.phase }
        ensures { IfOk result (λ path. path ≡ output_at self.now attempt.now.task.task attempt.now.number) }
    {
        attempt_output(alloc, self.folder, attempt)
    }

    /// Delivers the output of an attempt, which makes its task done.
    pub(crate) fn deliver<D: Dir>(
        &self,
        alloc: Global,
        dir: &mut D,
        attempt: &Attempt,
    ) -> Result<(), CommitFault>
        requires short { length self.now.folder < 6 }
        requires phase { attempt.now.task.phase ≡ self.now.phase }
        requires lent_attempt { IsFree (D.lent dir.old) (folder_at self.now attempt.now.task.task attempt.now.number) }
        requires lent_task { IsFree (D.lent dir.old) (home_at self.now attempt.now.task.task) }
        requires output { D.tells → HasFile (files (D.told dir.old)) (output_at self.now attempt.now.task.task attempt.now.number) }
        requires rest { D.tells → IsOpenFrom self.now (files (D.told dir.old)) attempt.now.task.task 5 }
        ensures steps { let from = folder_at self.now attempt.now.task.task attempt.now.number in
            let to = home_at self.now attempt.now.task.task in D.tells
            → Through (Both (StandsBeside from to (files (D.told dir.old)))) (D.told dir.old) (D.told dir.new) }
        ensures moved { D.tells → OnOk result (IsMoved self.now attempt.now.task.task attempt.now.number
            (files (D.told dir.old)) (files (D.told dir.new))) }
        ensures calls { D.tells → AreAsMany (IsExact self.now.home result)
            (clock (D.told dir.new)) (clock (D.told dir.old) + calls_at self.now.home) }
        ensures lent { D.lent dir.new ≡ D.lent dir.old }
        ensures beside { D.beside dir.new ≡ D.beside dir.old }
        ensures cause { HasCause CommitFault.Disk (D.faults dir.old) (D.faults dir.new) result }
    {
        self.delivery.deliver(alloc, dir, self.folder, attempt)
    }
}

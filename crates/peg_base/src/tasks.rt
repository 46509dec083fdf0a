ghost use Rattle.std.specs.Prelude.{◌≡◌, ◌≤◌, IfOk};

use crate::Path;
use peg_text::NoMemory;
use std::alloc::Global;

/// The phases of a job, in their order. Only jobs with a combiner have the second one.
#[derive(Clone, Copy, Debug, PartialEq, Eq)]
pub enum Phase {
    /// Splits of the input go to mappers.
    Map,
    /// What the mappers wrote goes to combiners, chunk by chunk and sorted.
    Combine,
    /// Sorted pairs go to reducers, one for each part.
    Reduce,
}

/// A task of a job, numbered from 0 within its phase.
#[derive(Debug, PartialEq, Eq, Drop)]
pub struct TaskId {
    /// The folder that the job makes.
    pub job: Path,
    /// The phase that the task belongs to.
    pub phase: Phase,
    /// The number of the task.
    pub task: u32,
}

impl TaskId {
    /// The same task again.
    pub fn copy(&self, alloc: Global) -> Result<TaskId, NoMemory>
        ensures { IfOk result (λ task. task ≡ self.now) }
    {
        Ok(TaskId {
            job: self.job.copy(alloc)?,
            phase: self.phase,
            task: self.task,
        })
    }
}

/// One attempt of a task.
#[derive(Debug, PartialEq, Eq, Drop)]
pub struct Attempt {
    /// The task that is tried.
    pub task: TaskId,
    /// The number of the attempt, 1 to 4.
    pub number: u8,
    ghost in_range: { (1 ≤ number) × (number ≤ 4) },
}

impl Attempt {
    /// The same attempt again.
    pub fn copy(&self, alloc: Global) -> Result<Attempt, NoMemory>
        ensures { IfOk result (λ attempt. attempt ≡ self.now) }
    {
        Ok(Attempt {
            task: self.task.copy(alloc)?,
            number: self.number,
        })
    }
}

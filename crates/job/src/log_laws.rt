//! Laws on the log of a job. Each function is a law that its contract states, and does nothing.
ghost use Rattle.task_core.specs.Board.{MayStart};
ghost use Rattle.job.specs.Stretches.{FinishedJobsStay, JobsAddUp, LaterPhasesAddNothing, PhasesAddUp};
ghost use Rattle.job.specs.LogLaws.{DeadTaskTellsWhenItsPhaseBegan};

use crate::phase::Phases;
use dir_disk::Site;

/// Where a task is dead its phase has a first start, and the moment of that start is the one from which the calls of the
/// directory are counted.
pub fn dead_task_tells_when_its_phase_began()
    ensures { DeadTaskTellsWhenItsPhaseBegan MayStart }
{}

/// What phases add to a log goes behind what those before them added, and a phase that was not begun adds nothing.
pub fn phases_add_up<S: Site, P: Phases>()
    ensures behind { PhasesAddUp P.may S.tells }
    ensures later { LaterPhasesAddNothing P.may S.tells }
{}

/// What a job adds to a log goes behind what the jobs before it added, and what they added stays while the directory
/// goes on.
pub fn jobs_add_up<S: Site, P: Phases>()
    ensures behind { JobsAddUp P.may S.tells S.gives }
    ensures stay { FinishedJobsStay P.may S.tells S.gives }
{}

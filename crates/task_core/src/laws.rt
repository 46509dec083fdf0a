ghost use Rattle.task_core.specs.Laws.{AtMostFourAttempts, DoneAtMostOnce, DeadByFourFailures, NothingStartsAfterDeath, DoneBySuccess, StartsCountUp, RefusalsCountUp, StepsNameTasks, RunsEnd, RunsGrow, BusyRunsGrow, BusyRunsAreRuns, AtMostOneSuccess, DoneByOneSuccess, OneMayStart, OneMayEnd, RunsUntilItEnds, EndsNameWhatRuns};

use crate::Attempting;

/// Over every list of steps a task has at most four attempts and becomes done at most once, and
/// the list is at most eight steps a task long.
pub fn attempts_are_bounded<A: Attempting>()
    ensures four { AtMostFourAttempts A.may }
    ensures once { DoneAtMostOnce A.may }
    ensures ends { RunsEnd A.may }
{}

/// A task is dead exactly where four of its attempts failed, and then no attempt of any task is
/// made any more.
pub fn death_is_final<A: Attempting>()
    ensures four_failures { DeadByFourFailures A.may }
    ensures nothing_starts { NothingStartsAfterDeath A.may }
{}

/// From a list of steps alone: which tasks are done, and that each step names a task of the phase
/// and an attempt from 1 to 4, numbered in the order in which the attempts of that task were made.
pub fn logs_tell_the_state<A: Attempting>()
    ensures done { DoneBySuccess A.may }
    ensures starts { StartsCountUp A.may }
    ensures refusals { RefusalsCountUp A.may }
    ensures named { StepsNameTasks A.may }
{}

/// A list of steps grows at its end by a step that may be made there, and a list in which each end
/// was taken in a busy state is a run like any other.
pub fn runs_grow<A: Attempting>()
    ensures run { RunsGrow A.may }
    ensures busy_run { BusyRunsGrow A.may }
    ensures busy_is_run { BusyRunsAreRuns A.may }
{}

/// Where at most one attempt of a task runs at once: a task is done exactly where it had one
/// success, and none has more; and the list of steps tells which attempt runs, and each end names it.
pub fn one_attempt_at_once()
    ensures once { AtMostOneSuccess }
    ensures done { DoneByOneSuccess }
    ensures running { RunsUntilItEnds }
    ensures ends { EndsNameWhatRuns }
{}

/// There a state allows one start at most, and one end of each task at most.
pub fn steps_are_determined()
    ensures starts { OneMayStart }
    ensures ends { OneMayEnd }
{}

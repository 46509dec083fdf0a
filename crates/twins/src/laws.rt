ghost use Rattle.task_core.specs.Laws.{AtMostFourAttempts, DeadByFourFailures, DoneAtMostOnce, DoneBySuccess, NothingStartsAfterDeath, RunsEnd};
ghost use Rattle.twins.specs.Rules.{MayStartTwin};
ghost use Rattle.twins.specs.Laws.{AtMostTwoRun, NoTwinWhereOneIsIdle, OneTwinMayStart};

use crate::twins::Twins;
use task_core::{attempts_are_bounded, death_is_final, logs_tell_the_state};

/// Over every list of steps with two attempts of a task at once: a task has at most four attempts, at most two of them
/// run, it becomes done at most once, and it is dead exactly where four of its attempts failed. In each state at most one
/// attempt may be started, and it is a second one of its task only where no task is idle.
pub fn two_attempts_at_once()
    ensures four { AtMostFourAttempts MayStartTwin }
    ensures two { AtMostTwoRun }
    ensures once { DoneAtMostOnce MayStartTwin }
    ensures done { DoneBySuccess MayStartTwin }
    ensures four_failures { DeadByFourFailures MayStartTwin }
    ensures nothing_starts { NothingStartsAfterDeath MayStartTwin }
    ensures ends { RunsEnd MayStartTwin }
    ensures one { OneTwinMayStart }
    ensures idle_first { NoTwinWhereOneIsIdle }
{
    attempts_are_bounded::<Twins>();
    death_is_final::<Twins>();
    logs_tell_the_state::<Twins>();
}

use crate::judge::{Judge, Wrong, complain, placed};
use crate::lines::Line;
use crate::make::make;
use crate::row::{Steps, action_of, checks};
use crate::world::World;

/// A row's action, which is tried with a call that fails.
#[derive(Clone, Copy)]
pub(crate) struct Trial<'a> {
    /// What stands before the action.
    pub setup: &'a [Line],
    pub tried: &'a Line,
    /// How many calls of the directory are made before the action.
    pub start: u64,
    /// The line that asks for failing calls, with the answer of the action then.
    pub line: &'a Line,
    /// What holds then.
    pub body: &'a [Line],
}

/// Makes the action in a world of which the call of this number fails: whether the action made that call.
fn fail_in(
    judge: &mut Judge,
    world: &mut World,
    trial: Trial,
    failing: u64,
) -> Result<bool, Wrong> {
    checks(
        judge,
        world,
        Steps {
            lines: trial.setup,
            tried: None,
        },
    )?;
    world.start = world.calls();
    world.failing = Some(failing);
    let found = make(judge.alloc, world, action_of(trial.tried));
    if world.calls() <= failing {
        judge.compare(trial.tried, found)?;
        return Ok(false);
    }
    judge.compare(trial.line, found)?;
    checks(
        judge,
        world,
        Steps {
            lines: trial.body,
            tried: Some(trial.tried),
        },
    )?;
    Ok(true)
}

/// Makes a row anew up to its action, and the action with this of its calls failing.
fn fail_one(judge: &mut Judge, trial: Trial, call: u64) -> Result<bool, Wrong> {
    let failing = trial.start.saturating_add(call);
    let mut calls = Vec::new(judge.alloc);
    let Ok(()) = calls.push(failing) else {
        return Err(Wrong::NoMemory);
    };
    let mut world = World::new(judge.alloc, calls);
    fail_in(judge, &mut world, trial, failing)
}

/// The most calls of an action.
const MOST: u64 = 100_000;

/// Tries the action with each so many of its calls failing in turn, up to one more call than it makes.
pub(crate) fn each_call_fails(judge: &mut Judge, trial: Trial, every: u64) -> Result<(), Wrong> {
    for turn in 0..MOST {
        let call = turn.saturating_mul(every);
        match fail_one(judge, trial, call) {
            Ok(true) => {}
            Ok(false) if turn == 0 => {
                return Err(complain(judge.alloc, trial.line, b"no call to fail"));
            }
            Ok(false) => return Ok(()),
            Err(wrong) => {
                return Err(placed(wrong, judge.alloc, b" where it fails at its call ", call));
            }
        }
    }
    Err(complain(
        judge.alloc,
        trial.line,
        b"an action that makes too many calls",
    ))
}

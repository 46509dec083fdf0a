use crate::each::{Each, each_of};
use crate::judge::{Judge, Wrong, complain, placed};
use crate::lines::{Line, body_at};
use crate::reading::numbers_of;
use crate::trial::{Trial, each_call_fails};
use crate::world::World;
use dir_mem::Image;
use std::alloc::Global;

/// Whether a line makes the action that is tried once more.
fn is_again(line: &Line) -> bool {
    line.words.len() == 2 && line.begins(&[b"try", b"again"])
}

/// Whether a line has the action that is tried.
fn is_try(line: &Line) -> bool {
    line.begins(&[b"try"]) && !is_again(line)
}

/// The words of the action that a line tries.
pub(crate) fn action_of(line: &Line) -> &[Vec<u8>] {
    line.words.get(1..).unwrap_or(&[])
}

/// The line of a row with the action that is tried, if there is one.
fn tried_in(alloc: Global, lines: &[Line]) -> Result<Option<&Line>, Wrong> {
    let mut tried = None;
    for line in lines {
        if is_try(line) {
            if tried.is_some() || line.depth != 1 {
                return Err(complain(alloc, line, b"not the one action of its row"));
            }
            tried = Some(line);
        }
    }
    Ok(tried)
}

/// The action that is tried, where it stands before the line.
fn tried_before<'a>(
    alloc: Global,
    tried: Option<&'a Line>,
    line: &Line,
) -> Result<&'a Line, Wrong> {
    match tried {
        Some(tried) if tried.number < line.number => Ok(tried),
        _ => Err(complain(alloc, line, b"no action is tried before it")),
    }
}

/// Lines whose steps are made one after the other, and the action that is tried in their row.
#[derive(Clone, Copy)]
pub(crate) struct Steps<'a> {
    pub lines: &'a [Line],
    pub tried: Option<&'a Line>,
}

/// Makes the step of a line.
fn line_step(
    judge: &mut Judge,
    world: &mut World,
    line: &Line,
    tried: Option<&Line>,
) -> Result<(), Wrong> {
    if is_again(line) {
        let tried = tried_before(judge.alloc, tried, line)?;
        return judge.step(world, line, action_of(tried));
    }
    if is_try(line) {
        world.start = world.calls();
        return judge.step(world, line, action_of(line));
    }
    judge.step(world, line, &line.words)
}

/// Makes steps without stops of their own.
fn make_steps(judge: &mut Judge, world: &mut World, steps: Steps) -> Result<(), Wrong> {
    for line in steps.lines {
        line_step(judge, world, line, steps.tried)?;
    }
    Ok(())
}

/// Makes steps over an image that a stop before the call of this number leaves.
fn stop(
    judge: &mut Judge,
    world: &World,
    moment: u64,
    image: &Image,
    steps: Steps,
) -> Result<(), Wrong> {
    let mut stopped = world.after_stop(judge.alloc, moment, image)?;
    make_steps(judge, &mut stopped, steps)
}

/// What a stop may leave, and how many bytes had been said by then.
#[derive(Drop)]
struct Left {
    images: Vec<Image>,
    said: usize,
}

impl Left {
    /// What a stop before the call of this number may leave.
    fn of(alloc: Global, world: &World, moment: u64) -> Result<Left, Wrong> {
        Ok(Left {
            images: world.images(alloc, moment)?,
            said: world.site.said_by(moment).len(),
        })
    }

    /// Whether the stop may leave the image after so many bytes were said.
    fn has(&self, image: &Image, said: usize) -> bool {
        self.said == said && self.images.iter().any(|other| other == image)
    }
}

/// Makes steps over each image of a stop before the call of this number, but those that a stop one call before leaves too:
/// worlds that are equal give equal answers.
fn stops_with(
    judge: &mut Judge,
    world: &World,
    moment: u64,
    left: &Left,
    last: &Left,
    steps: Steps,
) -> Result<(), Wrong> {
    for (at, image) in left.images.iter().enumerate() {
        let is_again = left.images.iter().take(at).any(|other| other == image);
        if !is_again && !last.has(image, left.said) {
            stop(judge, world, moment, image, steps)?;
        }
    }
    Ok(())
}

/// Makes steps over all that a stop may leave before the call of this number since the action began.
fn stops_before(
    judge: &mut Judge,
    world: &World,
    call: u64,
    last: &mut Left,
    steps: Steps,
) -> Result<(), Wrong> {
    let moment = world.start.saturating_add(call);
    let left = Left::of(judge.alloc, world, moment)?;
    let found = stops_with(judge, world, moment, &left, last, steps);
    *last = left;
    match found {
        Ok(()) => Ok(()),
        Err(wrong) => Err(placed(wrong, judge.alloc, b" at a stop before call ", call)),
    }
}

/// Makes steps over all that a stop may leave, at each so many calls since the action began.
fn stops(judge: &mut Judge, world: &World, every: u64, steps: Steps) -> Result<(), Wrong> {
    let mut last = Left {
        images: Vec::new(judge.alloc),
        said: 0,
    };
    for call in 0..=world.calls_since_start() {
        if call.checked_rem(every) == Some(0) {
            stops_before(judge, world, call, &mut last, steps)?;
        }
    }
    Ok(())
}

/// Makes the steps below a line that asks for stops.
fn each_stop(
    judge: &mut Judge,
    world: &World,
    line: &Line,
    every: u64,
    steps: Steps,
) -> Result<(), Wrong> {
    tried_before(judge.alloc, steps.tried, line)?;
    if world.calls_since_start() == 0 {
        return Err(complain(judge.alloc, line, b"no call to stop at"));
    }
    if steps.lines.is_empty() {
        return Err(complain(judge.alloc, line, b"stops without steps"));
    }
    stops(judge, world, every, steps)
}

/// The steps below the line at this place.
fn below(steps: Steps, at: usize) -> Steps {
    Steps {
        lines: body_at(steps.lines, at),
        tried: steps.tried,
    }
}

/// Makes the step of the line at this place, with its stops. Failing calls are for a row's own lines, and made later.
fn check(
    judge: &mut Judge,
    world: &mut World,
    steps: Steps,
    at: usize,
    line: &Line,
) -> Result<(), Wrong> {
    match each_of(judge.alloc, line)? {
        None => line_step(judge, world, line, steps.tried),
        Some(Each::Stop { every }) => each_stop(judge, world, line, every, below(steps, at)),
        Some(Each::FailingCall { .. }) if line.depth == 1 => Ok(()),
        Some(Each::FailingCall { .. }) => {
            Err(complain(judge.alloc, line, b"failing calls within others"))
        }
    }
}

/// Makes steps, with their stops.
pub(crate) fn checks(judge: &mut Judge, world: &mut World, steps: Steps) -> Result<(), Wrong> {
    let depth = steps.lines.first().map_or(0, |line| line.depth);
    for (at, line) in steps.lines.iter().enumerate() {
        if line.depth == depth {
            check(judge, world, steps, at, line)?;
        }
    }
    Ok(())
}

/// The lines before the one of this number.
fn lines_before(lines: &[Line], number: u64) -> &[Line] {
    match lines.iter().position(|line| line.number >= number) {
        None => lines,
        Some(at) => lines.get(..at).unwrap_or(lines),
    }
}

/// Makes the failing calls that the line at this place asks for, if it does.
fn check_failing(
    judge: &mut Judge,
    steps: Steps,
    start: u64,
    at: usize,
    line: &Line,
) -> Result<(), Wrong> {
    let Some(Each::FailingCall { every }) = each_of(judge.alloc, line)? else {
        return Ok(());
    };
    let tried = tried_before(judge.alloc, steps.tried, line)?;
    let trial = Trial {
        setup: lines_before(steps.lines, tried.number),
        tried,
        start,
        line,
        body: body_at(steps.lines, at),
    };
    each_call_fails(judge, trial, every)
}

/// Makes a row anew for each of its lines that asks for failing calls.
fn all_failing(judge: &mut Judge, steps: Steps, start: u64) -> Result<(), Wrong> {
    for (at, line) in steps.lines.iter().enumerate() {
        if line.depth == 1 {
            check_failing(judge, steps, start, at, line)?;
        }
    }
    Ok(())
}

/// The calls that fail in a row: those that its first line names, if that begins with `fail`.
fn failing(alloc: Global, line: &Line) -> Result<Vec<u64>, Wrong> {
    if !line.begins(&[b"fail"]) {
        return Ok(Vec::new(alloc));
    }
    match numbers_of(alloc, line.words.get(1..).unwrap_or(&[])) {
        Ok(calls) => Ok(calls),
        Err(_) => Err(complain(alloc, line, b"a step that can't be read")),
    }
}

/// Makes all steps in a world, and answers how many calls were made before the action that is tried.
fn run_in(judge: &mut Judge, world: &mut World, steps: Steps) -> Result<u64, Wrong> {
    checks(judge, world, steps)?;
    Ok(world.start)
}

fn first_run(judge: &mut Judge, fail: Vec<u64>, steps: Steps) -> Result<u64, Wrong> {
    let mut world = World::new(judge.alloc, fail);
    run_in(judge, &mut world, steps)
}

/// Makes the steps of a row, with its stops and its failing calls.
pub(crate) fn run_row(judge: &mut Judge, head: &Line, lines: &[Line]) -> Result<(), Wrong> {
    let Some((first, behind)) = lines.split_first() else {
        return Err(complain(judge.alloc, head, b"a row without steps"));
    };
    let fail = failing(judge.alloc, first)?;
    let lines = if first.begins(&[b"fail"]) {
        behind
    } else {
        lines
    };
    let steps = Steps {
        lines,
        tried: tried_in(judge.alloc, lines)?,
    };
    let start = first_run(judge, fail, steps)?;
    all_failing(judge, steps, start)
}

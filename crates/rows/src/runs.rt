use crate::directory::add_padded;
use crate::reading::{path_of, strings_of};
use crate::trouble::Trouble;
use crate::world::World;
use crate::writing::{add, add_quoted, number, text};
use driver::Outcome;
use peg_base::Path;
use std::alloc::Global;

/// The exit code, and the line that tells of a fault.
fn of_outcome(alloc: Global, outcome: &Outcome) -> Result<Vec<u8>, Trouble> {
    let mut out = number(alloc, u64::from(outcome.code()))?;
    let line = outcome.line(alloc)?;
    if !line.is_empty() {
        add(&mut out, b" ")?;
        add_quoted(&mut out, &line)?;
    }
    Ok(out)
}

/// Makes a run of these words over the edges, where no child runs.
fn run_tried(alloc: Global, world: &mut World, words: &[String]) -> Result<Outcome, Trouble> {
    if world.site.site.running() != 0 {
        return Err(Trouble::Misread);
    }
    let mut source = world.edges.source(alloc)?;
    Ok(driver::run(alloc, words, &mut source, &mut world.site))
}

/// The file that is there where the vector of an iteration is whole.
fn mark_of(alloc: Global, iteration: u64) -> Result<Path, Trouble> {
    let mut mark = text(alloc, b"v-")?;
    add_padded(alloc, &mut mark, iteration, 10)?;
    add(&mut mark, b"/_SUCCESS")?;
    path_of(alloc, &mark)
}

/// The most iterations of a command.
const MOST: u64 = 10_000;

/// How many vectors are whole, from that of iteration 0 on.
fn vectors_of(alloc: Global, world: &World) -> Result<u64, Trouble> {
    for iteration in 0..MOST {
        if world.content(&mark_of(alloc, iteration)?).is_none() {
            return Ok(iteration);
        }
    }
    Ok(MOST)
}

/// `WORD ..`: a run of the program over the edges.
pub(crate) fn run(alloc: Global, world: &mut World, args: &[Vec<u8>]) -> Result<Vec<u8>, Trouble> {
    let words = strings_of(alloc, args)?;
    world.heard = world.site.site.said().len();
    world.vectors = vectors_of(alloc, world)?;
    of_outcome(alloc, &run_tried(alloc, world, &words)?)
}

/// Makes a run of `plain` alone.
fn plain_tried(alloc: Global, world: &mut World, words: &[String]) -> Result<Outcome, Trouble> {
    let mut source = world.edges.source(alloc)?;
    Ok(driver::run_plain(alloc, words, &mut source, &mut world.site))
}

/// `WORD ..`: a run that knows no other command than `plain`.
pub(crate) fn plain(
    alloc: Global,
    world: &mut World,
    args: &[Vec<u8>],
) -> Result<Vec<u8>, Trouble> {
    let words = strings_of(alloc, args)?;
    world.heard = world.site.site.said().len();
    of_outcome(alloc, &plain_tried(alloc, world, &words)?)
}

/// The last iteration up to which all vectors were whole when the last run began, or `none`, and what the run said.
pub(crate) fn resumed(alloc: Global, world: &World) -> Result<Vec<u8>, Trouble> {
    let mut out = match world.vectors.checked_sub(1) {
        Some(iteration) => number(alloc, iteration)?,
        None => text(alloc, b"none")?,
    };
    add(&mut out, b" ")?;
    add_quoted(&mut out, world.said())?;
    Ok(out)
}

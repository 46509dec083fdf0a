use crate::directory::{rest, word};
use crate::reading::{
    at_last, attempt_of, attempts_of, command_of, number_of, numbers_of, path_of,
};
use crate::trouble::Trouble;
use crate::world::World;
use crate::writing::{add, add_attempt, add_number, add_quoted, quoted, text};
use dir_disk::{Console, Ended, LogEntry, SayFault, StartFault};
use peg_base::{Attempt, Path};
use site_mem::Order;
use std::alloc::Global;

fn status_of(text: &[u8]) -> Result<i32, Trouble> {
    match i32::try_from(number_of(text)?) {
        Ok(status) => Ok(status),
        Err(_) => Err(Trouble::Misread),
    }
}

/// `ATTEMPT=STATUS ..`: how children end.
pub(crate) fn ends(alloc: Global, world: &mut World, args: &[Vec<u8>]) -> Result<(), Trouble> {
    let mut script = Vec::new(alloc);
    for word in args {
        let (attempts, status) = at_last(word, b'=')?;
        let status = status_of(status)?;
        for attempt in attempts_of(alloc, attempts)? {
            script.push((attempt, status))?;
        }
    }
    world.site.site.script(script);
    Ok(())
}

/// `ATTEMPT ..`: which starts are refused.
pub(crate) fn refuse(alloc: Global, world: &mut World, args: &[Vec<u8>]) -> Result<(), Trouble> {
    let mut refused = Vec::new(alloc);
    for word in args {
        for attempt in attempts_of(alloc, word)? {
            refused.push(attempt)?;
        }
    }
    world.site.site.refuse(refused);
    Ok(())
}

/// `ATTEMPT>ATTEMPT ..`: which child ends only once which other one was started.
pub(crate) fn hold(alloc: Global, world: &mut World, args: &[Vec<u8>]) -> Result<(), Trouble> {
    let mut holds = Vec::new(alloc);
    for word in args {
        let (held, other) = at_last(word, b'>')?;
        for attempt in attempts_of(alloc, held)? {
            holds.push((attempt, attempt_of(alloc, other)?))?;
        }
    }
    world.site.site.hold(holds);
    Ok(())
}

/// `oldest` or `newest`: which child ends first.
pub(crate) fn order(world: &mut World, args: &[Vec<u8>]) -> Result<(), Trouble> {
    let order = match word(args, 0) {
        b"oldest" => Order::OldestFirst,
        b"newest" => Order::NewestFirst,
        _ => return Err(Trouble::Misread),
    };
    world.site.site.order(order);
    Ok(())
}

/// `NUMBER ..`: which says fail.
pub(crate) fn mute(alloc: Global, world: &mut World, args: &[Vec<u8>]) -> Result<(), Trouble> {
    let says = numbers_of(alloc, args)?;
    world.site.site.mute(says);
    Ok(())
}

/// `ATTEMPT INPUT OUTPUT WORD ..`: a child is started.
pub(crate) fn start(
    alloc: Global,
    world: &mut World,
    args: &[Vec<u8>],
) -> Result<Vec<u8>, Trouble> {
    let attempt = attempt_of(alloc, word(args, 0))?;
    let input = path_of(alloc, word(args, 1))?;
    let output = path_of(alloc, word(args, 2))?;
    let words = command_of(alloc, rest(args, 3))?;
    match world.site.launch(alloc, &attempt, &words, &input, &output) {
        Ok(()) => text(alloc, b"ok"),
        Err(StartFault::Failed) => text(alloc, b"refused"),
        Err(StartFault::NoMemory) => text(alloc, b"memory"),
    }
}

/// Adds how a child ended, as `FOLDER/m0.1=0`.
fn add_end(
    alloc: Global,
    out: &mut Vec<u8>,
    attempt: &Attempt,
    status: i32,
) -> Result<(), Trouble> {
    add_attempt(alloc, out, attempt)?;
    add(out, if status < 0 { b"=-" } else { b"=" })?;
    add_number(alloc, out, u64::from(status.unsigned_abs()))
}

/// The end of a child.
pub(crate) fn reap(alloc: Global, world: &mut World) -> Result<Vec<u8>, Trouble> {
    let mut out = Vec::new(alloc);
    match world.site.wait() {
        None => add(&mut out, b"none")?,
        Some(Ended { attempt, status }) => add_end(alloc, &mut out, &attempt, status)?,
    }
    Ok(out)
}

fn add_entry(alloc: Global, out: &mut Vec<u8>, entry: &LogEntry) -> Result<(), Trouble> {
    match entry {
        LogEntry::Started(attempt) => {
            add_attempt(alloc, out, attempt)?;
            add(out, b"+")
        }
        LogEntry::StartFailed(attempt) => {
            add_attempt(alloc, out, attempt)?;
            add(out, b"-")
        }
        LogEntry::Ended(attempt, status) => add_end(alloc, out, attempt, *status),
    }
}

/// The job of an entry's attempt.
fn job_of(entry: &LogEntry) -> &Path {
    match entry {
        LogEntry::Started(attempt) | LogEntry::StartFailed(attempt) | LogEntry::Ended(attempt, _) =>
            { &attempt.task.job }
    }
}

/// Adds an entry, with a blank before it where others stand there.
fn add_next(alloc: Global, out: &mut Vec<u8>, entry: &LogEntry) -> Result<(), Trouble> {
    if !out.is_empty() {
        add(out, b" ")?;
    }
    add_entry(alloc, out, entry)
}

/// `[FOLDER]`: what happened to attempts, or to those of one job: `+` where one was started, `-` where its start failed, and
/// its status where it ended.
pub(crate) fn log(alloc: Global, world: &World, args: &[Vec<u8>]) -> Result<Vec<u8>, Trouble> {
    let of = path_of(alloc, word(args, 0))?;
    let mut out = Vec::new(alloc);
    for entry in world.site.site.log() {
        if job_of(entry).under(&of) {
            add_next(alloc, &mut out, entry)?;
        }
    }
    if out.is_empty() {
        add(&mut out, b"nothing")?;
    }
    Ok(out)
}

/// `TEXT`
pub(crate) fn say(alloc: Global, world: &mut World, args: &[Vec<u8>]) -> Result<Vec<u8>, Trouble> {
    match world.site.say(alloc, word(args, 0)) {
        Ok(()) => text(alloc, b"ok"),
        Err(SayFault::Failed) => text(alloc, b"muted"),
        Err(SayFault::NoMemory) => text(alloc, b"memory"),
    }
}

/// What was said since the last run began, or in this world where there was none.
pub(crate) fn said(alloc: Global, world: &World) -> Result<Vec<u8>, Trouble> {
    quoted(alloc, world.said())
}

/// What had been said before the stop, and what was said since.
pub(crate) fn heard(alloc: Global, world: &World) -> Result<Vec<u8>, Trouble> {
    let mut out = quoted(alloc, &world.before)?;
    add(&mut out, b" ")?;
    add_quoted(&mut out, world.site.site.said())?;
    Ok(out)
}

use crate::lines::Line;
use crate::make::make;
use crate::trouble::Trouble;
use crate::world::World;
use crate::writing::{add, add_number};
use std::alloc::Global;

/// What is wrong with a row: the line, and what is said of it.
#[derive(Drop)]
pub(crate) struct Complaint {
    pub line: u64,
    pub text: Vec<u8>,
}

/// Why a row isn't as it says.
#[derive(Drop)]
pub(crate) enum Wrong {
    Row(Complaint),
    /// There was no memory to make it, or to say what is wrong with it.
    NoMemory,
}

impl From<Trouble> for Wrong {
    fn from(_: Trouble) -> Self {
        Wrong::NoMemory
    }
}

/// A complaint of a line.
pub(crate) fn complain(alloc: Global, line: &Line, text: &[u8]) -> Wrong {
    match Vec::from_slice(alloc, text) {
        Ok(text) => Wrong::Row(Complaint {
            line: line.number,
            text,
        }),
        Err(_) => Wrong::NoMemory,
    }
}

/// The complaint with the place where it arose, among the stops and the failing calls of a row.
pub(crate) fn placed(wrong: Wrong, alloc: Global, place: &[u8], number: u64) -> Wrong {
    match wrong {
        Wrong::Row(mut complaint) => match add_place(alloc, &mut complaint.text, place, number) {
            Ok(()) => Wrong::Row(complaint),
            Err(_) => Wrong::NoMemory,
        },
        Wrong::NoMemory => Wrong::NoMemory,
    }
}

fn add_place(alloc: Global, out: &mut Vec<u8>, place: &[u8], number: u64) -> Result<(), Trouble> {
    add(out, place)?;
    add_number(alloc, out, number)
}

/// What was wanted, and what was answered.
fn differing(alloc: Global, want: &[u8], found: &[u8]) -> Result<Vec<u8>, Trouble> {
    let mut out = Vec::new(alloc);
    add(&mut out, b"wanted ")?;
    add(&mut out, want)?;
    add(&mut out, b", answered ")?;
    add(&mut out, found)?;
    Ok(out)
}

/// Whether an answer is one of those that stand between ` | `.
fn is_wanted(want: &[u8], found: &[u8]) -> bool {
    let mut rest = want;
    for _ in 0..want.len() {
        let Some(at) = rest
            .windows(3)
            .position(|window| window == b" | ".as_slice())
        else {
            return rest == found;
        };
        if rest.get(..at) == Some(found) {
            return true;
        }
        rest = rest.get(at.saturating_add(3)..).unwrap_or(b"");
    }
    false
}

/// Compares answers with those that rows want.
#[derive(Drop)]
pub(crate) struct Judge {
    pub alloc: Global,
    /// How many answers were compared.
    pub answers: u64,
}

impl Judge {
    /// Makes the step of the words, whose answer has to be one of those of the line.
    pub(crate) fn step(
        &mut self,
        world: &mut World,
        line: &Line,
        words: &[Vec<u8>],
    ) -> Result<(), Wrong> {
        let found = make(self.alloc, world, words);
        self.compare(line, found)
    }

    /// That an answer is one of those of the line.
    pub(crate) fn compare(
        &mut self,
        line: &Line,
        found: Result<Vec<u8>, Trouble>,
    ) -> Result<(), Wrong> {
        self.answers = self.answers.saturating_add(1);
        match found {
            Ok(found) if is_wanted(&line.want, &found) => Ok(()),
            Ok(found) => {
                let text = differing(self.alloc, &line.want, &found)?;
                Err(complain(self.alloc, line, &text))
            }
            Err(Trouble::Misread) => Err(complain(self.alloc, line, b"a step that can't be read")),
            Err(Trouble::NoMemory) => Err(Wrong::NoMemory),
        }
    }
}

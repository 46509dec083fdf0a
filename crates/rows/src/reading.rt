use crate::trouble::Trouble;
use peg_base::{Attempt, Name, Path, Phase, TaskId, Words};
use peg_text::read_decimal;
use std::alloc::Global;
use std::str;

/// The path whose names stand between `/`.
pub(crate) fn path_of(alloc: Global, text: &[u8]) -> Result<Path, Trouble> {
    let mut path = Path::root(alloc);
    for name in text.split(|byte| *byte == b'/') {
        if !name.is_empty() {
            path = path_below(alloc, &path, name)?;
        }
    }
    Ok(path)
}

/// The path of this name below another one.
pub(crate) fn path_below(alloc: Global, path: &Path, name: &[u8]) -> Result<Path, Trouble> {
    let Some(name) = Name::new(alloc, name)? else {
        return Err(Trouble::Misread);
    };
    if path.names().len() >= 8 {
        return Err(Trouble::Misread);
    }
    Ok(path.child(alloc, &name)?)
}

/// The paths that words name.
pub(crate) fn paths_of(alloc: Global, texts: &[Vec<u8>]) -> Result<Vec<Path>, Trouble> {
    let mut paths = Vec::new(alloc);
    for text in texts {
        paths.push(path_of(alloc, text)?)?;
    }
    Ok(paths)
}

/// The number that a word is in decimals.
pub(crate) fn number_of(text: &[u8]) -> Result<u64, Trouble> {
    match read_decimal(text) {
        Some(number) => Ok(number),
        None => Err(Trouble::Misread),
    }
}

pub(crate) fn small_of(text: &[u8]) -> Result<u32, Trouble> {
    match u32::try_from(number_of(text)?) {
        Ok(small) => Ok(small),
        Err(_) => Err(Trouble::Misread),
    }
}

pub(crate) fn numbers_of(alloc: Global, texts: &[Vec<u8>]) -> Result<Vec<u64>, Trouble> {
    let mut numbers = Vec::new(alloc);
    for text in texts {
        numbers.push(number_of(text)?)?;
    }
    Ok(numbers)
}

/// What stands before the last such byte, and behind it.
pub(crate) fn at_last(text: &[u8], mark: u8) -> Result<(&[u8], &[u8]), Trouble> {
    let Some(at) = text.iter().rposition(|byte| *byte == mark) else {
        return Err(Trouble::Misread);
    };
    let Some(before) = text.get(..at) else {
        return Err(Trouble::Misread);
    };
    let Some(behind) = text.get(at.saturating_add(1)..) else {
        return Err(Trouble::Misread);
    };
    Ok((before, behind))
}

/// The task that `FOLDER/m0` or `FOLDER/r0` names.
fn task_of(alloc: Global, text: &[u8]) -> Result<TaskId, Trouble> {
    let (job, task) = at_last(text, b'/')?;
    let Some((letter, number)) = task.split_first() else {
        return Err(Trouble::Misread);
    };
    let phase = match *letter {
        b'm' => Phase::Map,
        b'c' => Phase::Combine,
        b'r' => Phase::Reduce,
        _ => return Err(Trouble::Misread),
    };
    Ok(TaskId {
        job: path_of(alloc, job)?,
        phase,
        task: small_of(number)?,
    })
}

/// The attempt of this number of a task.
fn numbered(alloc: Global, task: &[u8], number: u8) -> Result<Attempt, Trouble> {
    if number == 0 || number > 4 {
        return Err(Trouble::Misread);
    }
    Ok(Attempt {
        task: task_of(alloc, task)?,
        number,
    })
}

/// The attempt that `FOLDER/m0.1` names.
pub(crate) fn attempt_of(alloc: Global, text: &[u8]) -> Result<Attempt, Trouble> {
    let (task, number) = at_last(text, b'.')?;
    match u8::try_from(number_of(number)?) {
        Ok(number) => numbered(alloc, task, number),
        Err(_) => Err(Trouble::Misread),
    }
}

/// The attempt that a word names, or all four of a task, as `FOLDER/m0.*`.
pub(crate) fn attempts_of(alloc: Global, text: &[u8]) -> Result<Vec<Attempt>, Trouble> {
    let (task, number) = at_last(text, b'.')?;
    let mut attempts = Vec::new(alloc);
    if number != b"*".as_slice() {
        attempts.push(attempt_of(alloc, text)?)?;
        return Ok(attempts);
    }
    for number in 1..=4 {
        attempts.push(numbered(alloc, task, number)?)?;
    }
    Ok(attempts)
}

/// The words of a child.
pub(crate) fn command_of(alloc: Global, texts: &[Vec<u8>]) -> Result<Words, Trouble> {
    let mut words = Words::new(alloc);
    for text in texts {
        let Ok(word) = str::from_utf8(text) else {
            return Err(Trouble::Misread);
        };
        if !words.push(alloc, word)? {
            return Err(Trouble::Misread);
        }
    }
    Ok(words)
}

/// The words as strings.
pub(crate) fn strings_of(alloc: Global, texts: &[Vec<u8>]) -> Result<Vec<String>, Trouble> {
    let mut strings = Vec::new(alloc);
    for text in texts {
        let Ok(word) = str::from_utf8(text) else {
            return Err(Trouble::Misread);
        };
        strings.push(String::from_str(alloc, word)?)?;
    }
    Ok(strings)
}

use crate::trouble::Trouble;
use peg_base::{Attempt, Path, Phase, TaskId};
use peg_text::write_decimal;
use std::alloc::Global;

/// A text of its own.
pub(crate) fn text(alloc: Global, text: &[u8]) -> Result<Vec<u8>, Trouble> {
    Ok(Vec::from_slice(alloc, text)?)
}

/// A number as text.
pub(crate) fn number(alloc: Global, number: u64) -> Result<Vec<u8>, Trouble> {
    let mut out = Vec::new(alloc);
    add_number(alloc, &mut out, number)?;
    Ok(out)
}

/// A text in quotes.
pub(crate) fn quoted(alloc: Global, bytes: &[u8]) -> Result<Vec<u8>, Trouble> {
    let mut out = Vec::new(alloc);
    add_quoted(&mut out, bytes)?;
    Ok(out)
}

pub(crate) fn add(out: &mut Vec<u8>, text: &[u8]) -> Result<(), Trouble> {
    out.extend_from_slice(text)?;
    Ok(())
}

pub(crate) fn add_number(alloc: Global, out: &mut Vec<u8>, number: u64) -> Result<(), Trouble> {
    write_decimal(alloc, out, number)?;
    Ok(())
}

pub(crate) fn add_quoted(out: &mut Vec<u8>, text: &[u8]) -> Result<(), Trouble> {
    add(out, b"\"")?;
    for byte in text {
        match *byte {
            b'\n' => add(out, b"\\n")?,
            b'\t' => add(out, b"\\t")?,
            b'\r' => add(out, b"\\r")?,
            b'"' => add(out, b"\\\"")?,
            b'\\' => add(out, b"\\\\")?,
            other => add(out, &[other])?,
        }
    }
    add(out, b"\"")
}

/// Adds the names of a path, with `/` between them.
pub(crate) fn add_path(out: &mut Vec<u8>, path: &Path) -> Result<(), Trouble> {
    let mut first = true;
    for name in path.names() {
        if !first {
            add(out, b"/")?;
        }
        first = false;
        add(out, name.text().as_bytes())?;
    }
    Ok(())
}

/// Adds a task as `FOLDER/m0`, `FOLDER/c0` or `FOLDER/r0`.
pub(crate) fn add_task(alloc: Global, out: &mut Vec<u8>, task: &TaskId) -> Result<(), Trouble> {
    add_path(out, &task.job)?;
    add(
        out,
        match task.phase {
            Phase::Map => b"/m",
            Phase::Combine => b"/c",
            Phase::Reduce => b"/r",
        },
    )?;
    add_number(alloc, out, u64::from(task.task))
}

/// Adds an attempt as `FOLDER/m0.1`.
pub(crate) fn add_attempt(
    alloc: Global,
    out: &mut Vec<u8>,
    attempt: &Attempt,
) -> Result<(), Trouble> {
    add_task(alloc, out, &attempt.task)?;
    add(out, b".")?;
    add_number(alloc, out, u64::from(attempt.number))
}

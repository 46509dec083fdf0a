use crate::judge::{Wrong, complain};
use crate::lines::Line;
use crate::reading::number_of;
use std::alloc::Global;

/// Which moments or calls a line is about: those of every number, counted from 0, that this divides.
#[derive(Clone, Copy)]
pub(crate) enum Each {
    /// `each stop`, `each 10th stop`.
    Stop { every: u64 },
    /// `each call fails`, `each 10th call fails`.
    FailingCall { every: u64 },
}

/// The number of `10th`.
fn ordinal_of(text: &[u8]) -> Option<u64> {
    match number_of(text.strip_suffix(b"th")?) {
        Ok(0) => None,
        Ok(number) => Some(number),
        Err(_) => None,
    }
}

/// What the words behind `each` ask for, for every so many.
fn asked(words: &[Vec<u8>], every: u64) -> Option<Each> {
    match words {
        [stop] if stop.as_slice() == b"stop".as_slice() => Some(Each::Stop { every }),
        [call, fails]
            if call.as_slice() == b"call".as_slice() && fails.as_slice() == b"fails".as_slice() => {
            Some(Each::FailingCall { every })
        }
        _ => None,
    }
}

fn asked_by(words: &[Vec<u8>]) -> Option<Each> {
    let (first, behind) = words.split_first()?;
    match ordinal_of(first) {
        Some(every) => asked(behind, every),
        None => asked(words, 1),
    }
}

/// What a line with `each` asks for; nothing where it is another one.
pub(crate) fn each_of(alloc: Global, line: &Line) -> Result<Option<Each>, Wrong> {
    let Some((first, behind)) = line.words.split_first() else {
        return Ok(None);
    };
    if first.as_slice() != b"each".as_slice() {
        return Ok(None);
    }
    match asked_by(behind) {
        Some(Each::Stop { .. }) if !line.wants_ok() => {
            Err(complain(alloc, line, b"stops have no answer"))
        }
        Some(each) => Ok(Some(each)),
        None => Err(complain(alloc, line, b"a step that can't be read")),
    }
}

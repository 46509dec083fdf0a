use crate::directory::{rest, word};
use crate::reading::strings_of;
use crate::trouble::Trouble;
use crate::writing::{add, add_number, add_quoted, number, text};
use child::{ChildStatus, run_child};
use dir_disk::{MemSink, MemSource};
use std::alloc::Global;

/// How a child ended, and what it wrote.
#[derive(Drop)]
struct Run {
    status: ChildStatus,
    written: Vec<u8>,
}

impl Run {
    /// Whether the other run may be one over the same text in other pieces: one that isn't done may write more of the same.
    fn agrees(&self, other: &Run) -> bool {
        let is_same = self.written == other.written;
        let is_more = self.written.starts_with(&other.written)
            || other.written.starts_with(&self.written);
        self.status == other.status && (is_same || is_more && self.status != ChildStatus::Ok)
    }
}

/// Runs a child over a source.
fn run_over(alloc: Global, source: &mut MemSource, words: &[String]) -> Result<Run, Trouble> {
    let mut sink = MemSink::new(alloc, Vec::new(alloc));
    let status = run_child(alloc, words, source, &mut sink);
    Ok(Run {
        status,
        written: text(alloc, sink.written())?,
    })
}

/// Runs a child over a text, in pieces of at most so many bytes.
fn run_in(alloc: Global, input: &[u8], piece: u32, words: &[String]) -> Result<Run, Trouble> {
    let mut source = MemSource::new(text(alloc, input)?, piece.max(1), Vec::new(alloc));
    run_over(alloc, &mut source, words)
}

fn of_run(alloc: Global, run: &Run) -> Result<Vec<u8>, Trouble> {
    let mut out = number(alloc, u64::from(run.status.code()))?;
    if let ChildStatus::BadLine { line } = run.status {
        add(&mut out, b" line ")?;
        add_number(alloc, &mut out, line)?;
    }
    add(&mut out, b" ")?;
    add_quoted(&mut out, &run.written)?;
    Ok(out)
}

/// `TEXT WORD ..`: the exit code of a child of these words over a text, and what it writes; where it refuses a record, the
/// most that it writes in pieces of any size. `differs` where another size makes another run.
pub(crate) fn child(alloc: Global, args: &[Vec<u8>]) -> Result<Vec<u8>, Trouble> {
    let words = strings_of(alloc, rest(args, 1))?;
    let whole = run_in(alloc, word(args, 0), 65_536, &words)?;
    let finest = run_in(alloc, word(args, 0), 1, &words)?;
    for piece in [2, 7] {
        let run = run_in(alloc, word(args, 0), piece, &words)?;
        if !run.agrees(&whole) || !run.agrees(&finest) {
            return text(alloc, b"differs");
        }
    }
    if whole.agrees(&finest) {
        of_run(alloc, longer(&whole, &finest))
    } else {
        text(alloc, b"differs")
    }
}

/// The run that wrote more.
fn longer<'a>(one: &'a Run, other: &'a Run) -> &'a Run {
    if one.written.len() < other.written.len() {
        other
    } else {
        one
    }
}

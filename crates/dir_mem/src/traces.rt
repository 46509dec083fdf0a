ghost use Rattle.std.specs.Prelude.{◌≡◌, [], ◌∷◌, IfOk};
ghost use Rattle.dir_disk.specs.State.{Gone, just};
ghost use Rattle.dir_mem.specs.Traces.{content_of, may_of, member_of, members_of, newest, shown};
ghost use Rattle.dir_mem.specs.Images.{oldest};
ghost use Rattle.dir_mem.specs.Looking.{is_gone};

use peg_text::NoMemory;
use std::alloc::Global;

/// The bytes of a file that may have any: `garbage\n`.
pub const GARBAGE: &[u8] = b"garbage\n";

/// What a stop may leave at a path.
#[derive(Drop)]
pub(crate) enum Trace {
    /// No file.
    NoFile,
    /// A file of just these bytes.
    Bytes(Vec<u8>),
    /// A file of any bytes.
    AnyFile,
}

impl Trace {
    /// Whether the trace is that of no file.
    pub(crate) fn is_no_file(&self) -> bool
        ensures { result ≡ is_gone (member_of self.now) }
    {
        matches!(self, Trace::NoFile)
    }

    /// The same trace again.
    fn copy(&self, alloc: Global) -> Result<Trace, NoMemory>
        ensures { IfOk result (λ trace. member_of trace ≡ member_of self.now) }
    {
        match self {
            Trace::NoFile => Ok(Trace::NoFile),
            Trace::Bytes(bytes) => Ok(Trace::Bytes(Vec::from_slice(alloc, bytes)?)),
            Trace::AnyFile => Ok(Trace::AnyFile),
        }
    }
}

/// A trace of just this content.
pub(crate) fn trace_of(alloc: Global, content: Option<&[u8]>) -> Result<Trace, NoMemory>
    ensures { IfOk result (λ trace. member_of trace ≡ just (content_of content.entry)) }
{
    match content {
        None => Ok(Trace::NoFile),
        Some(bytes) => Ok(Trace::Bytes(Vec::from_slice(alloc, bytes)?)),
    }
}

/// The same traces again.
pub(crate) fn copies(alloc: Global, traces: &[Trace]) -> Result<Vec<Trace>, NoMemory>
    ensures { IfOk result (λ copies. members_of copies.items ≡ members_of traces.now) }
{
    let mut copies = Vec::new(alloc);
    for trace in traces {
        copies.push(trace.copy(alloc)?)?;
    }
    Ok(copies)
}

/// The newest trace in front of the older ones; where none were kept, the path was gone.
pub(crate) fn with_newest(
    alloc: Global,
    newest: Trace,
    older: Option<&[Trace]>,
) -> Result<Vec<Trace>, NoMemory>
    ensures { IfOk result (λ may. members_of may.items ≡ member_of newest ∷ may_of older.entry) }
{
    let mut may = Vec::new(alloc);
    may.push(newest)?;
    let Some(traces) = older else {
        may.push(Trace::NoFile)?;
        return Ok(may);
    };
    for trace in traces {
        may.push(trace.copy(alloc)?)?;
    }
    Ok(may)
}

/// What a trace shows; any file is one of `garbage\n`.
fn shown(trace: &Trace) -> Option<&[u8]>
    ensures { content_of result ≡ shown (member_of trace.now) }
{
    match trace {
        Trace::NoFile => None,
        Trace::Bytes(bytes) => Some(bytes.as_slice()),
        Trace::AnyFile => Some(GARBAGE),
    }
}

/// What the newest trace shows.
pub(crate) fn newest(may: Option<&[Trace]>) -> Option<&[u8]>
    ensures { content_of result ≡ newest (may_of may.entry) }
{
    shown(may?.first()?)
}

/// What the oldest trace shows.
pub(crate) fn oldest(may: Option<&[Trace]>) -> Option<&[u8]>
    ensures { content_of result ≡ oldest (may_of may.entry) }
{
    shown(may?.last()?)
}

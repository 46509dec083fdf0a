ghost use Rattle.std.specs.Prelude.{◌≡◌, ◌≢◌, [], ◌++◌, ◌-◌, ◌<◌, ◌^◌, ℕ, List, Option, IfErr, IfOk, IsErrOf};
ghost use Rattle.dir_disk.specs.Causes.{HasCause};
ghost use Rattle.dir_disk.specs.Streams.{AtEnd};
ghost use Rattle.edge_text.specs.Feeding.{taken_of};
ghost use Rattle.store.specs.Ingesting.{HasFed, IsNext, IsOfMemory, IsOfSource, IsPassedOn};

use crate::fault::IngestFault;
use crate::sizes::PIECE;
use dir_disk::Source;
use edge_text::{EdgeFault, EdgeReader};
use graph::Edge;
use std::alloc::Global;

/// How the text of a source's edges goes on.
#[derive(Clone, Copy, Debug, PartialEq, Eq)]
pub(crate) enum Next {
    /// There may be more of it.
    More,
    /// That was all of it.
    End,
    /// That was all of it before a refusal.
    Refused(EdgeFault),
}

/// Passes a refusal on; want of memory is a fault.
fn refused(fault: EdgeFault) -> Result<Next, IngestFault>
    ensures passed { IsPassedOn fault result }
    ensures no_more { IfOk result (λ next. next ≢ Next.More) }
    ensures err { IfErr result IsOfMemory }
{
    match fault {
        EdgeFault::NoMemory => Err(IngestFault::NoMemory),
        EdgeFault::BadEdge { .. } | EdgeFault::BigNode { .. } | EdgeFault::TooLarge => {
            Ok(Next::Refused(fault))
        }
    }
}

/// Takes in that a source has ended. Afterwards `text` is the text of the edge that this brings.
fn last_text(
    alloc: Global,
    reader: &mut EdgeReader,
    edges: &mut Vec<Edge>,
    text: &mut Vec<u8>,
) -> Result<Next, IngestFault>
    requires empty { text.old.items ≡ [] }
    ensures next { (n : ℕ) (before now : Option (List ℕ)) (sofar : List ℕ)
        → HasFed n before now reader.old sofar → AtEnd now
        → IfOk result (IsNext n before now reader.new (sofar ++ text.new.items)) }
    ensures no_more { IfOk result (λ next. next ≢ Next.More) }
    ensures err { IfErr result IsOfMemory }
{
    match reader.end(alloc, edges, text) {
        Ok(()) => Ok(Next::End),
        Err(fault) => refused(fault),
    }
}

/// Reads the next piece of a source. Afterwards `text` is the text of the edges that it brings; `edges` is room for
/// them.
pub(crate) fn next_text<E: Source>(
    alloc: Global,
    source: &mut E,
    reader: &mut EdgeReader,
    edges: &mut Vec<Edge>,
    text: &mut Vec<u8>,
) -> Result<Next, IngestFault>
    ensures next { (n : ℕ) (before : Option (List ℕ)) (sofar : List ℕ)
        → HasFed n before (E.left source.old) reader.old sofar
        → IfOk result (IsNext n before (E.left source.new) reader.new (sofar ++ text.new.items)) }
    ensures nearer { IfOk result
        (λ next. next ≡ Next.More → 2 ^ 36 - taken_of reader.new < 2 ^ 36 - taken_of reader.old) }
    ensures end { IfOk result (λ next. next ≡ Next.End → AtEnd (E.left source.new)) }
    ensures cause { HasCause IngestFault.Read (E.faults source.old) (E.faults source.new) result }
    ensures steady { ¬ IsErrOf result IngestFault.Read → E.faults source.new ≡ E.faults source.old }
    ensures err { IfErr result IsOfSource }
{
    edges.clear();
    text.clear();
    let piece = match source.read(alloc, PIECE) {
        Ok(piece) => piece,
        Err(fault) => return Err(fault.into()),
    };
    if piece.is_empty() {
        return last_text(alloc, reader, edges, text);
    }
    match reader.feed(alloc, &piece, edges, text) {
        Ok(()) => Ok(Next::More),
        Err(fault) => refused(fault),
    }
}

ghost use Rattle.std.specs.Prelude.{◌≡◌, ◌+◌, ◌^◌, ◌≤◌, ◌++◌, length, IfOk, IfErr, MatchOption, drop, Some};
ghost use Rattle.peg_text.specs.Lists.{GoesOnFrom};
ghost use Rattle.peg_text.specs.Records.{HasNoLf, cut_of};
ghost use Rattle.edge_text.specs.Answers.{UnlessOutOfMemory, UnlessNoMemory, fault_in};
ghost use Rattle.edge_text.specs.Edges.{nothing, read_first, reading_of};
ghost use Rattle.edge_text.specs.Feeding.{edge_in};
ghost use Rattle.edge_text.specs.Unfinished.{HasVerdict, ReadsAll};

use crate::fault::EdgeFault;
use crate::plain::read_plain;
use crate::verdict::{Verdict, judge, judge_pair};
use graph::Edge;
use memchr::memchr;

/// A record that was judged, and where the bytes after its LF begin.
#[derive(Clone, Copy)]
struct Judged {
    verdict: Verdict,
    next: usize,
}

/// What comes after the records that were read.
#[derive(Clone, Copy)]
pub struct Stop {
    /// The number of the next record.
    pub line: u64,
    /// Where its bytes begin.
    pub start: usize,
}

/// Reads the records that an LF ends, of which the first has the number `first`, up to one that is refused.
pub fn read_records(
    nodes: u32,
    first: u64,
    bytes: &[u8],
    edges: &mut Vec<Edge>,
) -> Result<Stop, EdgeFault>
    requires { first + length bytes.now ≤ 2 ^ 37 }
    ensures ok { IfOk result (λ stop. ReadsAll nodes first bytes.now stop.line stop.start) }
    ensures err { IfErr result (λ fault.
        UnlessOutOfMemory fault ((reading_of nodes first (cut_of bytes.now).whole).refusal ≡ Some fault)) }
    ensures added { UnlessNoMemory result
        (edges.new.items ≡ edges.old.items ++ (reading_of nodes first (cut_of bytes.now).whole).edges) }
    ensures kept { GoesOnFrom edges.old.items edges.new.items }
{
    let mut line = first;
    let mut start = 0;
    while let Some(judged) = judge_next(nodes, bytes, start) {
        if let Err(fault) = accept(line, judged.verdict, edges) {
            return Err(fault);
        }
        line += 1;
        start = judged.next;
    }
    Ok(Stop { line, start })
}

/// Appends the edge of a record, or says why the record with this number is refused.
pub fn accept(line: u64, verdict: Verdict, edges: &mut Vec<Edge>) -> Result<(), EdgeFault>
    ensures answer { UnlessNoMemory result (fault_in result ≡ (read_first line verdict nothing).refusal) }
    ensures added { UnlessNoMemory result (edges.new.items ≡ edges.old.items ++ edge_in verdict) }
    ensures kept { GoesOnFrom edges.old.items edges.new.items }
{
    match verdict {
        Verdict::Skipped => Ok(()),
        Verdict::Accepted(edge) => match edges.push(edge) {
            Ok(()) => Ok(()),
            Err(_) => Err(EdgeFault::NoMemory),
        },
        Verdict::Bad => Err(EdgeFault::BadEdge { line }),
        Verdict::Big(id) => Err(EdgeFault::BigNode { line, id }),
    }
}

/// Judges the record that begins at `start`, if an LF ends it.
#[inline(always)]
fn judge_next(nodes: u32, bytes: &[u8], start: usize) -> Option<Judged>
    requires { start ≤ length bytes.now }
    ensures { MatchOption result (HasNoLf (drop start bytes.now))
        (λ judged. HasVerdict nodes bytes.now start judged.next judged.verdict) }
{
    match read_plain(bytes, start) {
        Some(plain) => Some(Judged {
            verdict: judge_pair(nodes, Some(plain.source), Some(plain.target)),
            next: plain.next,
        }),
        None => judge_any(nodes, bytes, start),
    }
}

/// Does the same for a record of any form.
fn judge_any(nodes: u32, bytes: &[u8], start: usize) -> Option<Judged>
    requires { start ≤ length bytes.now }
    ensures { MatchOption result (HasNoLf (drop start bytes.now))
        (λ judged. HasVerdict nodes bytes.now start judged.next judged.verdict) }
{
    let length = memchr(b'\n', &bytes[start..])?;
    let end = start + length;
    Some(Judged {
        verdict: judge(nodes, &bytes[start..end]),
        next: end + 1,
    })
}

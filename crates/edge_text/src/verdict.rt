ghost use Rattle.std.specs.Prelude.{◌≡◌};
ghost use Rattle.edge_text.specs.Verdicts.{id_of, pair_verdict, verdict_of, without_cr};

use graph::Edge;
use peg_text::{read_decimal, split_pair};

/// The most digits of an id, leading zeros included.
const MOST_DIGITS: usize = 10;

/// What a record says.
#[derive(Clone, Copy)]
pub enum Verdict {
    /// Nothing: it is empty or a comment.
    Skipped,
    /// An edge between two nodes of the graph.
    Accepted(Edge),
    /// It is not two ids.
    Bad,
    /// Two ids, of which this is the first that is no node of the graph.
    Big(u64),
}

/// What a record, given without its LF, says where there are this many nodes.
pub fn judge(nodes: u32, line: &[u8]) -> Verdict
    ensures { result ≡ verdict_of nodes line.now }
{
    let text = strip_cr(line);
    if text.is_empty() || text[0] == b'#' {
        return Verdict::Skipped;
    }
    let (source, target) = split_pair(text);
    judge_pair(nodes, read_id(source), read_id(target))
}

/// What two ids say where there are this many nodes.
pub fn judge_pair(nodes: u32, source: Option<u64>, target: Option<u64>) -> Verdict
    ensures { result ≡ pair_verdict nodes source target }
{
    let nodes = u64::from(nodes);
    match (source, target) {
        (Some(source), Some(target)) => {
            if nodes <= source {
                Verdict::Big(source)
            } else if nodes <= target {
                Verdict::Big(target)
            } else {
                Verdict::Accepted(Edge {
                    source: source as u32,
                    target: target as u32,
                })
            }
        }
        _ => Verdict::Bad,
    }
}

/// The text without one CR at its end.
fn strip_cr(text: &[u8]) -> &[u8]
    ensures { result.now ≡ without_cr text.now }
{
    if !text.is_empty() && text[text.len() - 1] == b'\r' {
        &text[..text.len() - 1]
    } else {
        text
    }
}

/// The number that 1 to 10 digits write.
fn read_id(text: &[u8]) -> Option<u64>
    ensures { result ≡ id_of text.now }
{
    if text.len() > MOST_DIGITS {
        return None;
    }
    read_decimal(text)
}

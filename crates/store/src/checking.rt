ghost use Rattle.std.specs.Prelude.{◌≡◌, ℕ, List, Option, None, IfOk, IfSome, OnOk, IsErrOf};
ghost use Rattle.dir_disk.specs.Calls.{HasFile};
ghost use Rattle.dir_disk.specs.Causes.{HasCause};
ghost use Rattle.dir_disk.specs.Lent.{IsNoOutput};
ghost use Rattle.dir_disk.specs.Moments.{Both, Through, files};
ghost use Rattle.dir_disk.specs.State.{bytes_at};
ghost use Rattle.dir_disk.specs.Streams.{AtEnd};
ghost use Rattle.edge_text.specs.Edges.{edges_of};
ghost use Rattle.store.specs.Comparing.{IsSame};
ghost use Rattle.store.specs.Ingesting.{HasRead, IsJudged};

use crate::comparing::Compared;
use crate::edges::{Next, next_text};
use crate::fault::IngestFault;
use dir_disk::{Dir, Source};
use edge_text::EdgeReader;
use peg_base::Path;
use std::alloc::Global;

/// Whether the file goes on behind the text of all edges.
fn check_end<D: Dir>(
    alloc: Global,
    dir: &mut D,
    path: &Path,
    compared: &Compared,
) -> Result<(), IngestFault>
    requires lent { IsNoOutput (D.lent dir.old) path.now }
    requires there { D.tells → HasFile (files (D.told dir.old)) path.now }
    ensures judged { let file = bytes_at (files (D.told dir.old)) path.now in D.tells
        → (n : ℕ) (before : Option (List ℕ)) (text : List ℕ)
        → HasRead n before text None → IsSame file text compared.now
        → IfSome before (λ bytes. IsJudged file (edges_of n bytes) result) }
    ensures stands { D.tells
        → Through (Both (λ state. state ≡ files (D.told dir.old))) (D.told dir.old) (D.told dir.new) }
    ensures lent { D.lent dir.new ≡ D.lent dir.old }
    ensures beside { D.beside dir.new ≡ D.beside dir.old }
    ensures cause { HasCause IngestFault.Disk (D.faults dir.old) (D.faults dir.new) result }
    ensures never { ¬ IsErrOf result IngestFault.Read }
{
    if let Some(line) = compared.end(alloc, dir, path)? {
        return Err(IngestFault::OtherEdges { line });
    }
    Ok(())
}

/// Compares the edges of all that the source has left, where ids are below `nodes`, with the file at the path.
/// Texts are compared, a line `source TAB target` for each edge.
///
/// A record is judged before it is compared. A refusal of the source's text comes where the edges before it are a
/// front of the file; where they aren't, the answer is the line at which they part from it, counted in edges.
pub fn check_edges<E: Source, D: Dir>(
    alloc: Global,
    nodes: u32,
    source: &mut E,
    dir: &mut D,
    path: &Path,
) -> Result<(), IngestFault>
    requires lent { IsNoOutput (D.lent dir.old) path.now }
    requires there { D.tells → HasFile (files (D.told dir.old)) path.now }
    ensures judged { D.tells → IfSome (E.left source.old)
        (λ bytes. IsJudged (bytes_at (files (D.told dir.old)) path.now) (edges_of nodes bytes) result) }
    ensures end { OnOk result (AtEnd (E.left source.new)) }
    ensures stands { D.tells
        → Through (Both (λ state. state ≡ files (D.told dir.old))) (D.told dir.old) (D.told dir.new) }
    ensures lent { D.lent dir.new ≡ D.lent dir.old }
    ensures beside { D.beside dir.new ≡ D.beside dir.old }
    ensures disk { HasCause IngestFault.Disk (D.faults dir.old) (D.faults dir.new) result }
    ensures read { HasCause IngestFault.Read (E.faults source.old) (E.faults source.new) result }
    ensures steady_source { ¬ IsErrOf result IngestFault.Read → E.faults source.new ≡ E.faults source.old }
{
    let mut reader = EdgeReader::new(alloc, nodes);
    let mut edges = Vec::new(alloc);
    let mut text = Vec::new(alloc);
    let mut compared = Compared::new();
    'pieces: loop {
        let next = match next_text(alloc, source, &mut reader, &mut edges, &mut text) {
            Ok(next) => next,
            Err(fault) => return Err(fault),
        };
        if !compared.go_on(alloc, dir, path, &text)? {
            return Err(IngestFault::OtherEdges {
                line: compared.line,
            });
        }
        match next {
            Next::More => {}
            Next::End => return check_end(alloc, dir, path, &compared),
            Next::Refused(fault) => return Err(fault.into()),
        }
    }
}

ghost use Rattle.std.specs.Prelude.{◌≡◌, ◌<◌, ℕ, List, [], None, Some, length, IfErr, IfSome, OnOk, IsErrOf};
ghost use Rattle.dir_disk.specs.Calls.{IsOpen};
ghost use Rattle.dir_disk.specs.Causes.{HasCause};
ghost use Rattle.dir_disk.specs.Lent.{IsFree};
ghost use Rattle.dir_disk.specs.Moments.{Both, Through, Told, files};
ghost use Rattle.dir_disk.specs.State.{StandsOutside};
ghost use Rattle.dir_disk.specs.Streams.{AtEnd};
ghost use Rattle.edge_text.specs.Edges.{edges_of};
ghost use Rattle.committer.specs.Folders.{IsBegun, IsUnmarked, Writes, fixed};
ghost use Rattle.committer.specs.Paths.{success_of};
ghost use Rattle.store.specs.Ingesting.{IsOfDirectory, IsReasonOf, accepted_text};
ghost use Rattle.store.specs.Sealed.{IsMade, IsWriting, Makes};

use crate::edges::{Next, next_text};
use crate::fault::IngestFault;
use crate::sealed::{seal, send};
use committer::{Sealing, begin_sealed};
use dir_disk::{Dir, Source};
use edge_text::EdgeReader;
use peg_base::Path;
use std::alloc::Global;

/// Makes the folder whole whose edges were written.
fn write_end<D: Dir>(alloc: Global, dir: &mut D, sealing: Sealing) -> Result<(), IngestFault>
    requires lent { IsFree (D.lent dir.old) sealing }
    requires begun { D.tells → IsBegun sealing (files (D.told dir.old)) }
    ensures made { D.tells → (entry : Told) (text : List ℕ) → IsWriting sealing text entry (D.told dir.old)
        → OnOk result (IsMade sealing text (files (D.told dir.new))) }
    ensures steps { D.tells → (entry : Told) (text : List ℕ) → IsWriting sealing text entry (D.told dir.old)
        → Through (Makes sealing text (files entry)) entry (D.told dir.new) }
    ensures err { IfErr result IsOfDirectory }
    ensures lent { D.lent dir.new ≡ D.lent dir.old }
    ensures beside { D.beside dir.new ≡ D.beside dir.old }
    ensures cause { HasCause IngestFault.Disk (D.faults dir.old) (D.faults dir.new) result }
{
    match seal(alloc, dir, sealing) {
        Ok(()) => Ok(()),
        Err(fault) => Err(fault.into()),
    }
}

/// Writes the edges of all that the source has left to the folder's part.
fn write_all<E: Source, D: Dir>(
    alloc: Global,
    nodes: u32,
    source: &mut E,
    dir: &mut D,
    sealing: &mut Sealing,
) -> Result<(), IngestFault>
    requires lent { IsFree (D.lent dir.old) sealing.old }
    requires begun { D.tells → IsBegun sealing.old (files (D.told dir.old)) }
    ensures folder { sealing.new ≡ sealing.old }
    ensures begun { D.tells → OnOk result (IsBegun sealing.old (files (D.told dir.new))) }
    ensures written { D.tells → (entry : Told) → IsWriting sealing.old [] entry (D.told dir.old)
        → IfSome (E.left source.old)
        (λ bytes. OnOk result (IsWriting sealing.old (accepted_text nodes bytes) entry (D.told dir.new))) }
    ensures fine { IfSome (E.left source.old)
        (λ bytes. OnOk result ((edges_of nodes bytes).refusal ≡ None)) }
    ensures reason { IfSome (E.left source.old) (λ bytes. IfErr result (IsReasonOf (edges_of nodes bytes))) }
    ensures steps { D.tells → (entry : Told) → IsWriting sealing.old [] entry (D.told dir.old)
        → Through (Writes sealing.old (files entry)) entry (D.told dir.new) }
    ensures end { OnOk result (AtEnd (E.left source.new)) }
    ensures lent { D.lent dir.new ≡ D.lent dir.old }
    ensures beside { D.beside dir.new ≡ D.beside dir.old }
    ensures disk { HasCause IngestFault.Disk (D.faults dir.old) (D.faults dir.new) result }
    ensures read { HasCause IngestFault.Read (E.faults source.old) (E.faults source.new) result }
    ensures steady_source { ¬ IsErrOf result IngestFault.Read → E.faults source.new ≡ E.faults source.old }
{
    let mut reader = EdgeReader::new(alloc, nodes);
    let mut edges = Vec::new(alloc);
    let mut text = Vec::new(alloc);
    'pieces: loop {
        let next = match next_text(alloc, source, &mut reader, &mut edges, &mut text) {
            Ok(next) => next,
            Err(fault) => return Err(fault),
        };
        if let Err(fault) = send(alloc, dir, sealing, &text) {
            return Err(fault.into());
        }
        match next {
            Next::More => {}
            Next::End => return Ok(()),
            Next::Refused(fault) => return Err(fault.into()),
        }
    }
}

/// Makes a folder whole whose one part has the edges of all that the source has left, where ids are below `nodes`: a
/// line `source TAB target` for each, in their order.
///
/// After a refusal of the source or of its text the folder isn't whole. After a fault of the directory or want of
/// memory a stop leaves it not whole, or whole with all edges.
pub fn write_edges<E: Source, D: Dir>(
    alloc: Global,
    nodes: u32,
    source: &mut E,
    dir: &mut D,
    folder: &Path,
) -> Result<(), IngestFault>
    requires short { length folder.now < 8 }
    requires lent { IsFree (D.lent dir.old) folder.now }
    requires unmarked { D.tells → IsUnmarked folder.now (files (D.told dir.old)) }
    requires is_open { D.tells → IsOpen (files (D.told dir.old)) folder.now }
    ensures made { D.tells → IfSome (E.left source.old)
        (λ bytes. OnOk result (IsMade folder.now (accepted_text nodes bytes) (files (D.told dir.new)))) }
    ensures fine { IfSome (E.left source.old)
        (λ bytes. OnOk result ((edges_of nodes bytes).refusal ≡ None)) }
    ensures reason { IfSome (E.left source.old)
        (λ bytes. IfErr result (IsReasonOf (edges_of nodes bytes))) }
    ensures steps { let entry = files (D.told dir.old) in D.tells → IfSome (E.left source.old)
        (λ bytes. Through (Makes folder.now (accepted_text nodes bytes) entry) (D.told dir.old) (D.told dir.new)) }
    ensures refused { D.tells → IfErr result (λ fault. ¬ IsOfDirectory fault
        → Through (Writes folder.now (files (D.told dir.old))) (D.told dir.old) (D.told dir.new)) }
    ensures whole { D.tells
        → OnOk result (files (D.told dir.new) (success_of folder.now) ≡ fixed (Some [])) }
    ensures outside { let entry = files (D.told dir.old) in D.tells
        → Through (Both (StandsOutside folder.now entry)) (D.told dir.old) (D.told dir.new) }
    ensures end { OnOk result (AtEnd (E.left source.new)) }
    ensures lent { D.lent dir.new ≡ D.lent dir.old }
    ensures beside { D.beside dir.new ≡ D.beside dir.old }
    ensures disk { HasCause IngestFault.Disk (D.faults dir.old) (D.faults dir.new) result }
    ensures read { HasCause IngestFault.Read (E.faults source.old) (E.faults source.new) result }
    ensures steady_source { ¬ IsErrOf result IngestFault.Read → E.faults source.new ≡ E.faults source.old }
{
    let mut sealing = match begin_sealed(alloc, dir, folder) {
        Ok(sealing) => sealing,
        Err(fault) => return Err(fault.into()),
    };
    if let Err(fault) = write_all(alloc, nodes, source, dir, &mut sealing) {
        return Err(fault);
    }
    write_end(alloc, dir, sealing)
}

ghost use Rattle.std.specs.Prelude.{◌≡◌, ◌++◌, ◌<◌, length, OnOk};
ghost use Rattle.dir_disk.specs.Calls.{IsOpen};
ghost use Rattle.dir_disk.specs.Causes.{HasCause};
ghost use Rattle.dir_disk.specs.Lent.{IsFree};
ghost use Rattle.dir_disk.specs.Moments.{Through, files};
ghost use Rattle.committer.specs.Folders.{IsUnmarked};
ghost use Rattle.store.specs.Sealed.{IsMade, Makes, node_line, nodes_text};

use crate::fault::StoreFault;
use crate::sealed::{seal, send, send_full};
use committer::begin_sealed;
use dir_disk::Dir;
use peg_base::Path;
use peg_text::{NoMemory, write_decimal};
use std::alloc::Global;

/// Appends the line of a node: `p TAB P SP p`.
fn append_node(alloc: Global, out: &mut Vec<u8>, node: u32) -> Result<(), NoMemory>
    ensures { OnOk result (out.new.items ≡ out.old.items ++ node_line node) }
{
    write_decimal(alloc, out, u64::from(node))?;
    out.extend_from_slice(b"\tP ")?;
    write_decimal(alloc, out, u64::from(node))?;
    out.push(b'\n')?;
    Ok(())
}

/// Makes a folder whole whose one part has a line `p TAB P SP p` for each of so many nodes.
pub fn write_nodes<D: Dir>(
    alloc: Global,
    dir: &mut D,
    folder: &Path,
    nodes: u32,
) -> Result<(), StoreFault>
    requires short { length folder.now < 8 }
    requires lent { IsFree (D.lent dir.old) folder.now }
    requires unmarked { D.tells → IsUnmarked folder.now (files (D.told dir.old)) }
    requires is_open { D.tells → IsOpen (files (D.told dir.old)) folder.now }
    ensures made { D.tells → OnOk result (IsMade folder.now (nodes_text nodes) (files (D.told dir.new))) }
    ensures steps { let entry = files (D.told dir.old) in D.tells
        → Through (Makes folder.now (nodes_text nodes) entry) (D.told dir.old) (D.told dir.new) }
    ensures lent { D.lent dir.new ≡ D.lent dir.old }
    ensures beside { D.beside dir.new ≡ D.beside dir.old }
    ensures cause { HasCause StoreFault.Disk (D.faults dir.old) (D.faults dir.new) result }
{
    let mut sealing = begin_sealed(alloc, dir, folder)?;
    let mut held = Vec::new(alloc);
    for node in 0..nodes {
        append_node(alloc, &mut held, node)?;
        send_full(alloc, dir, &mut sealing, &mut held)?;
    }
    send(alloc, dir, &mut sealing, &held)?;
    seal(alloc, dir, sealing)
}

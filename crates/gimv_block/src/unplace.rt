ghost use Rattle.std.specs.Prelude.{◌≡◌, ◌+◌, ◌≤◌, ◌<◌, ◌^◌, ◌++◌, true, None, is_some, length, IfSome, OnOk, IsErrOf};
ghost use Rattle.std.specs.List.{list_all};
ghost use Rattle.peg_text.specs.Lists.{GoesOnFrom};
ghost use Rattle.gimv_base.specs.Standings.{fresh};
ghost use Rattle.gimv_block.specs.Unplacing.{place_number_line, place_number_lines, unplace_rule, unplaced_of};

use crate::blocks::Blocks;
use crate::records::read_block;
use gimv_base::{Role, RoleFault, append_record, read_node};
use gimv_core::Gimv;
use peg_text::{NoMemory, write_decimal};
use std::alloc::Global;

/// `unplace`: each place of a block with the number of its value. The records of the nodes at places are copied.
#[derive(Drop)]
pub struct Unplace<G> {
    algorithm: G,
    blocks: Blocks,
}

impl<G: Gimv> Unplace<G> {
    /// The role before its first record, over this many nodes in blocks of this many.
    pub fn new(algorithm: G, nodes: u32, block: u32) -> Unplace<G>
        requires { 1 ≤ block }
        ensures { ⟦<Unplace<G> as Role>⟧.standing result ≡ fresh (unplace_rule (G.algebra algorithm) block nodes) }
    {
        Unplace {
            algorithm,
            blocks: Blocks::new(nodes, block),
        }
    }
}

impl<G: Gimv> Role for Unplace<G> {
    ghost standing = { λ s. fresh (unplace_rule (G.algebra s.algorithm) s.blocks.len s.blocks.nodes) };

    fn line(&mut self, alloc: Global, text: &[u8], out: &mut Vec<u8>) -> Result<(), RoleFault> {
        let before = out.len();
        match append_unplaced(alloc, &self.algorithm, self.blocks, text, out) {
            Ok(()) => Ok(()),
            Err(fault) => {
                out.truncate(before);
                Err(fault)
            }
        }
    }

    fn end(&mut self, _: Global, _: &mut Vec<u8>) -> Result<(), RoleFault> {
        Ok(())
    }
}

/// Appends what a record gives. After a refusal some of it may have been appended.
fn append_unplaced<G: Gimv>(
    alloc: Global,
    algorithm: &G,
    blocks: Blocks,
    text: &[u8],
    out: &mut Vec<u8>,
) -> Result<(), RoleFault>
    ensures ok { OnOk result (IfSome (unplaced_of (G.algebra algorithm.now) blocks.len blocks.nodes text.now) (λ lines. out.new.items ≡ out.old.items ++ lines)) }
    ensures good { OnOk result (is_some (unplaced_of (G.algebra algorithm.now) blocks.len blocks.nodes text.now) ≡ true) }
    ensures bad { IsErrOf result RoleFault.Bad → unplaced_of (G.algebra algorithm.now) blocks.len blocks.nodes text.now ≡ None }
    ensures never_before { ¬ IsErrOf result RoleFault.BadBefore }
    ensures kept { GoesOnFrom out.old.items out.new.items }
{
    if let Some((block, vals)) = read_block(alloc, algorithm, blocks, text)? {
        append_place_numbers(alloc, out, algorithm, blocks.start(block), &vals)?;
        return Ok(());
    }
    if read_node(text, blocks.nodes()).is_none() {
        return Err(RoleFault::Bad);
    }
    append_record(out, text)?;
    Ok(())
}

/// Appends places that follow each other, each with the number of its value. Without memory some of it may have been
/// appended.
fn append_place_numbers<G: Gimv>(
    alloc: Global,
    out: &mut Vec<u8>,
    algorithm: &G,
    first: u64,
    vals: &Vec<G::Val>,
) -> Result<(), NoMemory>
    requires fit { list_all (G.algebra algorithm.now).fits_val vals.now.items ≡ true }
    requires few { first + length vals.now.items ≤ 2 ^ 32 }
    ensures ok { OnOk result (out.new.items ≡ out.old.items ++ place_number_lines (G.algebra algorithm.now) first vals.now.items) }
    ensures kept { GoesOnFrom out.old.items out.new.items }
{
    for place in 0..vals.len() {
        append_place_number(
            alloc,
            out,
            first + place as u64,
            algorithm.number(&vals[place]),
        )?;
    }
    Ok(())
}

/// Appends a place and its number. Without memory some of it may have been appended.
fn append_place_number(
    alloc: Global,
    out: &mut Vec<u8>,
    place: u64,
    number: u64,
) -> Result<(), NoMemory>
    ensures ok { OnOk result (out.new.items ≡ out.old.items ++ place_number_line place number) }
    ensures kept { GoesOnFrom out.old.items out.new.items }
{
    write_decimal(alloc, out, place)?;
    out.extend_from_slice(b"\tQ ")?;
    write_decimal(alloc, out, number)?;
    out.push(b'\n')?;
    Ok(())
}

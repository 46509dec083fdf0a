ghost use Rattle.std.specs.Prelude.{◌≡◌, ◌≤◌, ◌<◌, ◌^◌, length, map, nat_lt, option_and_then, option_map, true, IfOk, IfSome};
ghost use Rattle.std.specs.List.{list_all};
ghost use Rattle.gimv_block.specs.BlockRecords.{seat_record_of};
ghost use Rattle.gimv_block.specs.Items.{all_some};
ghost use Rattle.gimv_base.specs.Standings.{fresh};
ghost use Rattle.gimv_block.specs.BlockBlame.{seated_blames_the_end};
ghost use Rattle.gimv_block.specs.BlockRules.{firstb_part, firstb_rule, seat_taken, seated_part};

use crate::blocks::Blocks;
use crate::parts::clear_rows;
use crate::records::read_seat;
use crate::values::append_values;
use gimv_base::{Grouped, Grouping, Role, RoleFault, read_below};
use gimv_core::Gimv;
use peg_text::{NoMemory, split_pair};
use std::alloc::Global;

/// `firstb`: each block with the first values of its nodes, by their offsets.
#[derive(Drop)]
pub struct FirstBlock<G: Gimv + Drop> {
    groups: Grouped<Seats<G>>,
}

impl<G: Gimv + Drop> FirstBlock<G> {
    /// The role before its first record, over this many nodes in blocks of this many.
    pub fn new(alloc: Global, algorithm: G, nodes: u32, block: u32) -> FirstBlock<G>
        requires { 1 ≤ block }
        ensures { ⟦<FirstBlock<G> as Role>⟧.standing result ≡ fresh (firstb_rule (G.algebra algorithm) block nodes) }
    {
        let blocks = Blocks::new(nodes, block);
        FirstBlock {
            groups: Grouped::new(alloc, Seats { algorithm, blocks }),
        }
    }
}

impl<G: Gimv + Drop> Role for FirstBlock<G> {
    ghost standing = { λ s. ⟦<Grouped<Seats<G>> as Role>⟧.standing s.groups };

    fn line(&mut self, alloc: Global, text: &[u8], out: &mut Vec<u8>) -> Result<(), RoleFault> {
        self.groups.line(alloc, text, out)
    }

    fn end(&mut self, alloc: Global, out: &mut Vec<u8>) -> Result<(), RoleFault> {
        self.groups.end(alloc, out)
    }
}

/// What is done with one block: the nodes at its offsets.
#[derive(Drop)]
struct Seats<G> {
    algorithm: G,
    blocks: Blocks,
}

/// A block with the nodes that have come, by their offsets.
#[derive(Drop)]
struct Seating {
    block: u32,
    nodes: Vec<Option<u32>>,
}

impl<G: Gimv + Drop> Grouping for Seats<G> {
    type State = Seating;

    ghost part = { λ s. firstb_part (G.algebra s.algorithm) s.blocks.len s.blocks.nodes };

    ghost further = { λ s state rs. seated_part (G.algebra s.algorithm) s.blocks.nodes state.block rs state.nodes.items };

    ghost fits = { λ s state. nat_lt (length state.nodes.items) (2 ^ 32) };

    ghost blames_the_end = { λ s state. seated_blames_the_end (G.algebra s.algorithm) s.blocks.nodes state.block state.nodes.items };

    fn begin(&self, alloc: Global, text: &[u8], _: &mut Vec<u8>) -> Result<Seating, RoleFault> {
        let (key, _) = split_pair(text);
        let Some(block) = read_below(key, u64::from(self.blocks.count())) else {
            return Err(RoleFault::Bad);
        };
        let mut nodes = Vec::new(alloc);
        clear_rows(&mut nodes, self.blocks.size(block))?;
        if seat(&mut nodes, self.blocks.nodes(), text).is_none() {
            return Err(RoleFault::Bad);
        }
        Ok(Seating { block, nodes })
    }

    fn go_on(
        &self,
        _: Global,
        state: &mut Seating,
        text: &[u8],
        _: &mut Vec<u8>,
    ) -> Result<(), RoleFault> {
        if seat(&mut state.nodes, self.blocks.nodes(), text).is_none() {
            return Err(RoleFault::Bad);
        }
        Ok(())
    }

    fn close(&self, alloc: Global, state: &Seating, out: &mut Vec<u8>) -> Result<(), RoleFault> {
        let Some(vals) = first_values(alloc, &self.algorithm, &state.nodes)? else {
            return Err(RoleFault::BadBefore);
        };
        append_values(
            alloc,
            out,
            &self.algorithm,
            state.block,
            vals.len() as u64,
            &vals,
        )?;
        Ok(())
    }
}

/// Puts the node of a record at its offset. `None` where the record is of another kind, or a node has come for its offset.
fn seat(nodes: &mut Vec<Option<u32>>, bound: u32, text: &[u8]) -> Option<()>
    requires { length nodes.old.items < 2 ^ 32 }
    ensures is { option_map (λ _. nodes.new.items) result ≡ option_and_then (seat_taken nodes.old.items) (seat_record_of (length nodes.old.items) bound text.now) }
    ensures as_many { length nodes.new.items ≡ length nodes.old.items }
{
    let (offset, node) = read_seat(text, nodes.len() as u32, bound)?;
    if nodes[offset as usize].is_some() {
        return None;
    }
    nodes[offset as usize] = Some(node);
    Some(())
}

/// The first values of nodes, if none is missing.
fn first_values<G: Gimv>(
    alloc: Global,
    algorithm: &G,
    nodes: &Vec<Option<u32>>,
) -> Result<Option<Vec<G::Val>>, NoMemory>
    ensures fit { IfOk result (λ found. IfSome found (λ vals. list_all (G.algebra algorithm.now).fits_val vals.items ≡ true)) }
    ensures is { IfOk result (λ found. option_map (λ vals. vals.items) found ≡ option_map (map (G.algebra algorithm.now).algorithm.first) (all_some nodes.now.items)) }
{
    let mut vals = Vec::new(alloc);
    for node in nodes {
        match node {
            Some(node) => vals.push(algorithm.first(alloc, *node)?)?,
            None => return Ok(None),
        }
    }
    Ok(Some(vals))
}

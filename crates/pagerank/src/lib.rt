//! The ranks of a graph's nodes in whole numbers (PageRank of Page, Brin, Motwani and Winograd 1999).
#![tactic(auto)]

ghost use Rattle.std.specs.Prelude.{◌≡◌, ◌*◌, ◌/◌, ◌≤◌, ◌^◌, ◌++◌, IfOk, IsOk, OnErr, OnOk};
ghost use Rattle.graph.specs.Algorithms.{capped_sum};
ghost use Rattle.pagerank.specs.Lawful.{page_rank_is_lawful};
ghost use Rattle.pagerank.specs.Ranks.{page_rank_algebra};

use gimv_core::Gimv;
use peg_text::{NoMemory, read_decimal, write_decimal};
use std::alloc::Global;
use std::marker::Model;

pub mod laws;
/// All ranks together, in units.
const WHOLE: u64 = 1 << 32;

/// Each node gets a small rank by itself, and 17 twentieths of each node's rank are shared among the edges that leave
/// it. Contracts see the number of nodes, which is at least 1.
///
/// A rank is a number of units of 2^-32, rounded down, and a message is a part of a rank. An entry is weighed by how many
/// edges leave its column, at least 1. Nothing is shared anew of a node that no edge leaves.
#[derive(Clone, Copy, Debug, PartialEq, Eq)]
pub struct PageRank {
    nodes: u32,
}

impl Model for PageRank {
    ghost use Rattle.std.specs.Prelude.{ℕ, ◌≤◌};

    ghost Value = { ℕ };

    ghost view = { λ ranks. ranks.nodes };

    ghost inverse = { λ nodes. record { nodes = nodes } };

    ghost invariant = { λ ranks. 1 ≤ ranks.nodes };
}

impl PageRank {
    /// The algorithm for a graph of so many nodes.
    pub fn new(nodes: u32) -> PageRank
        requires { 1 ≤ nodes }
        ensures { result ≡ nodes }
    {
        PageRank { nodes }
    }
}

impl Gimv for PageRank {
    type Val = u64;

    type Msg = u64;

    type Weight = u64;

    ghost algebra = { page_rank_algebra };

    ghost lawful = { page_rank_is_lawful };

    fn unit(&self) -> u64 {
        0
    }

    fn combine(&self, into: &mut u64, one: &u64) {
        *into = into.saturating_add(*one);
    }

    fn combine2(&self, weight: &u64, val: &u64) -> u64 {
        match (val.checked_mul(17), weight.checked_mul(20)) {
            (Some(passed), Some(parts)) => passed / parts,
            _ => share_of_large(*weight, *val),
        }
    }

    fn assign(&self, _: Global, old: &u64, all: &u64) -> Result<u64, NoMemory>
        ensures never_no_memory { IsOk result }
        ensures value { IfOk result (λ val. val ≡ capped_sum (3 * 2 ^ 32 / (20 * self.now)) all.now) }
    {
        let base = 3 * WHOLE / (20 * u64::from(self.nodes));
        Ok(base.saturating_add(*all))
    }

    fn same(&self, a: &u64, b: &u64) -> bool {
        a == b
    }

    fn first(&self, _: Global, _: u32) -> Result<u64, NoMemory>
        ensures never_no_memory { IsOk result }
        ensures value { IfOk result (λ val. val ≡ 2 ^ 32 / self.now) }
    {
        Ok(WHOLE / u64::from(self.nodes))
    }

    fn number(&self, val: &u64) -> u64 {
        *val
    }

    fn read_val(&self, _: Global, text: &[u8]) -> Result<Option<u64>, NoMemory> {
        Ok(read_decimal(text))
    }

    fn write_val(&self, alloc: Global, out: &mut Vec<u8>, val: &u64) -> Result<(), NoMemory> {
        write_decimal(alloc, out, *val)
    }

    fn read_msg(&self, text: &[u8]) -> Option<u64> {
        read_decimal(text)
    }

    fn write_msg(&self, alloc: Global, out: &mut Vec<u8>, msg: &u64) -> Result<(), NoMemory> {
        write_decimal(alloc, out, *msg)
    }

    fn read_weight(&self, text: &[u8]) -> Option<u64> {
        let degree = read_decimal(text)?;
        (degree >= 1).then_some(degree)
    }
}

/// What one of so many edges passes on of a rank, where a product may not fit in 64 bits.
fn share_of_large(degree: u64, rank: u64) -> u64
    requires { 1 ≤ degree }
    ensures { result ≡ 17 * rank / (20 * degree) }
{
    let share = 17 * u128::from(rank) / (20 * u128::from(degree));
    share as u64
}

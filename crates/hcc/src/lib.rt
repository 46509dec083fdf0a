//! The connected components of a graph, by the least label that comes to each node (HCC of Kang, Tsourakakis and
//! Faloutsos 2009).
#![tactic(auto)]

ghost use Rattle.std.specs.Prelude.{◌≡◌, ◌++◌, IfOk, IsOk, OnErr, OnOk, min};
ghost use Rattle.hcc.specs.Components.{hcc_algebra, label_as_message};
ghost use Rattle.hcc.specs.Lawful.{hcc_is_lawful, hcc_is_closing};

use gimv_core::{Closing, Gimv, One, read_one};
use peg_text::{NoMemory, read_decimal, write_decimal};
use std::alloc::Global;

pub mod laws;
/// Each node takes over the least label that comes to it. A label is the number of a node, and a message is a label.
#[derive(Clone, Copy, Debug, PartialEq, Eq)]
pub struct Hcc;

impl Hcc {
    /// The algorithm, which has no settings.
    pub fn new() -> Hcc {
        Hcc
    }
}

impl Gimv for Hcc {
    type Val = u64;

    type Msg = u64;

    type Weight = One;

    ghost algebra = { λ _. hcc_algebra };

    ghost lawful = { λ _. hcc_is_lawful };

    fn unit(&self) -> u64 {
        u64::MAX
    }

    fn combine(&self, into: &mut u64, one: &u64) {
        *into = (*into).min(*one);
    }

    fn combine2(&self, _: &One, val: &u64) -> u64 {
        *val
    }

    fn assign(&self, _: Global, old: &u64, all: &u64) -> Result<u64, NoMemory>
        ensures never_no_memory { IsOk result }
        ensures value { IfOk result (λ val. val ≡ min old.now all.now) }
    {
        Ok((*old).min(*all))
    }

    fn same(&self, a: &u64, b: &u64) -> bool {
        a == b
    }

    fn first(&self, _: Global, node: u32) -> Result<u64, NoMemory>
        ensures never_no_memory { IsOk result }
        ensures value { IfOk result (λ val. val ≡ node) }
    {
        Ok(u64::from(node))
    }

    fn number(&self, val: &u64) -> u64 {
        *val
    }

    fn read_val(&self, _: Global, text: &[u8]) -> Result<Option<u64>, NoMemory> {
        Ok(read_decimal(text))
    }

    fn write_val(&self, alloc: Global, out: &mut Vec<u8>, val: &u64) -> Result<(), NoMemory> {
        write_decimal(alloc, out, *val)
    }

    fn read_msg(&self, text: &[u8]) -> Option<u64> {
        read_decimal(text)
    }

    fn write_msg(&self, alloc: Global, out: &mut Vec<u8>, msg: &u64) -> Result<(), NoMemory> {
        write_decimal(alloc, out, *msg)
    }

    fn read_weight(&self, text: &[u8]) -> Option<One> {
        read_one(text)
    }
}

impl Closing for Hcc {
    ghost as_message = { λ _. label_as_message };

    ghost closing = { λ _. hcc_is_closing };

    fn as_msg(&self, val: &u64) -> u64 {
        *val
    }
}

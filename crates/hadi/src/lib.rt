//! How many nodes are within so many steps of each node, by bitstrings (HADI of Kang, Tsourakakis, Appel, Faloutsos and
//! Leskovec 2011).
#![tactic(auto)]

ghost use Rattle.std.specs.Prelude.{◌≡◌, ◌++◌, IfOk, OnErr, OnOk};
ghost use Rattle.hadi.specs.Hadi.{hadi_algebra, kept};
ghost use Rattle.hadi.specs.Lawful.{hadi_is_lawful};

pub use bitstrings::Bits;
use bitstrings::{
    first_words, or_into, places, radius, read_bits, read_words, write_bits, write_words,
};
use gimv_core::{Gimv, One, read_one};
use peg_text::NoMemory;
use std::alloc::Global;
use std::marker::Model;

pub mod laws;
/// The most sums that a node keeps.
const MOST_SUMS: usize = 257;

/// Each node begins with 32 random bits and takes over the bits of the nodes that come to it. Contracts see the seed.
///
/// A value is 32 words of 32 bits with the sum of their first-zero places after each step so far, and a message is 32
/// words. The number of a node is its radius: the first step after which the sum is within 4 of the last one, so that the
/// number of nodes within as many steps is estimated at 9/10 at least of all that the node reaches.
#[derive(Clone, Copy, Debug, PartialEq, Eq)]
pub struct Hadi {
    seed: u64,
}

impl Model for Hadi {
    ghost use Rattle.std.specs.Prelude.{ℕ};

    ghost Value = { ℕ };

    ghost view = { λ hadi. hadi.seed };

    ghost inverse = { λ seed. record { seed = seed } };
}

impl Hadi {
    /// The algorithm with the random bits of a seed.
    pub fn new(seed: u64) -> Hadi
        ensures { result ≡ seed }
    {
        Hadi { seed }
    }
}

impl Gimv for Hadi {
    type Val = Bits;

    type Msg = [u32; 32];

    type Weight = One;

    ghost algebra = { hadi_algebra };

    ghost lawful = { hadi_is_lawful };

    fn unit(&self) -> [u32; 32] {
        [0; 32]
    }

    fn combine(&self, into: &mut [u32; 32], one: &[u32; 32]) {
        or_into(into, one);
    }

    fn combine2(&self, _: &One, val: &Bits) -> [u32; 32] {
        val.words
    }

    fn assign(&self, alloc: Global, old: &Bits, all: &[u32; 32]) -> Result<Bits, NoMemory> {
        let mut words = old.words;
        or_into(&mut words, all);
        keep(alloc, words, &old.sums)
    }

    fn same(&self, a: &Bits, b: &Bits) -> bool {
        a.words == b.words
    }

    fn first(&self, alloc: Global, node: u32) -> Result<Bits, NoMemory> {
        keep(alloc, first_words(self.seed, node), &[])
    }

    fn number(&self, val: &Bits) -> u64 {
        radius(&val.sums)
    }

    fn read_val(&self, alloc: Global, text: &[u8]) -> Result<Option<Bits>, NoMemory> {
        read_bits(alloc, text)
    }

    fn write_val(&self, alloc: Global, out: &mut Vec<u8>, val: &Bits) -> Result<(), NoMemory> {
        write_bits(alloc, out, val)
    }

    fn read_msg(&self, text: &[u8]) -> Option<[u32; 32]> {
        read_words(text)
    }

    fn write_msg(&self, alloc: Global, out: &mut Vec<u8>, msg: &[u32; 32]) -> Result<(), NoMemory> {
        write_words(alloc, out, msg)
    }

    fn read_weight(&self, text: &[u8]) -> Option<One> {
        read_one(text)
    }
}

/// Words, with the sums so far and that of these words, unless there are as many as a node keeps.
fn keep(alloc: Global, words: [u32; 32], sums: &[u16]) -> Result<Bits, NoMemory>
    ensures { IfOk result (λ bits. bits ≡ kept words sums.now) }
{
    let mut kept = Vec::from_slice(alloc, sums)?;
    if kept.len() < MOST_SUMS {
        kept.push(places(&words))?;
    }
    Ok(Bits { words, sums: kept })
}

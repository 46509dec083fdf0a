ghost use Rattle.std.specs.Prelude.{◌≡◌};
ghost use Rattle.gimv_base.specs.BaseRules.{number_rule};
ghost use Rattle.gimv_base.specs.Standings.{fresh};

use crate::lines::append_number;
use crate::records::read_value;
use crate::role::{Role, RoleFault};
use gimv_core::Gimv;
use std::alloc::Global;

/// `number`: each node with the number of its value.
#[derive(Drop)]
pub struct NumberRole<G> {
    algorithm: G,
    nodes: u32,
}

impl<G: Gimv> NumberRole<G> {
    /// The role before its first record, over this many nodes.
    pub fn new(algorithm: G, nodes: u32) -> NumberRole<G>
        ensures { ⟦<NumberRole<G> as Role>⟧.standing result ≡ fresh (number_rule (G.algebra algorithm) nodes) }
    {
        NumberRole { algorithm, nodes }
    }
}

impl<G: Gimv> Role for NumberRole<G> {
    ghost standing = { λ s. fresh (number_rule (G.algebra s.algorithm) s.nodes) };

    fn line(&mut self, alloc: Global, text: &[u8], out: &mut Vec<u8>) -> Result<(), RoleFault> {
        let nodes = self.nodes;
        let Some((node, val)) = read_value(alloc, &self.algorithm, nodes, text)? else {
            return Err(RoleFault::Bad);
        };
        let number = self.algorithm.number(&val);
        let before = out.len();
        match append_number(alloc, out, node, number) {
            Ok(()) => Ok(()),
            Err(_) => {
                out.truncate(before);
                Err(RoleFault::NoMemory)
            }
        }
    }

    fn end(&mut self, _: Global, _: &mut Vec<u8>) -> Result<(), RoleFault> {
        Ok(())
    }
}

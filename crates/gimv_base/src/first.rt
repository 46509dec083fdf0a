ghost use Rattle.std.specs.Prelude.{◌≡◌};
ghost use Rattle.gimv_base.specs.BaseRules.{first_rule};
ghost use Rattle.gimv_base.specs.Standings.{fresh};

use crate::lines::append_value;
use crate::records::read_node;
use crate::role::{Role, RoleFault};
use gimv_core::Gimv;
use std::alloc::Global;

/// `first`: each place with the first value of the node there.
#[derive(Drop)]
pub struct FirstRole<G> {
    algorithm: G,
    nodes: u32,
}

impl<G: Gimv> FirstRole<G> {
    /// The role before its first record, over this many nodes.
    pub fn new(algorithm: G, nodes: u32) -> FirstRole<G>
        ensures { ⟦<FirstRole<G> as Role>⟧.standing result ≡ fresh (first_rule (G.algebra algorithm) nodes) }
    {
        FirstRole { algorithm, nodes }
    }
}

impl<G: Gimv> Role for FirstRole<G> {
    ghost standing = { λ s. fresh (first_rule (G.algebra s.algorithm) s.nodes) };

    fn line(&mut self, alloc: Global, text: &[u8], out: &mut Vec<u8>) -> Result<(), RoleFault> {
        let nodes = self.nodes;
        let Some((place, node)) = read_node(text, nodes) else {
            return Err(RoleFault::Bad);
        };
        let val = self.algorithm.first(alloc, node)?;
        let before = out.len();
        match append_value(alloc, out, &self.algorithm, place, 1, &val) {
            Ok(()) => Ok(()),
            Err(_) => {
                out.truncate(before);
                Err(RoleFault::NoMemory)
            }
        }
    }

    fn end(&mut self, _: Global, _: &mut Vec<u8>) -> Result<(), RoleFault> {
        Ok(())
    }
}

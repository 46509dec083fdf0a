ghost use Rattle.std.specs.Prelude.{◌≡◌, ◌≤◌};
ghost use Rattle.gimv_base.specs.BaseRules.{headed, passed_part, stage1_rule};
ghost use Rattle.gimv_base.specs.Blame.{passed_blames_the_end};
ghost use Rattle.gimv_base.specs.Lines.{with_lf};
ghost use Rattle.gimv_base.specs.Records.{value_record_of};
ghost use Rattle.gimv_base.specs.Standings.{fresh};

use crate::grouped::{Grouped, Grouping};
use crate::lines::{append_message, append_record};
use crate::records::{read_entry, read_value};
use crate::role::{Role, RoleFault};
use gimv_core::Gimv;
use std::alloc::Global;

/// `stage1`: each node's value, and then what it passes on along the entries of its column.
#[derive(Drop)]
pub struct Stage1<G: Gimv + Drop> {
    groups: Grouped<Column<G>>,
}

impl<G: Gimv + Drop> Stage1<G> {
    /// The role before its first record, over this many nodes.
    pub fn new(alloc: Global, algorithm: G, nodes: u32) -> Stage1<G>
        ensures { ⟦<Stage1<G> as Role>⟧.standing result ≡ fresh (stage1_rule (G.algebra algorithm) nodes) }
    {
        Stage1 {
            groups: Grouped::new(alloc, Column { algorithm, nodes }),
        }
    }
}

impl<G: Gimv + Drop> Role for Stage1<G> {
    ghost standing = { λ s. ⟦<Grouped<Column<G>> as Role>⟧.standing s.groups };

    fn line(&mut self, alloc: Global, text: &[u8], out: &mut Vec<u8>) -> Result<(), RoleFault> {
        self.groups.line(alloc, text, out)
    }

    fn end(&mut self, alloc: Global, out: &mut Vec<u8>) -> Result<(), RoleFault> {
        self.groups.end(alloc, out)
    }
}

/// What is done with one column: a node's value, and the entries of the column.
#[derive(Drop)]
struct Column<G> {
    algorithm: G,
    nodes: u32,
}

impl<G: Gimv + Drop> Grouping for Column<G> {
    type State = G::Val;

    ghost part = { λ s. headed (value_record_of (G.algebra s.algorithm) s.nodes) with_lf (λ node. passed_part (G.algebra s.algorithm) s.nodes node.1) };

    ghost further = { λ s val. passed_part (G.algebra s.algorithm) s.nodes val };

    ghost fits = { λ s val. (G.algebra s.algorithm).fits_val val };

    ghost blames_the_end = { λ s val. passed_blames_the_end (G.algebra s.algorithm) s.nodes val };

    fn begin(&self, alloc: Global, text: &[u8], out: &mut Vec<u8>) -> Result<G::Val, RoleFault> {
        let nodes = self.nodes;
        let Some((_, val)) = read_value(alloc, &self.algorithm, nodes, text)? else {
            return Err(RoleFault::Bad);
        };
        append_record(out, text)?;
        Ok(val)
    }

    fn go_on(
        &self,
        alloc: Global,
        val: &mut G::Val,
        text: &[u8],
        out: &mut Vec<u8>,
    ) -> Result<(), RoleFault> {
        let nodes = self.nodes;
        let Some((row, weight)) = read_entry(&self.algorithm, nodes, text) else {
            return Err(RoleFault::Bad);
        };
        let message = self.algorithm.combine2(&weight, val);
        append_message(alloc, out, &self.algorithm, row, &message)?;
        Ok(())
    }

    fn close(&self, _: Global, _: &G::Val, _: &mut Vec<u8>) -> Result<(), RoleFault> {
        Ok(())
    }
}

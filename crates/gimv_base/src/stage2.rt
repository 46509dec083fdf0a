ghost use Rattle.std.specs.Prelude.{◌≡◌, ◌≤◌, ◌&&◌};
ghost use Rattle.gimv_base.specs.BaseRules.{assigned_part, headed, no_text, stage2_rule};
ghost use Rattle.gimv_base.specs.Blame.{assigned_blames_the_end};
ghost use Rattle.gimv_base.specs.Records.{value_record_of};
ghost use Rattle.gimv_base.specs.Standings.{fresh};

use crate::grouped::{Grouped, Grouping};
use crate::lines::append_value;
use crate::records::{read_message, read_value};
use crate::role::{Role, RoleFault};
use gimv_core::Gimv;
use std::alloc::Global;

/// `stage2`: each node's new value, from its old one and all messages to it.
#[derive(Drop)]
pub struct Stage2<G: Gimv + Drop> {
    groups: Grouped<Node<G>>,
}

impl<G: Gimv + Drop> Stage2<G> {
    /// The role before its first record, over this many nodes.
    pub fn new(alloc: Global, algorithm: G, nodes: u32) -> Stage2<G>
        ensures { ⟦<Stage2<G> as Role>⟧.standing result ≡ fresh (stage2_rule (G.algebra algorithm) nodes) }
    {
        Stage2 {
            groups: Grouped::new(alloc, Node { algorithm, nodes }),
        }
    }
}

impl<G: Gimv + Drop> Role for Stage2<G> {
    ghost standing = { λ s. ⟦<Grouped<Node<G>> as Role>⟧.standing s.groups };

    fn line(&mut self, alloc: Global, text: &[u8], out: &mut Vec<u8>) -> Result<(), RoleFault> {
        self.groups.line(alloc, text, out)
    }

    fn end(&mut self, alloc: Global, out: &mut Vec<u8>) -> Result<(), RoleFault> {
        self.groups.end(alloc, out)
    }
}

/// What is done with one node: its value, and the messages to it.
#[derive(Drop)]
struct Node<G> {
    algorithm: G,
    nodes: u32,
}

/// A node with its old value, and the messages so far, put together.
#[derive(Drop)]
struct Gathering<V, M> {
    node: u32,
    val: V,
    all: M,
}

impl<G: Gimv + Drop> Grouping for Node<G> {
    type State = Gathering<G::Val, G::Msg>;

    ghost part = { λ s. headed (value_record_of (G.algebra s.algorithm) s.nodes) no_text (λ node. assigned_part (G.algebra s.algorithm) node (G.algebra s.algorithm).algorithm.unit) };

    ghost further = { λ s state. assigned_part (G.algebra s.algorithm) (state.node, state.val) state.all };

    ghost fits = { λ s state. (G.algebra s.algorithm).fits_val state.val && (G.algebra s.algorithm).fits_msg state.all };

    ghost blames_the_end = { λ s state. assigned_blames_the_end (G.algebra s.algorithm) (state.node, state.val) state.all };

    fn begin(
        &self,
        alloc: Global,
        text: &[u8],
        _: &mut Vec<u8>,
    ) -> Result<Gathering<G::Val, G::Msg>, RoleFault> {
        let nodes = self.nodes;
        let Some((node, val)) = read_value(alloc, &self.algorithm, nodes, text)? else {
            return Err(RoleFault::Bad);
        };
        let all = self.algorithm.unit();
        Ok(Gathering { node, val, all })
    }

    fn go_on(
        &self,
        _: Global,
        state: &mut Gathering<G::Val, G::Msg>,
        text: &[u8],
        _: &mut Vec<u8>,
    ) -> Result<(), RoleFault> {
        let Some(message) = read_message(&self.algorithm, text) else {
            return Err(RoleFault::Bad);
        };
        self.algorithm.combine(&mut state.all, &message);
        Ok(())
    }

    fn close(
        &self,
        alloc: Global,
        state: &Gathering<G::Val, G::Msg>,
        out: &mut Vec<u8>,
    ) -> Result<(), RoleFault> {
        let val = self.algorithm.assign(alloc, &state.val, &state.all)?;
        let changed = if self.algorithm.same(&val, &state.val) {
            0
        } else {
            1
        };
        append_value(alloc, out, &self.algorithm, state.node, changed, &val)?;
        Ok(())
    }
}

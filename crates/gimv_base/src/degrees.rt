ghost use Rattle.std.specs.Prelude.{◌≡◌, ◌++◌, [], true, OnOk};
ghost use Rattle.peg_text.specs.Lists.{GoesOnFrom};
ghost use Rattle.gimv_base.specs.BaseRules.{degree_lines, degree_part, degrees_rule};
ghost use Rattle.gimv_base.specs.Blame.{degrees_blame_the_end};
ghost use Rattle.gimv_base.specs.Standings.{fresh};

use crate::grouped::{Grouped, Grouping};
use crate::lines::append_entry;
use crate::records::read_edge;
use crate::role::{Role, RoleFault};
use graph::Edge;
use peg_text::NoMemory;
use std::alloc::Global;

/// `degrees`: the entry of each edge turned round, with how many edges leave its source.
#[derive(Drop)]
pub struct DegreesRole {
    groups: Grouped<Source>,
}

impl DegreesRole {
    /// The role before its first record.
    pub fn new(alloc: Global) -> DegreesRole
        ensures { ⟦<DegreesRole as Role>⟧.standing result ≡ fresh degrees_rule }
    {
        DegreesRole {
            groups: Grouped::new(alloc, Source),
        }
    }
}

impl Role for DegreesRole {
    ghost standing = { λ s. ⟦<Grouped<Source> as Role>⟧.standing s.groups };

    fn line(&mut self, alloc: Global, text: &[u8], out: &mut Vec<u8>) -> Result<(), RoleFault> {
        self.groups.line(alloc, text, out)
    }

    fn end(&mut self, alloc: Global, out: &mut Vec<u8>) -> Result<(), RoleFault> {
        self.groups.end(alloc, out)
    }
}

/// What is done with the edges of one source: they are counted before any of them is written.
#[derive(Clone, Copy)]
struct Source;

impl Grouping for Source {
    type State = Vec<Edge>;

    ghost part = { λ _. degree_part [] };

    ghost further = { λ _ edges. degree_part edges.items };

    ghost fits = { λ _ _. true };

    ghost blames_the_end = { λ _ edges. degrees_blame_the_end edges.items };

    fn begin(&self, alloc: Global, text: &[u8], _: &mut Vec<u8>) -> Result<Vec<Edge>, RoleFault> {
        let Some(edge) = read_edge(text) else {
            return Err(RoleFault::Bad);
        };
        let mut edges = Vec::new(alloc);
        edges.push(edge)?;
        Ok(edges)
    }

    fn go_on(
        &self,
        _: Global,
        edges: &mut Vec<Edge>,
        text: &[u8],
        _: &mut Vec<u8>,
    ) -> Result<(), RoleFault> {
        let Some(edge) = read_edge(text) else {
            return Err(RoleFault::Bad);
        };
        edges.push(edge)?;
        Ok(())
    }

    fn close(&self, alloc: Global, edges: &Vec<Edge>, out: &mut Vec<u8>) -> Result<(), RoleFault> {
        append_degrees(alloc, out, edges)?;
        Ok(())
    }
}

/// Appends the entries of the edges turned round, each weighed by their number. Without memory some of it may have been
/// appended.
fn append_degrees(alloc: Global, out: &mut Vec<u8>, edges: &[Edge]) -> Result<(), NoMemory>
    ensures ok { OnOk result (out.new.items ≡ out.old.items ++ degree_lines edges.now) }
    ensures kept { GoesOnFrom out.old.items out.new.items }
{
    for edge in edges {
        append_entry(alloc, out, edge.source, edge.target, edges.len() as u64)?;
    }
    Ok(())
}

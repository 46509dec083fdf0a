ghost use Rattle.std.specs.Prelude.{◌≡◌, ℕ, ◌+◌, ◌*◌, ◌/◌, ◌<◌, ◌≤◌, List, length, min, slice_set, IfOk, IfSome};
ghost use Rattle.merge.specs.declared.source.Source.{Source};
ghost use Rattle.merge.specs.Sources.{AreLeaders, IsLeastOf};

use crate::source::Source;
use peg_text::NoMemory;
use std::alloc::Global;

/// How many sources are in a group. Where one source goes on, only the leader of its group is looked for again.
const GROUP: usize = 4;

/// The source at a place, where it has a pair.
fn running(sources: &[Source], at: usize) -> Option<usize>
    requires { at < length sources.now }
    ensures { IsLeastOf sources.now at (at + 1) result }
{
    if sources[at].ended { None } else { Some(at) }
}

/// Of two sources the one with the lesser pair, where one of them has a pair.
fn lesser_of(sources: &[Source], one: Option<usize>, other: Option<usize>) -> Option<usize>
    requires one { IfSome one (λ at. at < length sources.now) }
    requires other { IfSome other (λ at. at < length sources.now) }
    ensures { (low mid high : ℕ) → low ≤ mid → mid ≤ high → IsLeastOf sources.now low mid one → IsLeastOf sources.now mid high other
        → IsLeastOf sources.now low high result }
{
    let Some(first) = one else {
        return other;
    };
    let Some(second) = other else {
        return one;
    };
    if sources[first].lines.comes_before(&sources[second].lines) {
        one
    } else {
        other
    }
}

/// The source with the least pair from one place up to another, where one of them has a pair.
fn least_among(sources: &[Source], low: usize, high: usize) -> Option<usize>
    requires ordered { low ≤ high }
    requires inside { high ≤ length sources.now }
    ensures { IsLeastOf sources.now low high result }
{
    let mut least = None;
    for at in low..high {
        least = lesser_of(sources, least, running(sources, at));
    }
    least
}

/// The source with the least pair of a group, where one of them has a pair.
fn leader_of(sources: &[Source], group: usize) -> Option<usize>
    requires { 4 * group ≤ length sources.now }
    ensures { IsLeastOf sources.now (4 * group) (min (4 * group + 4) (length sources.now)) result }
{
    let low = GROUP * group;
    let high = sources.len().min(low + GROUP);
    least_among(sources, low, high)
}

/// The leader of each group.
pub(crate) fn leaders_of(alloc: Global, sources: &[Source]) -> Result<Vec<Option<usize>>, NoMemory>
    ensures { IfOk result (λ leaders. AreLeaders sources.now leaders.items) }
{
    let mut leaders = Vec::new(alloc);
    for group in 0..sources.len() / GROUP + 1 {
        leaders.push(leader_of(sources, group))?;
    }
    Ok(leaders)
}

/// The source with the least pair of all, where one of them has a pair.
pub(crate) fn first_of(sources: &[Source], leaders: &[Option<usize>]) -> Option<usize>
    requires { AreLeaders sources.now leaders.now }
    ensures { IsLeastOf sources.now 0 (length sources.now) result }
{
    let mut first = None;
    for leader in leaders {
        first = lesser_of(sources, first, *leader);
    }
    first
}

/// Looks for the leader of a source's group again, where the source has gone on.
pub(crate) fn renew(sources: &[Source], leaders: &mut Vec<Option<usize>>, at: usize)
    requires inside { at < length sources.now }
    requires group { at / 4 < length leaders.old.items }
    ensures { (before : List Source) (changed : Source) → sources.now ≡ slice_set before at changed → AreLeaders before leaders.old.items
        → AreLeaders sources.now leaders.new.items }
{
    let group = at / GROUP;
    leaders[group] = leader_of(sources, group);
}

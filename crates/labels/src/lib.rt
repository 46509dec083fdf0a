//! The least label of each node: the least node at the end of a walk from it.
#![tactic(auto)]

ghost use Rattle.std.specs.Prelude.{◌≡◌, ◌≢◌, ℕ, ◌<◌, ◌≤◌, length, slice_index, slice_set, min, IfOk};
ghost use Rattle.std.specs.Bool.{OnFalse, OnTrue};
ghost use Rattle.std.specs.List.{range_with_len};
ghost use Rattle.graph.specs.Edges.{AreBelow};
ghost use Rattle.graph.specs.Walks.{AreLeast};
ghost use Rattle.graph.specs.Laws.{AreReached};
ghost use Rattle.labels.specs.Labels.{AreLow, AreSettled, IsSwept, Shortens, joined, lowered};

use graph::Edge;
use peg_text::NoMemory;
use std::alloc::Global;

/// The label of each of the first `nodes` nodes.
///
/// It sweeps over the edges and lowers labels in place, until a sweep finds none to lower. Labels are lowered through the
/// labels of labels too, as in FastSV (Zhang, Azad and Hu 2020), so that few sweeps are enough where paths are long.
/// No forest is kept and no root is looked for: until the last sweep a label is any node that was reached.
/// It takes four bytes a node, and at `NoMemory` keeps none.
pub fn least_labels(alloc: Global, nodes: u32, edges: &[Edge]) -> Result<Vec<u32>, NoMemory>
    requires { AreBelow nodes edges.now }
    ensures { IfOk result (λ labels. AreLeast nodes edges.now labels.items) }
{
    let mut labels = own_labels(alloc, nodes)?;
    settle(&mut labels, edges);
    Ok(labels)
}

/// Each node as its own label.
fn own_labels(alloc: Global, nodes: u32) -> Result<Vec<u32>, NoMemory>
    ensures { IfOk result (λ labels. labels.items ≡ range_with_len 0 nodes) }
{
    let labels = (0..nodes).collect(alloc)?;
    Ok(labels)
}

/// Lowers the labels until the nodes of each edge have the same one.
fn settle(labels: &mut [u32], edges: &[Edge])
    requires below { AreBelow (length labels.old) edges.now }
    requires reached { AreReached (length labels.old) edges.now (slice_index labels.old) }
    ensures reached { AreReached (length labels.new) edges.now (slice_index labels.new) }
    ensures settled { AreSettled labels.new edges.now }
{
    'sweeps: while sweep(labels, edges) {
        shorten(labels);
    }
}

/// Joins the labels of each edge's nodes. Whether some were apart.
fn sweep(labels: &mut [u32], edges: &[Edge]) -> bool
    requires below { AreBelow (length labels.old) edges.now }
    requires reached { AreReached (length labels.old) edges.now (slice_index labels.old) }
    ensures { IsSwept edges.now edges.now labels.old labels.new result }
{
    let mut lowered = false;
    for edge in edges {
        if join(labels, *edge) {
            lowered = true;
        }
    }
    lowered
}

/// Lowers the labels of an edge's nodes to the least of the labels of these labels, and the greater of them too.
/// Whether the labels were apart.
fn join(labels: &mut [u32], edge: Edge) -> bool
    requires source_in { edge.source < length labels.old }
    requires target_in { edge.target < length labels.old }
    requires low { AreLow labels.old }
    ensures apart { OnTrue result
        ((slice_index labels.old edge.source ≢ slice_index labels.old edge.target)
        × (labels.new ≡ joined labels.old edge.source edge.target)) }
    ensures same { OnFalse result
        ((slice_index labels.old edge.source ≡ slice_index labels.old edge.target) × (labels.new ≡ labels.old)) }
{
    let source = labels[edge.source as usize];
    let target = labels[edge.target as usize];
    if source == target {
        return false;
    }
    let source = labels[source as usize];
    let target = labels[target as usize];
    let least = source.min(target);
    lower(labels, edge.source, least);
    lower(labels, edge.target, least);
    lower(labels, source.max(target), least);
    true
}

/// Lowers the label of a node to `label`, if it is greater.
fn lower(labels: &mut [u32], node: u32, label: u32)
    requires { node < length labels.old }
    ensures { labels.new ≡ lowered labels.old node label }
{
    if label < labels[node as usize] {
        labels[node as usize] = label;
    }
}

/// Lowers each label to the label of the node that it names.
fn shorten(labels: &mut [u32])
    requires { AreLow labels.old }
    ensures { Shortens (length labels.old) labels.old labels.new }
{
    for node in 0..labels.len() {
        labels[node] = labels[labels[node] as usize];
    }
}

ghost use Rattle.std.specs.Prelude.{◌≡◌, ◌<◌, ◌^◌, length, slice_index, IfOk};
ghost use Rattle.std.specs.List.{range_with_len};
ghost use Rattle.std.specs.List.Sorted.{IsPermutation};
ghost use Rattle.cluster.specs.Order.{ArePlacesOf, AreInOrder, edge_of_places};

use graph::Edge;
use peg_text::NoMemory;
use std::alloc::Global;

/// The nodes in the order of their labels, and nodes of the same label in their own order.
pub fn permutation(alloc: Global, labels: &[u32]) -> Result<Vec<u32>, NoMemory>
    requires { length labels.now < 2 ^ 32 }
    ensures { IfOk result (λ ids. AreInOrder labels.now ids.items) }
{
    let mut ids: Vec<u32> = (0..labels.len() as u32).collect(alloc)?;
    ids.sort_unstable_by_key(
        |id: &u32| -> (u32, u32)
            ensures { result ≡ (slice_index labels.entry.now id.entry.now, id.entry.now) }
        { (label_of(labels, *id), *id) },
    );
    Ok(ids)
}

/// The label of a node, and 0 for what is no node.
fn label_of(labels: &[u32], node: u32) -> u32
    ensures { result ≡ slice_index labels.now node }
{
    match labels.get(node as usize) {
        Some(label) => *label,
        None => 0,
    }
}

/// The place of each node, where the list has the node of each place.
pub fn places(alloc: Global, ids: &[u32]) -> Result<Vec<u32>, NoMemory>
    requires nodes { IsPermutation (range_with_len 0 (length ids.now)) ids.now }
    requires few { length ids.now < 2 ^ 32 }
    ensures { IfOk result (λ places. ArePlacesOf ids.now places.items) }
{
    let mut places = vec![in alloc; 0; ids.len()]?;
    for place in 0..ids.len() {
        places[ids[place] as usize] = place as u32;
    }
    Ok(places)
}

/// An edge between the places of its nodes.
pub fn relabel(places: &[u32], edge: &Edge) -> Edge
    requires source_in { edge.now.source < length places.now }
    requires target_in { edge.now.target < length places.now }
    ensures { result ≡ edge_of_places places.now edge.now }
{
    Edge {
        source: places[edge.source as usize],
        target: places[edge.target as usize],
    }
}

use cluster::{Labels, permutation, places, relabel};
use graph::Edge;
use std::test::Fail;

/// Takes an edge whose nodes are there.
fn take(labels: &mut Labels, edge: &Edge) {
    let nodes = labels.list().len();
    if (edge.source as usize) < nodes && (edge.target as usize) < nodes {
        labels.edge(edge);
    }
}

#[test]
fn two_rounds(rt: HostRuntime) -> Result<(), Fail> {
    let edges = [(0, 2), (1, 3)].map(|(source, target)| Edge { source, target });
    let mut labels = Labels::new(rt.alloc(), 4)?;
    for _ in 0..2 {
        for edge in &edges {
            take(&mut labels, edge);
        }
        labels.round();
    }
    assert_eq!(rt; labels.list(), [0, 1, 0, 1].as_slice());
    Ok(())
}

#[test]
fn order_of_labels(rt: HostRuntime) -> Result<(), Fail> {
    let ids = permutation(rt.alloc(), &[0, 1, 0, 1])?;
    assert_eq!(rt; ids.as_slice(), [0, 2, 1, 3].as_slice());
    let places = places(rt.alloc(), &ids)?;
    assert_eq!(rt; places.as_slice(), [0, 2, 1, 3].as_slice());
    let edge = relabel(
        &places,
        &Edge {
            source: 0,
            target: 2,
        },
    );
    assert_eq!(rt; edge.source, 0);
    assert_eq!(rt; edge.target, 1);
    Ok(())
}

use graph::Edge;
use labels::*;
use std::test::Fail;

#[test]
fn small_graphs(rt: HostRuntime) -> Result<(), Fail> {
    let none = least_labels(rt.alloc(), 0, &[])?;
    assert_eq!(rt; none.len(), 0);

    let [one, two, three] = [(0, 1), (1, 2), (3, 4)].map(|(source, target)| Edge {
        source,
        target,
    });
    let apart = least_labels(rt.alloc(), 6, &[one, two, three])?;
    assert_eq!(rt; apart.as_slice(), [0, 0, 0, 3, 3, 5].as_slice());
    Ok(())
}

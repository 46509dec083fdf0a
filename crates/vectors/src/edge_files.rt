use edge_text::{Edge, EdgeFault, EdgeReader};
use std::alloc::Global;
use std::process::Abort;

/// An edge list, the number of nodes, how many edges it has, their text and the answer at the end.
#[derive(Drop)]
struct Row {
    bytes: &'static [u8],
    nodes: u32,
    count: usize,
    text: &'static [u8],
    answer: Result<(), EdgeFault>,
}

const BAD_AT_2: Result<(), EdgeFault> = Err(EdgeFault::BadEdge { line: 2 });

fn read(rt: &impl Abort, alloc: Global, row: &Row, cut: usize) {
    let mut reader = EdgeReader::new(alloc, row.nodes);
    let mut edges = Vec::new(alloc);
    let mut text = Vec::new(alloc);
    let front = &row.bytes[..cut.min(row.bytes.len())];
    let back = &row.bytes[cut.min(row.bytes.len())..];
    let mut answer = reader.feed(alloc, front, &mut edges, &mut text);
    let second = reader.feed(alloc, back, &mut edges, &mut text);
    if answer.is_ok() {
        answer = second;
    } else {
        assert_eq!(rt; answer, second);
    }
    if answer.is_ok() {
        answer = reader.end(alloc, &mut edges, &mut text);
    }
    assert_eq!(rt; answer, row.answer);
    assert_eq!(rt; edges.len(), row.count);
    assert_eq!(rt; text.as_slice(), row.text);
}

#[test]
fn reads_the_same_in_each_cutting(rt: HostRuntime) {
    let rows = [
        Row {
            bytes: b"0\t1\r\n",
            nodes: 6,
            count: 1,
            text: b"0\t1\n",
            answer: Ok(()),
        },
        Row {
            bytes: b"# a graph\r\n\n\r\n01\t002\n3\t4",
            nodes: 6,
            count: 2,
            text: b"1\t2\n3\t4\n",
            answer: Ok(()),
        },
        Row {
            bytes: b"0\t1\n9\t9\n1\t1\n",
            nodes: 6,
            count: 1,
            text: b"0\t1\n",
            answer: Err(EdgeFault::BigNode { line: 2, id: 9 }),
        },
        Row {
            bytes: b"0\t6",
            nodes: 6,
            count: 0,
            text: b"",
            answer: Err(EdgeFault::BigNode { line: 1, id: 6 }),
        },
        Row {
            bytes: b"0\t1\n0\t1\t2\n",
            nodes: 6,
            count: 1,
            text: b"0\t1\n",
            answer: BAD_AT_2,
        },
        Row {
            bytes: b"#\n0 1\n",
            nodes: 6,
            count: 0,
            text: b"",
            answer: BAD_AT_2,
        },
        Row {
            bytes: b"#\n0\t00000000001\n",
            nodes: 6,
            count: 0,
            text: b"",
            answer: BAD_AT_2,
        },
        Row {
            bytes: b"#\n0\t1\r\r\n",
            nodes: 6,
            count: 0,
            text: b"",
            answer: BAD_AT_2,
        },
    ];
    for row in &rows {
        for cut in 0..20 {
            read(&rt, rt.alloc(), row, cut);
        }
    }
}

#[test]
fn refuses_again(rt: HostRuntime) {
    let alloc = rt.alloc();
    let mut reader = EdgeReader::new(alloc, 6);
    let mut edges = Vec::new(alloc);
    let refused = Err(EdgeFault::BigNode { line: 2, id: 9 });
    assert_eq!(rt;
        reader.feed_edges(alloc, b"0\t1\n9\t9\n", &mut edges),
        refused
    );
    assert_eq!(rt; reader.feed_edges(alloc, b"1\t1\n", &mut edges), refused);
    assert_eq!(rt; reader.end_edges(alloc, &mut edges), refused);
    assert_eq!(rt; edges.len(), 1);
    assert_eq!(rt;
        edges[0],
        Edge {
            source: 0,
            target: 1
        }
    );
}

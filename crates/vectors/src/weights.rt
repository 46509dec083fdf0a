use gimv_core::{One, read_one};

#[test]
fn reads_the_weight_one(rt: HostRuntime) {
    let rows: [(&[u8], Option<One>); 5] = [
        (b"1", Some(One)),
        (b"01", None),
        (b"", None),
        (b"2", None),
        (b"11", None),
    ];
    for (text, weight) in rows {
        assert_eq!(rt; read_one(text), weight);
    }
}

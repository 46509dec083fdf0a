use partition::*;

#[test]
fn hashes_begin_at_one(rt: HostRuntime) {
    assert_eq!(rt; hash(b""), 1);
    assert_eq!(rt; hash(b"0"), 79);
    assert_eq!(rt; hash(b"5"), 84);
    assert_eq!(rt; hash(b"10"), 2528);
    assert_eq!(rt; part_of(b"0", 2), 1);
    assert_eq!(rt; part_of(b"1", 2), 0);
}

#[test]
fn long_keys_pass_two_to_the_31(rt: HostRuntime) {
    for (key, whole, third, seventh, sixty_fourth) in [
        (b"100000".as_slice(), 2_336_138_720, 0, 4, 32),
        (b"1048576.70000".as_slice(), 645_839_929, 1, 0, 57),
        (b"1048576.100000".as_slice(), 2_669_393_757, 1, 0, 29),
    ] {
        assert_eq!(rt; hash(key), whole);
        assert_eq!(rt; part_of(key, 3), third);
        assert_eq!(rt; part_of(key, 7), seventh);
        assert_eq!(rt; part_of(key, 64), sixty_fourth);
    }
}

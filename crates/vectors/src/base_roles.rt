use gimv_base::{DegreesRole, EntriesRole, IdRole, PlaceRole, Role, RoleFault};
use std::alloc::Global;

/// What a role writes for all these records.
fn written<R: Role + Drop>(
    alloc: Global,
    role: R,
    records: &[&[u8]],
) -> Result<Vec<u8>, RoleFault> {
    let mut role = role;
    let mut out = Vec::new(alloc);
    for text in records {
        role.line(alloc, text, &mut out)?;
    }
    role.end(alloc, &mut out)?;
    Ok(out)
}

#[test]
fn copies_records(rt: HostRuntime) -> Result<(), RoleFault> {
    let alloc = rt.alloc();
    let out = written(alloc, IdRole::new(), &[b"a\tb", b"", b"c"])?;
    assert_eq!(rt; out.as_slice(), b"a\tb\n\nc\n".as_slice());
    Ok(())
}

#[test]
fn writes_entries_by_column(rt: HostRuntime) -> Result<(), RoleFault> {
    let alloc = rt.alloc();
    let records: [&[u8]; 2] = [b"0\t1", b"01\t2"];
    let one = written(alloc, EntriesRole::new(false), &records)?;
    assert_eq!(rt; one.as_slice(), b"1\tW 0 1\n2\tW 1 1\n".as_slice());
    let both = written(alloc, EntriesRole::new(true), &records)?;
    assert_eq!(rt;
        both.as_slice(),
        b"1\tW 0 1\n0\tW 1 1\n2\tW 1 1\n1\tW 2 1\n".as_slice()
    );
    Ok(())
}

#[test]
fn takes_ids_of_each_length(rt: HostRuntime) -> Result<(), RoleFault> {
    let alloc = rt.alloc();
    let records: [&[u8]; 3] = [
        b"000000000\t999999999",
        b"1000000000\t4294967295",
        b"00000000004294967295\t0",
    ];
    let out = written(alloc, EntriesRole::new(false), &records)?;
    assert_eq!(rt;
        out.as_slice(),
        b"999999999\tW 0 1\n4294967295\tW 1000000000 1\n0\tW 4294967295 1\n".as_slice()
    );
    Ok(())
}

#[test]
fn weighs_entries_by_degree(rt: HostRuntime) -> Result<(), RoleFault> {
    let alloc = rt.alloc();
    let out = written(alloc, DegreesRole::new(alloc), &[b"0\t1", b"0\t2", b"3\t0"])?;
    assert_eq!(rt;
        out.as_slice(),
        b"0\tW 1 2\n0\tW 2 2\n3\tW 0 1\n".as_slice()
    );
    Ok(())
}

#[test]
fn gives_numbers_to_the_ids_of_places(rt: HostRuntime) -> Result<(), RoleFault> {
    let alloc = rt.alloc();
    let out = written(
        alloc,
        PlaceRole::new(alloc),
        &[b"0\tP 5", b"0\tQ 9", b"1\tP 0", b"1\tQ 0"],
    )?;
    assert_eq!(rt; out.as_slice(), b"5\t9\n0\t0\n".as_slice());
    Ok(())
}

#[test]
fn refuses_bad_records(rt: HostRuntime) {
    let alloc = rt.alloc();
    let edges: [&[u8]; 10] = [
        b"0",
        b"0\t",
        b"\t0",
        b"0 1",
        b"0\t1x",
        b"x0\t1",
        b"0\t1\t2",
        b"0\t4294967296",
        b"4294967296\t0",
        b"000000000000000000000\t0",
    ];
    for record in edges {
        assert_eq!(rt;
            written(alloc, EntriesRole::new(true), &[record]).err(),
            Some(RoleFault::Bad)
        );
        assert_eq!(rt;
            written(alloc, DegreesRole::new(alloc), &[record]).err(),
            Some(RoleFault::Bad)
        );
    }
    let places: [(&[&[u8]], RoleFault); 5] = [
        (&[b"0\tQ 1"], RoleFault::Bad),
        (&[b"0\tP 1"], RoleFault::BadBefore),
        (&[b"0\tP 1", b"1\tP 1"], RoleFault::BadBefore),
        (&[b"0\tP 1", b"0\tP 1"], RoleFault::Bad),
        (&[b"0\tP 1", b"0\tQ 1", b"0\tQ 1"], RoleFault::Bad),
    ];
    for (records, fault) in places {
        assert_eq!(rt;
            written(alloc, PlaceRole::new(alloc), records).err(),
            Some(fault)
        );
    }
}

use peg_text::{LineBuf, NoMemory, read_decimal, records, split_pair, write_decimal, write_pair};

#[test]
fn reads_decimals(rt: HostRuntime) {
    let rows: [(&[u8], Option<u64>); 6] = [
        (b"18446744073709551615", Some(18446744073709551615)),
        (b"18446744073709551616", None),
        (b"007", Some(7)),
        (b"000000000000000000001", None),
        (b"", None),
        (b"1x", None),
    ];
    for (text, number) in rows {
        assert_eq!(rt; read_decimal(text), number);
    }
}

#[test]
fn appends_text(rt: HostRuntime) -> Result<(), NoMemory> {
    let alloc = rt.alloc();
    let mut out = Vec::new(alloc);
    write_decimal(alloc, &mut out, 0)?;
    write_decimal(alloc, &mut out, 4294967292)?;
    assert_eq!(rt; out.as_slice(), b"04294967292".as_slice());
    out.clear();
    write_pair(alloc, &mut out, b"a", b"")?;
    assert_eq!(rt; out.as_slice(), b"a\t\n".as_slice());
    Ok(())
}

#[test]
fn cuts_records_at_lf(rt: HostRuntime) -> Result<(), NoMemory> {
    let found = records(rt.alloc(), b"a\n\nb")?;
    let want: [&[u8]; 3] = [b"a", b"", b"b"];
    assert_eq!(rt; found.len(), want.len());
    for (record, text) in found.iter().zip(want) {
        assert_eq!(rt; *record, text);
    }
    let ended = records(rt.alloc(), b"a\n")?;
    assert_eq!(rt; ended.len(), 1);
    assert_eq!(rt; ended[0], b"a".as_slice());
    Ok(())
}

#[test]
fn splits_at_the_first_tab(rt: HostRuntime) {
    let rows: [(&[u8], &[u8], &[u8]); 3] = [
        (b"a\tb\tc", b"a", b"b\tc"),
        (b"a", b"a", b""),
        (b"\tb", b"", b"b"),
    ];
    for (line, key, value) in rows {
        let pair = split_pair(line);
        assert_eq!(rt; pair.0, key);
        assert_eq!(rt; pair.1, value);
    }
}

#[test]
fn gives_records_of_pieces(rt: HostRuntime) -> Result<(), NoMemory> {
    let alloc = rt.alloc();
    let mut buf = LineBuf::new(alloc);
    let mut line = Vec::new(alloc);
    buf.feed(alloc, b"a")?;
    buf.feed(alloc, b"b\nc")?;
    assert!(rt; buf.next(alloc, &mut line)?);
    assert_eq!(rt; line.as_slice(), b"ab".as_slice());
    let whole = buf.next(alloc, &mut line)?;
    assert!(rt; !whole);
    assert!(rt; buf.last(alloc, &mut line)?);
    assert_eq!(rt; line.as_slice(), b"c".as_slice());
    assert!(rt; !buf.last(alloc, &mut line)?);
    Ok(())
}

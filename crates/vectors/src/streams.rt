use dir_disk::*;
use std::alloc::Global;
use std::test::Fail;

/// All that a source gives in reads of at most `max` bytes, a `!` for each read that fails.
fn read_out(alloc: Global, source: &mut impl Source, max: u32) -> Result<Vec<u8>, Fail> {
    let mut all = Vec::new(alloc);
    for _ in 0..100u32 {
        match source.read(alloc, max.max(1)) {
            Ok(bytes) if bytes.is_empty() => return Ok(all),
            Ok(bytes) => {
                all.extend_from_slice(&bytes)?;
                all.push(b'|')?;
            }
            Err(SourceFault::Failed) => all.push(b'!')?,
            Err(SourceFault::NoMemory) => return Err("no memory")?,
        }
    }
    Err("no end")?
}

#[test]
fn source_gives_pieces_and_fails_where_it_is_told(rt: HostRuntime) -> Result<(), Fail> {
    let alloc = rt.alloc();
    let cases: [(u32, u32, &[u64], &[u8]); 4] = [
        (2, 65536, &[], b"ab|cd|e|"),
        (9, 3, &[], b"abc|de|"),
        (4, 4, &[0, 1, 3], b"!!abcd|!e|"),
        (5, 5, &[1], b"abcde|!"),
    ];
    for (piece, max, fail, want) in cases {
        let bytes = Vec::from_slice(alloc, b"abcde")?;
        let mut source = MemSource::new(bytes, piece.max(1), Vec::from_slice(alloc, fail)?);
        let got = read_out(alloc, &mut source, max)?;
        assert_eq!(rt; got.as_slice(), want, "pieces of {piece}");
    }
    Ok(())
}

#[test]
fn sink_and_console_take_all_but_what_fails(rt: HostRuntime) -> Result<(), Fail> {
    let alloc = rt.alloc();
    let mut sink = MemSink::new(alloc, Vec::from_slice(alloc, &[1])?);
    assert_eq!(rt; sink.write(alloc, b"a\n"), Ok(()));
    assert_eq!(rt; sink.write(alloc, b"b\n"), Err(SinkFault::Failed));
    assert_eq!(rt; sink.write(alloc, b"c\n"), Ok(()));
    assert_eq!(rt; sink.written(), b"a\nc\n".as_slice());

    let mut console = MemConsole::new(alloc, Vec::from_slice(alloc, &[0])?);
    assert_eq!(rt; console.say(alloc, b"a\n"), Err(SayFault::Failed));
    assert_eq!(rt; console.say(alloc, b"b\n"), Ok(()));
    assert_eq!(rt; console.said(), b"b\n".as_slice());
    Ok(())
}

#[test]
fn plan_counts_its_calls(rt: HostRuntime) -> Result<(), Fail> {
    let mut plan = FaultPlan::new(Vec::from_slice(rt.alloc(), &[1, 1, 7])?);
    assert_eq!(rt; plan.fails_next(), false);
    assert_eq!(rt; plan.fails_next(), true);
    assert_eq!(rt; plan.fails_next(), false);
    assert_eq!(rt; plan.calls(), 3);
    Ok(())
}

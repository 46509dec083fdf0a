ghost use Rattle.std.specs.Prelude.{◌≡◌};

use conf::{Command, Conf, Form};
use dir_disk::Source;
use report::*;
use std::alloc::Global;
use std::test::Fail;

/// What `w e hcc nodes=6` says, for another command.
fn small(command: Command) -> Conf
    ensures { result.command ≡ command }
{
    Conf {
        command,
        nodes: 6,
        reducers: 1,
        split: 67_108_864,
        slots: 4,
        spill: 16_777_216,
        backup: false,
        form: Form::Base,
        block: 16,
        iters: 10,
        hops: 64,
        seed: 1,
        sym: false,
        generated: None,
    }
}

#[test]
fn lines_are_as_they_are_said(rt: HostRuntime) -> Result<(), Fail> {
    let alloc = rt.alloc();
    assert_eq!(rt;
        iteration_line(alloc, 1, 3)?.as_slice(),
        b"iteration 1 changed 3\n".as_slice()
    );
    assert_eq!(rt;
        resumed_line(alloc, 3)?.as_slice(),
        b"resumed after iteration 3\n".as_slice()
    );
    let line = done_line(alloc, &small(Command::Hcc), 3, true, 3)?;
    assert_eq!(rt;
        line.as_slice(),
        b"done hcc iterations 3 components 3\n".as_slice()
    );
    let line = done_line(alloc, &small(Command::Hadi), 1, true, 0)?;
    assert_eq!(rt;
        line.as_slice(),
        b"done hadi iterations 1 settled radius 0\n".as_slice()
    );
    let line = done_line(alloc, &small(Command::Hadi), 64, false, 7)?;
    assert_eq!(rt;
        line.as_slice(),
        b"done hadi iterations 64 capped radius 7\n".as_slice()
    );
    let line = done_line(alloc, &small(Command::PageRank), 2, false, 4_294_967_292)?;
    assert_eq!(rt;
        line.as_slice(),
        b"done pagerank iterations 2 units 4294967292\n".as_slice()
    );
    let line = done_line(alloc, &small(Command::PageRank), 1, false, u128::MAX)?;
    let most = b"done pagerank iterations 1 units 340282366920938463463374607431768211455\n";
    assert_eq!(rt; line.as_slice(), most.as_slice());
    Ok(())
}

/// All that a source gives in reads of at most `max` bytes.
fn read_out(alloc: Global, source: &mut GenSource, max: u32) -> Result<Vec<u8>, Fail> {
    let mut all = Vec::new(alloc);
    for _ in 0..100u32 {
        match source.read(alloc, max.max(1)) {
            Ok(bytes) if bytes.is_empty() => return Ok(all),
            Ok(bytes) => all.extend_from_slice(&bytes)?,
            Err(_) => return Err("no memory")?,
        }
    }
    Err("no end")?
}

#[test]
fn edges_are_the_same_in_all_pieces(rt: HostRuntime) -> Result<(), Fail> {
    let alloc = rt.alloc();
    for max in [1, 2, 3, 4, 5, 13, 14, 65_536] {
        let mut source = GenSource::new(alloc, 3, 42, 16);
        let text = read_out(alloc, &mut source, max)?;
        assert_eq!(rt;
            text.as_slice(),
            b"7\t9\n0\t3\n11\t14\n".as_slice(),
            "pieces of {max}"
        );
    }
    let mut source = GenSource::new(alloc, 0, 42, 16);
    assert_eq!(rt; read_out(alloc, &mut source, 5)?.as_slice(), b"".as_slice());
    let mut source = GenSource::new(alloc, 2, 1, 1);
    assert_eq!(rt;
        read_out(alloc, &mut source, 5)?.as_slice(),
        b"0\t0\n0\t0\n".as_slice()
    );
    Ok(())
}

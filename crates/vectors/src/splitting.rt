use dir_disk::SilentDir;
use peg_base::{Name, Path};
use splits::*;
use std::test::Fail;

#[test]
fn splits_are_as_long_as_asked_for_but_never_too_many(rt: HostRuntime) -> Result<(), Fail> {
    let alloc = rt.alloc();
    assert!(rt; split_table(alloc, 0, 4)?.is_empty());
    let splits = split_table(alloc, 10, 4)?;
    let want = [
        Split { start: 0, end: 4 },
        Split { start: 4, end: 8 },
        Split { start: 8, end: 10 },
    ];
    assert_eq!(rt; splits.as_slice(), want.as_slice());
    let splits = split_table(alloc, 8192, 1)?;
    assert_eq!(rt; splits.len(), 4096);
    assert_eq!(rt;
        splits[4095],
        Split {
            start: 8190,
            end: 8192
        }
    );
    Ok(())
}

#[test]
fn a_file_that_gives_nothing_has_no_line(rt: HostRuntime) -> Result<(), Fail> {
    let alloc = rt.alloc();
    let name = Name::new(alloc, b"in")?.expect(&rt, "a name");
    let path = Path::root(alloc).child(alloc, &name)?;
    let name = Name::new(alloc, b"out")?.expect(&rt, "a name");
    let out = Path::root(alloc).child(alloc, &name)?;
    let mut dir = SilentDir;
    for (start, end) in [(0, 4), (4, 8)] {
        let split = Split { start, end };
        assert_eq!(rt; lines_of_split(alloc, &mut dir, &path, &split, &out), Ok(0));
    }
    Ok(())
}

use peg_base::{Attempt, Name, Path, Phase, TaskId, Words};
use peg_text::NoMemory;
use std::alloc::Global;
use std::cmp::Ordering;
use std::process::Abort;
use std::test::Fail;

const LONGEST_NAME: &[u8; 64] = b"aaaaaaaaaaaaaaaaaaaaaaaaaaaaaaaaaaaaaaaaaaaaaaaaaaaaaaaaaaaaaaaa";

const TOO_LONG_NAME: &[u8; 65] =
    b"aaaaaaaaaaaaaaaaaaaaaaaaaaaaaaaaaaaaaaaaaaaaaaaaaaaaaaaaaaaaaaaaa";

fn conf(rt: &impl Abort, alloc: Global) -> Result<Path, NoMemory> {
    let name = Name::new(alloc, b"conf")?.expect(rt, "a name");
    Path::root(alloc).child(alloc, &name)
}

#[test]
fn names_have_letters_digits_dots_underlines_and_dashes(rt: HostRuntime) -> Result<(), Fail> {
    for text in [
        b"part-00000".as_slice(),
        b"_SUCCESS",
        b"...",
        b"A.z_0-9",
        LONGEST_NAME,
    ] {
        let name = Name::new(rt.alloc(), text)?.expect(&rt, "a name");
        assert_eq!(rt; name.text().as_bytes(), text);
    }
    for text in [
        b".".as_slice(),
        b"..",
        b"",
        TOO_LONG_NAME,
        b"a/b",
        b"a b",
        b"\xc3\xa4",
    ] {
        assert!(rt; Name::new(rt.alloc(), text)?.is_none(), "no name: {text:?}");
    }
    Ok(())
}

#[test]
fn a_path_is_the_list_of_its_names(rt: HostRuntime) -> Result<(), Fail> {
    let root = Path::root(rt.alloc());
    let path = conf(&rt, rt.alloc())?;
    let copy = path.copy(rt.alloc())?;
    for path in [&path, &copy] {
        assert_eq!(rt; path.names().len(), 1);
        assert_eq!(rt; path.names()[0].text(), "conf");
    }
    assert!(rt; path.under(&root) && path.under(&copy));
    assert!(rt; !root.under(&path));
    assert!(rt; path == copy && path != root);
    assert_eq!(rt; root.cmp(&path), Ordering::Less);
    Ok(())
}

#[test]
fn words_are_some_bytes_without_nul(rt: HostRuntime) -> Result<(), Fail> {
    let mut words = Words::new(rt.alloc());
    assert!(rt; words.is_empty());
    assert!(rt; words.push(rt.alloc(), "id")?);
    assert!(rt; !words.push(rt.alloc(), "")?);
    assert!(rt; !words.push(rt.alloc(), "a\0b")?);
    for words in [&words, &words.copy(rt.alloc())?] {
        assert_eq!(rt; words.len(), 1);
        assert_eq!(rt; words.get(0), Some("id"));
        assert_eq!(rt; words.get(1), None);
    }
    for _ in 1..16 {
        assert!(rt; words.push(rt.alloc(), "id")?);
    }
    assert!(rt; !words.push(rt.alloc(), "id")?);
    Ok(())
}

#[test]
fn an_attempt_is_a_task_and_a_number(rt: HostRuntime) -> Result<(), Fail> {
    let attempt = Attempt {
        task: TaskId {
            job: conf(&rt, rt.alloc())?,
            phase: Phase::Map,
            task: 0,
        },
        number: 1,
    };
    let copy = attempt.copy(rt.alloc())?;
    assert!(rt; copy == attempt);
    assert_eq!(rt; copy.task.phase, Phase::Map);
    assert!(rt; copy.task.copy(rt.alloc())? == attempt.task);
    Ok(())
}

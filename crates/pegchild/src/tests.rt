//! Of a child: what no row can say, which is what comes of streams that fail, and what is shown of a bad record. Of a
//! program's words: that a long one hides none. They stand here, and not in `child` and `host_real`, since a crate with tests is proved twice, and this one is small.

ghost use Rattle.std.specs.Prelude.{◌≤◌, length};

use child::{ChildStatus, Front, append_quoted, run_child, run_showing};
use dir_disk::{MemSink, MemSource, Source};
use host_real::program_words;
use std::alloc::Global;
use std::env::FillError;
use std::rt::{Env, HostRuntime};
use std::test::Fail;

/// The words of a line, cut at each blank.
fn words_of(alloc: Global, line: &str) -> Result<Vec<String>, Fail> {
    let mut words = Vec::new(alloc);
    for word in line.split(' ') {
        words.push(String::from_str(alloc, word)?)?;
    }
    Ok(words)
}

/// What a child answers to a line of words.
fn run_over(
    alloc: Global,
    line: &str,
    source: &mut MemSource,
    sink: &mut MemSink,
) -> Result<ChildStatus, Fail> {
    let words = words_of(alloc, line)?;
    Ok(run_child(alloc, &words, source, sink))
}

/// How a child ended, and what it wrote.
#[derive(Drop)]
struct Ending {
    status: ChildStatus,
    written: Vec<u8>,
}

/// Runs a child over a text in pieces of seven bytes, where the read and the write of these numbers fail.
fn run(alloc: Global, line: &str, bytes: &[u8], read: u64, write: u64) -> Result<Ending, Fail> {
    let bytes = Vec::from_slice(alloc, bytes)?;
    let mut source = MemSource::new(bytes, 7, Vec::from_slice(alloc, &[read])?);
    let mut sink = MemSink::new(alloc, Vec::from_slice(alloc, &[write])?);
    let status = run_over(alloc, line, &mut source, &mut sink)?;
    Ok(Ending {
        status,
        written: Vec::from_slice(alloc, sink.written())?,
    })
}

/// More calls than any of these children makes.
const NEVER: u64 = 9;

#[test]
fn a_failing_stream_is_a_fault(rt: HostRuntime) -> Result<(), Fail> {
    let bytes: &[u8] = b"0\tV 1 0\n0\tY 1\n1\tV 1 1\n1\tY 0\n";
    let whole: &[u8] = b"0\tV 0 0\n1\tV 1 0\n";
    for call in 0..5u64 {
        for (read, write) in [(call, NEVER), (NEVER, call)] {
            let ending = run(rt.alloc(), "stage2 hcc 6", bytes, read, write)?;
            assert_eq!(rt;
                ending.status,
                ChildStatus::Fault,
                "read {read}, write {write}"
            );
            assert!(rt;
                whole.starts_with(&ending.written),
                "read {read}, write {write}"
            );
        }
    }
    let ending = run(rt.alloc(), "stage2 hcc 6", bytes, NEVER, NEVER)?;
    assert_eq!(rt; ending.status, ChildStatus::Ok);
    assert_eq!(rt; ending.written.as_slice(), whole);
    Ok(())
}

#[test]
fn other_words_are_refused_unread(rt: HostRuntime) -> Result<(), Fail> {
    for line in ["", "stage3 hcc 6", "first hcc 0", "place 6"] {
        let ending = run(rt.alloc(), line, b"0\t1\n", 0, 0)?;
        assert_eq!(rt; ending.status, ChildStatus::Usage, "{line}");
        assert_eq!(rt; ending.written.len(), 0, "{line}");
    }
    Ok(())
}

/// How many bytes `id` leaves unread of twenty thousand lines, where its first write fails.
fn left_by_id(alloc: Global) -> Result<(ChildStatus, usize), Fail> {
    let mut bytes = Vec::new(alloc);
    for _ in 0..20_480 {
        bytes.extend_from_slice(b"aaaaaaaaaaaaaaa\n")?;
    }
    let mut source = MemSource::new(bytes, 1_000_000, Vec::new(alloc));
    let mut sink = MemSink::new(alloc, Vec::from_slice(alloc, &[0])?);
    let status = run_over(alloc, "id", &mut source, &mut sink)?;
    let left = source.read(alloc, 1_000_000).map_or(0, |bytes| bytes.len());
    Ok((status, left))
}

#[test]
fn a_failing_write_stops_the_reading(rt: HostRuntime) -> Result<(), Fail> {
    let (status, left) = left_by_id(rt.alloc())?;
    assert_eq!(rt; status, ChildStatus::Fault);
    assert_eq!(rt; left, 327_680 - 65_536);
    Ok(())
}

#[test]
fn statuses_have_codes(rt: HostRuntime) {
    let cases = [
        (ChildStatus::Ok, 0),
        (ChildStatus::Usage, 2),
        (ChildStatus::BadLine { line: 7 }, 65),
        (ChildStatus::TooLarge, 66),
        (ChildStatus::NoMemory, 70),
        (ChildStatus::Fault, 74),
    ];
    for (status, code) in cases {
        assert_eq!(rt; status.code(), code);
    }
}

/// How a child ended over a text in pieces of so many bytes (one at least), and what is shown of a bad record.
fn show(alloc: Global, line: &str, bytes: &[u8], piece: u32) -> Result<(ChildStatus, Front), Fail> {
    let words = words_of(alloc, line)?;
    let piece = piece.max(1);
    let mut source = MemSource::new(Vec::from_slice(alloc, bytes)?, piece, Vec::new(alloc));
    let mut sink = MemSink::new(alloc, Vec::new(alloc));
    let mut front = Front::new(alloc);
    let status = run_showing(alloc, &words, &mut source, &mut sink, &mut front);
    Ok((status, front))
}

/// Whether the bad record has this number and is shown so, in pieces of any size.
fn is_shown(
    alloc: Global,
    words: &str,
    bytes: &[u8],
    line: u64,
    wanted: &[u8],
) -> Result<bool, Fail> {
    for piece in [1, 2, 3, 7, 65_536] {
        let (status, front) = show(alloc, words, bytes, piece)?;
        let mut quoted = Vec::new(alloc);
        append_quoted(&mut quoted, &front)?;
        if status != (ChildStatus::BadLine { line }) || quoted.as_slice() != wanted {
            return Ok(false);
        }
    }
    Ok(true)
}

#[test]
fn a_bad_record_is_shown(rt: HostRuntime) -> Result<(), Fail> {
    let cases: [(&str, &[u8], u64, &[u8]); 7] = [
        // The record that came is the bad one, the last one without an LF too, and an empty one.
        (
            "stage1 hcc 6",
            b"0\tV 1 0\n1\tW 0 1\n2\tV 1 2\n",
            2,
            b"\"1\\tW 0 1\"",
        ),
        ("stage1 hcc 6", b"0\tV 1 0\n1\tW 0 1", 2, b"\"1\\tW 0 1\""),
        ("number hcc 6", b"0\tV 1 0\n\n0\tV 1 0\n", 2, b"\"\""),
        // The one before it is: its group ended too early.
        (
            "place",
            b"0\tP 3\n0\tQ 5\n1\tP 4\n2\tP 5\n",
            3,
            b"\"1\\tP 4\"",
        ),
        ("place", b"0\tP 3\n0\tQ 5\n1\tP 4\n", 3, b"\"1\\tP 4\""),
        ("place", b"0\tP 3\n0\tQ 5\n1\tP 4", 3, b"\"1\\tP 4\""),
        // Bytes that aren't printed as they are.
        (
            "number hcc 6",
            b"\"\\\r~\x7f\xff",
            1,
            b"\"\\\"\\\\\\x0d~\\x7f\\xff\"",
        ),
    ];
    for (words, bytes, line, wanted) in cases {
        assert!(rt;
            is_shown(rt.alloc(), words, bytes, line, wanted)?,
            "{words}, line {line}"
        );
    }
    Ok(())
}

/// So many bytes `a`, between a front and a back.
fn around(alloc: Global, front: &[u8], count: usize, back: &[u8]) -> Result<Vec<u8>, Fail> {
    let mut text = Vec::from_slice(alloc, front)?;
    for _ in 0..count {
        text.push(b'a')?;
    }
    text.extend_from_slice(back)?;
    Ok(text)
}

#[test]
fn eighty_bytes_of_a_bad_record_are_shown(rt: HostRuntime) -> Result<(), Fail> {
    for (count, shown, back) in [(80, 80, b"\"".as_slice()), (81, 80, b"\" ..".as_slice())] {
        let bytes = around(rt.alloc(), b"0\tV 1 0\n", count, b"\n")?;
        let wanted = around(rt.alloc(), b"\"", shown, back)?;
        assert!(rt;
            is_shown(rt.alloc(), "number hcc 6", &bytes, 2, &wanted)?,
            "{count} bytes"
        );
    }
    Ok(())
}

/// A program's environment with three words, the second of which has so many bytes.
#[derive(Drop)]
struct LongWord {
    bytes: usize,
}

impl Env for LongWord {
    fn arg(&self, i: usize, buf: &mut [u8]) -> Result<usize, FillError> {
        let (byte, len) = match i {
            1 => (b'a', 1),
            2 => (b'b', self.bytes),
            3 => (0xff, 1),
            _ => return Err(FillError::NotPresent),
        };
        match buf.get_mut(..len) {
            Some(word) => {
                word.fill(byte);
                Ok(len)
            }
            None => Err(FillError::TooLong),
        }
    }

    fn var(&self, _name: &str, _buf: &mut [u8]) -> Result<usize, FillError> {
        Err(FillError::NotPresent)
    }

    fn var_at(&self, _i: usize, _buf: &mut [u8]) -> Result<usize, FillError> {
        Err(FillError::NotPresent)
    }
}

/// Whether the words are those of the environment, where the second one has so many bytes.
fn has_all(rt: &HostRuntime, bytes: usize) -> bool {
    let Ok(words) = program_words(&LongWord { bytes }, rt.alloc()) else {
        return false;
    };
    let lengths_are = match words.texts.as_slice() {
        [first, second, third] => {
            first.as_str() == "a" && second.len() == bytes && third.as_str() == "\u{FFFD}"
        }
        _ => false,
    };
    lengths_are && words.not_texts.as_slice() == [2].as_slice()
}

#[test]
fn no_word_is_lost_behind_a_long_one(rt: HostRuntime) -> Result<(), Fail> {
    for bytes in [0, 4_096, 4_097, 300_000] {
        assert!(rt; has_all(&rt, bytes), "{bytes} bytes");
    }
    Ok(())
}

//! `pegchild ROLE ..`: a role over the lines of standard input, for any streaming runner that sorts lines between its
//! mapper and its reducer.
#![tactic(auto)]

#[cfg(test)]
mod tests;

use child::{ChildStatus, Front, append_quoted, run_showing};
use host_real::{HeldStreams, StdSink, StdSource, program_words};
use peg_text::NoMemory;
use std::alloc::Global;
use std::process::ExitCode;

const HELP: &str = "\
pegchild: one role of a streaming job, from standard input to standard output

usage: pegchild ROLE [WORD ..]

id                    each line as it is
edges N               a line of an edge list as `s TAB t`, with ids below N; nothing for an empty line or a comment
entries one           an edge `s TAB t` as the entry `t TAB W s 1`
entries both          the same, and then `s TAB W t 1`
degrees               edges in groups of one source s: `s TAB W t d` for each, d edges in all
first ALG N           `p TAB P i` as the first value of node i: `p TAB V 1 value`
stage1 ALG N          groups of one `j TAB V c value`, then `j TAB W r m`: the value, and then `r TAB Y message` for each W
stage2 ALG N          groups of one `i TAB V c value`, then `i TAB Y message`: the new value, with c 0 where it is the same
number ALG N          `i TAB V c value` as `i TAB number`
group B               `p TAB P i` by its block: `J TAB P o i`, with J = p div B and o = p mod B
firstb ALG N B        groups of `J TAB P o i`: the first values of the block, by o: `J TAB V size values`
cut B                 an entry `c TAB W r m` by the blocks of its column and its row: `J.I TAB r c m`, r and c mod B
blocks                groups of one `J.I`: lines `J TAB T I items`, an item `r:c:m` for each, T is W where I = J, else X
block1 ALG N B        groups of one `J TAB V c values`, then `J TAB T I items`: the values, and then `I TAB Y parts` for each
                      line, a part `r:message` for each row
diag1 N B             as block1 hcc, where the values spread within the block first, and are sent to it as parts too
block2 ALG N B        groups of one `I TAB V c values`, then `I TAB Y parts`: the new values, c of them not the same
unblock ALG N B       `J TAB V c values` as a line `i TAB number` for each node
unplace ALG N B       the same as lines `p TAB Q number`; a line `p TAB P i` stays as it is
place                 groups of `p TAB P i` and `p TAB Q number`: `i TAB number`

ALG is hcc, pagerank or hadi=SEED, N is the number of nodes, 1 to 1073741824, and B the nodes of a block, 1 to 256; the last
block may have fewer.
A group is a run of lines with the same text before the first TAB.
The status is 0, or 2 for other words, 65 for a bad line, 66 for more than 2^50 bytes, 70 for want of memory, and 74
where a stream failed. A bad line is told on standard error by its number from 1, with its first 80 bytes in quotes.

pegchild --help and pegchild --version print this and the version.
";

const VERSION: &str = "pegchild 0.1.0\n";

/// What the program prints in place of a run, where its only word asks for it.
fn printed_instead(words: &[String]) -> Option<&'static str> {
    match words {
        [only] if only.as_str() == "--help" => Some(HELP),
        [only] if only.as_str() == "--version" => Some(VERSION),
        _ => None,
    }
}

/// The lines that tell of a bad record: its number, and its front in quotes.
fn bad_record(alloc: Global, line: u64, shown: &Front) -> Result<Vec<u8>, NoMemory> {
    let mut told = format!(in alloc;
        "pegchild: bad line {line}\npegchild: the line is "
    )?.into_bytes();
    append_quoted(&mut told, shown)?;
    told.push(b'\n')?;
    Ok(told)
}

/// What tells of a fault, each line with its LF; nothing where there was none.
fn fault_lines(alloc: Global, status: ChildStatus, shown: &Front) -> Result<Vec<u8>, NoMemory> {
    match status {
        ChildStatus::Ok => Ok(Vec::new(alloc)),
        ChildStatus::Usage => Ok(Vec::from_slice(
            alloc,
            b"pegchild: no role has these words (pegchild --help lists them)\n",
        )?),
        ChildStatus::BadLine { line } => bad_record(alloc, line, shown),
        ChildStatus::TooLarge => Ok(Vec::from_slice(alloc, b"pegchild: input too large\n")?),
        ChildStatus::NoMemory => Ok(Vec::from_slice(alloc, b"pegchild: no memory\n")?),
        ChildStatus::Fault => Ok(Vec::from_slice(alloc, b"pegchild: a stream failed\n")?),
    }
}

/// Says what went wrong on standard error, and gives the exit code.
fn finish(rt: &HostRuntime, alloc: Global, status: ChildStatus, shown: &Front) -> ExitCode {
    let told = match fault_lines(alloc, status, shown) {
        Ok(lines) => rt.stderr().write_all(&lines),
        Err(NoMemory) => rt.stderr().write_all(b"pegchild: no memory\n"),
    };
    // The exit code stands, whether or not someone listens.
    let _ = told;
    ExitCode::from(status.code())
}

fn main(rt: HostRuntime) -> ExitCode {
    let alloc = rt.alloc();
    let _held = HeldStreams::new(&rt);
    let mut shown = Front::new(alloc);
    let words = match program_words(&rt, alloc) {
        Ok(words) if words.not_texts.is_empty() => words.texts,
        Ok(_) => return finish(&rt, alloc, ChildStatus::Usage, &shown),
        Err(NoMemory) => return finish(&rt, alloc, ChildStatus::NoMemory, &shown),
    };
    if let Some(text) = printed_instead(&words) {
        return match rt.stdout().write_all(text.as_bytes()) {
            Ok(()) => ExitCode::SUCCESS,
            Err(_) => finish(&rt, alloc, ChildStatus::Fault, &shown),
        };
    }
    let mut source = StdSource::new(&rt);
    let mut sink = StdSink::new(&rt);
    let status = run_showing(alloc, &words, &mut source, &mut sink, &mut shown);
    finish(&rt, alloc, status, &shown)
}

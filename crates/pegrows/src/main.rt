//! `pegrows SCRIPT .. refused SCRIPT ..`: makes the rows of scripts, and says which aren't as they say. Of the scripts behind
//! `refused` a line can't be read.
#![tactic(auto)]

use host_real::program_words;
use rows::{Report, refuse_script, run_script};
use std::alloc::{AllocError, Global};
use std::process::ExitCode;
use std::{fs, io};

/// Makes the rows of the scripts that the words name.
fn run_scripts(
    rt: &HostRuntime,
    alloc: Global,
    words: &[String],
    report: &mut Report,
) -> io::Result<()> {
    for word in words {
        let text = fs::read(rt, word)?;
        let Ok(()) = run_script(alloc, word.as_bytes(), &text, report) else {
            return Err(AllocError)?;
        };
    }
    Ok(())
}

/// Reads the scripts that the words name, which have to be refused.
fn refuse_scripts(
    rt: &HostRuntime,
    alloc: Global,
    words: &[String],
    report: &mut Report,
) -> io::Result<()> {
    for word in words {
        let text = fs::read(rt, word)?;
        let Ok(()) = refuse_script(alloc, word.as_bytes(), &text, report) else {
            return Err(AllocError)?;
        };
    }
    Ok(())
}

/// The words before `refused`, and those behind it.
fn cut(words: &[String]) -> (&[String], &[String]) {
    match words.iter().position(|word| word.as_str() == "refused") {
        None => (words, &[]),
        Some(at) => (
            words.get(..at).unwrap_or(words),
            words.get(at.saturating_add(1)..).unwrap_or(&[]),
        ),
    }
}

/// Says what came of the scripts, and whether there are answers and all are as the rows say.
fn run(rt: &HostRuntime) -> io::Result<bool> {
    let alloc = rt.alloc();
    let Ok(words) = program_words(rt, alloc) else {
        return Ok(false);
    };
    let (scripts, refused) = cut(&words.texts);
    let mut report = Report::new(alloc);
    run_scripts(rt, alloc, scripts, &mut report)?;
    refuse_scripts(rt, alloc, refused, &mut report)?;
    rt.stdout().write_all(&report.text)?;
    println!(rt;
        "{} rows passed, {} failed, {} answers compared",
        report.passed, report.failed, report.answers
    )?;
    Ok(report.answers > 0 && report.failed == 0)
}

fn main(rt: HostRuntime) -> ExitCode {
    match run(&rt) {
        Ok(true) => ExitCode::SUCCESS,
        _ => ExitCode::FAILURE,
    }
}

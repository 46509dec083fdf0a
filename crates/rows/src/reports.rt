use crate::judge::{Complaint, Judge, Wrong};
use crate::lines::{Line, Unreadable, body_at, lines_of};
use crate::row::run_row;
use crate::trouble::Trouble;
use crate::writing::{add, add_number};
use peg_text::NoMemory;
use std::alloc::Global;

/// What came of the rows of scripts.
#[derive(Drop)]
pub struct Report {
    /// How many rows are as they say, those among them that have to fail and do.
    pub passed: u64,
    /// How many rows aren't, and how many scripts can't be read.
    pub failed: u64,
    /// How many answers were compared with what rows say.
    pub answers: u64,
    /// A line for each of the rows that failed, with the script and the line, what was wanted and what was answered.
    pub text: Vec<u8>,
}

impl Report {
    /// The report of no rows.
    pub fn new(alloc: Global) -> Report {
        Report {
            passed: 0,
            failed: 0,
            answers: 0,
            text: Vec::new(alloc),
        }
    }

    fn count(&mut self, passed: bool) {
        if passed {
            self.passed = self.passed.saturating_add(1);
        } else {
            self.failed = self.failed.saturating_add(1);
        }
    }

    /// Adds `SCRIPT:LINE: ` and what is said of that line.
    fn add(
        &mut self,
        alloc: Global,
        script: &[u8],
        line: u64,
        parts: &[&[u8]],
    ) -> Result<(), Trouble> {
        add(&mut self.text, script)?;
        add(&mut self.text, b":")?;
        add_number(alloc, &mut self.text, line)?;
        add(&mut self.text, b": ")?;
        for part in parts {
            add(&mut self.text, part)?;
        }
        add(&mut self.text, b"\n")
    }

    /// Says which line of a script can't be read.
    fn add_unreadable(
        &mut self,
        alloc: Global,
        script: &[u8],
        unreadable: Unreadable,
    ) -> Result<(), Trouble> {
        match unreadable.trouble {
            Trouble::Misread => self.add(
                alloc,
                script,
                unreadable.number,
                &[b"a line that can't be read"],
            ),
            Trouble::NoMemory => Err(Trouble::NoMemory),
        }
    }

    /// Counts a row, and says what is wrong with it. One that begins with `wrong` has to fail.
    fn add_row(
        &mut self,
        alloc: Global,
        script: &[u8],
        head: &Line,
        found: Result<(), Wrong>,
    ) -> Result<(), Trouble> {
        let has_to_fail = head.begins(&[b"wrong"]);
        self.count(found.is_ok() != has_to_fail);
        let name = name_of(alloc, head)?;
        let line = head.number;
        match found {
            Ok(()) if has_to_fail => {
                self.add(alloc, script, line, &[&name, b": passes, and has to fail"])
            }
            Ok(()) => Ok(()),
            Err(Wrong::Row(Complaint { line, text })) => {
                self.add(alloc, script, line, &[&name, b": ", &text])
            }
            Err(Wrong::NoMemory) => self.add(alloc, script, line, &[&name, b": no memory"]),
        }
    }
}

/// What a row is called: the words behind its first one.
fn name_of(alloc: Global, head: &Line) -> Result<Vec<u8>, Trouble> {
    let mut name = Vec::new(alloc);
    for word in head.words.iter().skip(1) {
        if !name.is_empty() {
            add(&mut name, b" ")?;
        }
        add(&mut name, word)?;
    }
    Ok(name)
}

/// Makes the row whose head stands at this place.
fn make_row(
    alloc: Global,
    script: &[u8],
    lines: &[Line],
    at: usize,
    report: &mut Report,
) -> Result<(), Trouble> {
    let Some(head) = lines.get(at) else {
        return Ok(());
    };
    let mut judge = Judge { alloc, answers: 0 };
    let found = run_row(&mut judge, head, body_at(lines, at));
    report.answers = report.answers.saturating_add(judge.answers);
    report.add_row(alloc, script, head, found)
}

fn make_rows(
    alloc: Global,
    script: &[u8],
    lines: &[Line],
    report: &mut Report,
) -> Result<(), Trouble> {
    for (at, line) in lines.iter().enumerate() {
        if line.depth == 0 {
            make_row(alloc, script, lines, at, report)?;
        }
    }
    Ok(())
}

fn add_script(
    alloc: Global,
    script: &[u8],
    text: &[u8],
    report: &mut Report,
) -> Result<(), Trouble> {
    match lines_of(alloc, text) {
        Ok(lines) => make_rows(alloc, script, &lines, report),
        Err(unreadable) => {
            report.count(false);
            report.add_unreadable(alloc, script, unreadable)
        }
    }
}

fn add_refused(
    alloc: Global,
    script: &[u8],
    text: &[u8],
    report: &mut Report,
) -> Result<(), Trouble> {
    match lines_of(alloc, text) {
        Ok(_) => {
            report.count(false);
            report.add(alloc, script, 1, &[b"a script that has to be refused"])
        }
        Err(unreadable) => {
            report.count(true);
            report.add_unreadable(alloc, script, unreadable)
        }
    }
}

fn without_cause(done: Result<(), Trouble>) -> Result<(), NoMemory> {
    match done {
        Ok(()) => Ok(()),
        Err(_) => Err(NoMemory),
    }
}

/// Makes the rows of a script, and adds what came of them to the report, whose lines begin with the script's name. A
/// script of which a line can't be read fails as a whole. After a refusal some of its rows may have been added.
pub fn run_script(
    alloc: Global,
    script: &[u8],
    text: &[u8],
    report: &mut Report,
) -> Result<(), NoMemory> {
    without_cause(add_script(alloc, script, text, report))
}

/// Reads a script of which a line can't be read, and adds what is said of it. It passes just if it is refused.
pub fn refuse_script(
    alloc: Global,
    script: &[u8],
    text: &[u8],
    report: &mut Report,
) -> Result<(), NoMemory> {
    without_cause(add_refused(alloc, script, text, report))
}

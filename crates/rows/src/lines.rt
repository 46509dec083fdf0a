use crate::cutting::words_of;
use crate::trouble::Trouble;
use peg_text::records;
use std::alloc::Global;

/// A line of a script: a step with the answer that it has to have, or the head of a row.
#[derive(Drop)]
pub(crate) struct Line {
    /// Its number in the script, from 1.
    pub number: u64,
    /// How deep it stands: 0 at the margin, and one more for each two blanks.
    pub depth: usize,
    pub words: Vec<Vec<u8>>,
    /// What stands behind its arrow; `ok` where it has none.
    pub want: Vec<u8>,
}

impl Line {
    /// Whether the first words are these.
    pub(crate) fn begins(&self, texts: &[&[u8]]) -> bool {
        self.words.len() >= texts.len()
            && texts
                .iter()
                .zip(self.words.iter())
                .all(|(text, word)| *text == word.as_slice())
    }

    /// Whether it is the head of a row: `row` or `wrong`, and what the row is called.
    fn is_head(&self) -> bool {
        (self.begins(&[b"row"]) || self.begins(&[b"wrong"]))
            && self.words.len() > 1
            && self.wants_ok()
    }

    /// Whether lines that belong to this one may stand deeper.
    fn may_have_body(&self) -> bool {
        self.depth == 0 || self.begins(&[b"each"])
    }

    /// Whether it has no arrow, or one that says no more.
    pub(crate) fn wants_ok(&self) -> bool {
        self.want.as_slice() == b"ok".as_slice()
    }
}

/// A line that can't be read.
#[derive(Clone, Copy)]
pub(crate) struct Unreadable {
    pub number: u64,
    pub trouble: Trouble,
}

/// The lines of a script that were read.
#[derive(Drop)]
struct Script {
    lines: Vec<Line>,
    /// The depth of the last line where its arrow is its end: what stands deeper is its answer.
    open: Option<usize>,
}

impl Script {
    /// Takes the next line of the text.
    fn take(&mut self, alloc: Global, number: u64, text: &[u8]) -> Result<(), Trouble> {
        let blanks = text.iter().take_while(|byte| **byte == b' ').count();
        let said = text.get(blanks..).unwrap_or(b"");
        if said.is_empty() || said.starts_with(b"#") {
            return Ok(());
        }
        if self.open.is_some_and(|depth| blanks / 2 > depth) {
            return self.add_answer(said);
        }
        self.add_line(line_of(alloc, number, blanks, said)?)
    }

    /// Adds a part of an answer that stands on lines of its own. The parts stand between blanks.
    fn add_answer(&mut self, said: &[u8]) -> Result<(), Trouble> {
        let Some(line) = self.lines.last_mut() else {
            return Err(Trouble::Misread);
        };
        if !line.want.is_empty() {
            line.want.push(b' ')?;
        }
        line.want.extend_from_slice(said)?;
        Ok(())
    }

    fn add_line(&mut self, line: Line) -> Result<(), Trouble> {
        if line.depth > self.deepest() || (line.depth == 0 && !line.is_head()) {
            return Err(Trouble::Misread);
        }
        self.open = if line.want.is_empty() {
            Some(line.depth)
        } else {
            None
        };
        self.lines.push(line)?;
        Ok(())
    }

    /// How deep the next line may stand.
    fn deepest(&self) -> usize {
        match self.lines.last() {
            None => 0,
            Some(last) if last.may_have_body() => last.depth.saturating_add(1),
            Some(last) => last.depth,
        }
    }
}

/// The step of a line, and what stands behind its first arrow.
fn at_arrow(text: &[u8]) -> (&[u8], &[u8]) {
    let arrow = text
        .windows(4)
        .position(|window| window == b" -> ".as_slice());
    match arrow {
        None => (text.strip_suffix(b" ->").unwrap_or(text), b""),
        Some(at) => (
            text.get(..at).unwrap_or(text),
            text.get(at.saturating_add(4)..).unwrap_or(b""),
        ),
    }
}

fn line_of(alloc: Global, number: u64, blanks: usize, text: &[u8]) -> Result<Line, Trouble> {
    if blanks % 2 != 0 {
        return Err(Trouble::Misread);
    }
    let (step, want) = at_arrow(text);
    let want = if step.len() == text.len() {
        b"ok"
    } else {
        want
    };
    Ok(Line {
        number,
        depth: blanks / 2,
        words: words_of(alloc, step)?,
        want: Vec::from_slice(alloc, want)?,
    })
}

/// The lines of a script, but empty ones and those that begin with `#`.
pub(crate) fn lines_of(alloc: Global, text: &[u8]) -> Result<Vec<Line>, Unreadable> {
    let Ok(texts) = records(alloc, text) else {
        return Err(Unreadable {
            number: 0,
            trouble: Trouble::NoMemory,
        });
    };
    let mut script = Script {
        lines: Vec::new(alloc),
        open: None,
    };
    let mut number = 0u64;
    for text in &texts {
        number = number.wrapping_add(1);
        if let Err(trouble) = script.take(alloc, number, text) {
            return Err(Unreadable { number, trouble });
        }
    }
    Ok(script.lines)
}

/// The lines at the front that stand deeper than this.
pub(crate) fn deeper(lines: &[Line], depth: usize) -> &[Line] {
    match lines.iter().position(|line| line.depth <= depth) {
        None => lines,
        Some(at) => lines.get(..at).unwrap_or(lines),
    }
}

/// The lines that belong to the one at this place: those behind it that stand deeper.
pub(crate) fn body_at(lines: &[Line], at: usize) -> &[Line] {
    let Some((line, behind)) = lines.get(at..).and_then(|rest| rest.split_first()) else {
        return &[];
    };
    deeper(behind, line.depth)
}

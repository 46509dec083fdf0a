use crate::trouble::Trouble;
use std::alloc::Global;

/// Where a reader stands within a line.
#[derive(Clone, Copy)]
enum Place {
    Between,
    Bare,
    Quoted,
    /// Behind a `\` within quotes.
    Escaped,
    /// Behind the second quote.
    Closed,
}

/// The words of a line so far.
#[derive(Drop)]
struct Cutter {
    words: Vec<Vec<u8>>,
    word: Vec<u8>,
    place: Place,
}

impl Cutter {
    fn take(&mut self, alloc: Global, byte: u8) -> Result<(), Trouble> {
        match self.place {
            Place::Between => self.begin(byte),
            Place::Bare if byte == b' ' => self.end(alloc),
            Place::Bare => self.add(byte),
            Place::Quoted => self.quote(byte),
            Place::Escaped => self.escape(byte),
            Place::Closed if byte == b' ' => self.end(alloc),
            Place::Closed => Err(Trouble::Misread),
        }
    }

    fn begin(&mut self, byte: u8) -> Result<(), Trouble> {
        match byte {
            b' ' => Ok(()),
            b'"' => {
                self.place = Place::Quoted;
                Ok(())
            }
            _ => {
                self.place = Place::Bare;
                self.add(byte)
            }
        }
    }

    fn add(&mut self, byte: u8) -> Result<(), Trouble> {
        self.word.push(byte)?;
        Ok(())
    }

    fn quote(&mut self, byte: u8) -> Result<(), Trouble> {
        match byte {
            b'"' => {
                self.place = Place::Closed;
                Ok(())
            }
            b'\\' => {
                self.place = Place::Escaped;
                Ok(())
            }
            _ => self.add(byte),
        }
    }

    fn escape(&mut self, letter: u8) -> Result<(), Trouble> {
        self.place = Place::Quoted;
        self.add(unescaped(letter)?)
    }

    fn end(&mut self, alloc: Global) -> Result<(), Trouble> {
        self.words.push(Vec::from_slice(alloc, &self.word)?)?;
        self.word.clear();
        self.place = Place::Between;
        Ok(())
    }
}

/// The byte that a letter behind a `\` stands for.
fn unescaped(letter: u8) -> Result<u8, Trouble> {
    match letter {
        b'n' => Ok(b'\n'),
        b't' => Ok(b'\t'),
        b'r' => Ok(b'\r'),
        b'"' | b'\\' => Ok(letter),
        _ => Err(Trouble::Misread),
    }
}

/// The words of a step, which stand between blanks; in quotes a word may have blanks.
pub(crate) fn words_of(alloc: Global, text: &[u8]) -> Result<Vec<Vec<u8>>, Trouble> {
    let mut cutter = Cutter {
        words: Vec::new(alloc),
        word: Vec::new(alloc),
        place: Place::Between,
    };
    for byte in text {
        cutter.take(alloc, *byte)?;
    }
    match cutter.place {
        Place::Between => Ok(cutter.words),
        Place::Bare | Place::Closed => {
            cutter.end(alloc)?;
            Ok(cutter.words)
        }
        Place::Quoted | Place::Escaped => Err(Trouble::Misread),
    }
}

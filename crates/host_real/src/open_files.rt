ghost use Rattle.std.specs.Prelude.{◌≤◌, length, IfOk};

use crate::reads::fill;
use crate::tree::{clear_folder, midway, parent_of};
use std::alloc::AllocGlobal;
use std::fs::{OpenFile, OpenOptions};
use std::io::{ErrorKind, Seek, SeekFrom, Write};
use std::rt::Files;
use std::{fs, io};

/// The most bytes of a file: 2^50.
pub(crate) const LONGEST: u64 = 1 << 50;

/// A file that is open, and its place on the machine.
#[derive(Drop)]
struct Opened<F> {
    place: String,
    file: F,
}

/// The file that was read last and the one that was appended to last, which stay open: most calls go on where the one
/// before them ended.
#[derive(Drop)]
pub(crate) struct OpenFiles<R: Files> {
    read: Option<Opened<R::File>>,
    appended: Option<Opened<R::File>>,
}

impl<R: Files + AllocGlobal + Clone + Drop> OpenFiles<R> {
    /// No file is open.
    pub(crate) fn new() -> OpenFiles<R> {
        OpenFiles {
            read: None,
            appended: None,
        }
    }

    /// Closes the files. It is to be called before files may be moved, removed or written by others.
    pub(crate) fn close(&mut self) {
        self.read = None;
        self.appended = None;
    }

    /// Closes the files, and before that makes sure that what was appended stays: where the system failed to write it, the
    /// handle that it came by is the one that is told.
    pub(crate) fn settle(&mut self) -> io::Result<()> {
        self.read = None;
        match self.appended.take() {
            Some(opened) => opened.file.sync_all(),
            None => Ok(()),
        }
    }

    /// Fills the buffer with what the file at a place has from `from` on: how many bytes there are.
    pub(crate) fn read(
        &mut self,
        rt: &R,
        place: String,
        from: u64,
        buffer: &mut [u8],
    ) -> io::Result<usize>
        ensures { IfOk result (λ len. len ≤ length buffer.old) }
    {
        let mut opened = match self.read.take() {
            Some(opened) if opened.place == place => opened,
            _ => Opened {
                file: fs::open(rt, place.as_str())?,
                place,
            },
        };
        if from > LONGEST {
            return Ok(0);
        }
        opened.file.seek(SeekFrom::Start(from))?;
        let len = fill(&mut opened.file, buffer)?;
        self.read = Some(opened);
        Ok(len)
    }

    /// Appends the bytes to the file at a place, and makes it and the folders above it where they are missing.
    pub(crate) fn append(&mut self, rt: &R, place: String, bytes: &[u8]) -> io::Result<()> {
        let mut opened = match self.appended.take() {
            Some(opened) if opened.place == place => opened,
            _ => Opened {
                file: open_to_append(rt, place.as_str())?,
                place,
            },
        };
        add(&mut opened.file, bytes).map_err(midway)?;
        self.appended = Some(opened);
        Ok(())
    }
}

/// Adds the bytes to an open file, where it doesn't grow too long.
fn add<F: Write + OpenFile>(file: &mut F, bytes: &[u8]) -> io::Result<()> {
    if bytes.len() as u64 > LONGEST.saturating_sub(file.metadata()?.len()) {
        return Err(io::Error::from(ErrorKind::FileTooLarge));
    }
    file.write_all(bytes)
}

/// Opens a file to append to it, and makes it and the folders above it where they are missing.
fn open_to_append<R: Files + AllocGlobal + Clone + Drop>(
    rt: &R,
    place: &str,
) -> io::Result<R::File> {
    let mut how = OpenOptions::new();
    how.append(true).create(true);
    match how.open(rt, place) {
        Err(error) if error.kind() == ErrorKind::NotFound => {
            fs::create_dir_all(rt, parent_of(place))?;
            how.open(rt, place)
        }
        Err(error) if error.kind() == ErrorKind::IsADirectory => {
            clear_folder(rt, place)?;
            how.open(rt, place)
        }
        answer => answer,
    }
}

ghost use Rattle.std.specs.Prelude.{◌≡◌, ◌≤◌, None, length, IfOk};

use crate::reads::read_some;
use dir_disk::{Source, SourceFault};
use peg_text::NoMemory;
use std::alloc::Global;
use std::rt::Files;
use std::{fs, io};

/// The bytes of a file, which is opened at the first read.
#[derive(Drop)]
pub struct FileSource<'r, R: Files> {
    rt: &'r R,
    path: String,
    file: Option<R::File>,
    faults: u64,
}

impl<'r, R: Files> FileSource<'r, R> {
    /// A source over the file at this path, which need not be there yet.
    pub fn new(rt: &'r R, alloc: Global, path: &str) -> Result<FileSource<'r, R>, NoMemory>
        ensures { IfOk result (λ source. ⟦<FileSource<'r, R> as Source>⟧.faults source ≡ 0) }
    {
        Ok(FileSource {
            rt,
            path: String::from_str(alloc, path)?,
            file: None,
            faults: 0,
        })
    }

    /// Opens the file where it isn't open, and reads once.
    fn fill(&mut self, buffer: &mut [u8]) -> io::Result<usize>
        ensures len { IfOk result (λ len. len ≤ length buffer.old) }
        ensures faults { self.new.faults ≡ self.old.faults }
    {
        let mut file = match self.file.take() {
            Some(file) => file,
            None => fs::open(self.rt, self.path.as_str())?,
        };
        let answer = read_some(&mut file, buffer);
        self.file = Some(file);
        answer
    }
}

impl<'r, R: Files> Source for FileSource<'r, R> {
    ghost left = { λ _. None };

    ghost faults = { λ source. source.faults };

    fn read(&mut self, alloc: Global, max: u32) -> Result<Vec<u8>, SourceFault> {
        let Ok(mut bytes) = vec![in alloc; 0u8; max as usize] else {
            return Err(SourceFault::NoMemory);
        };
        match self.fill(&mut bytes) {
            Ok(len) => {
                bytes.truncate(len);
                Ok(bytes)
            }
            Err(_) => {
                self.faults = self.faults.saturating_add(1);
                Err(SourceFault::Failed)
            }
        }
    }
}

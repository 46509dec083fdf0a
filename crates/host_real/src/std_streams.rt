ghost use Rattle.std.specs.Prelude.{◌≡◌, None, OnOk, IsErrOf};
ghost use Rattle.dir_disk.specs.Causes.{HasCause};

use crate::reads::read_some;
use dir_disk::{Console, SayFault, Sink, SinkFault, Source, SourceFault};
use std::alloc::Global;
use std::fs::OpenOptions;
use std::io::{Input, Print};
use std::rt::Files;

/// What keeps the places of standard input, output and error taken.
///
/// Where a program is started with one of them closed, the next file that it opens would take its place, and lines meant
/// for a person would go into that file. While this value is held a stream that was closed is opened on nothing.
#[derive(Drop)]
pub struct HeldStreams<R: Files> {
    nothing: [Option<R::File>; 3],
}

impl<R: Files> HeldStreams<R> {
    /// Takes the places of the streams that are closed. It is to be called before any file is opened.
    pub fn new(files: &R) -> HeldStreams<R> {
        let mut how = OpenOptions::new();
        how.read(true).write(true);
        let first = how.open(files, "/dev/null").ok();
        let second = how.open(files, "/dev/null").ok();
        let third = how.open(files, "/dev/null").ok();
        HeldStreams {
            nothing: [first, second, third],
        }
    }
}

/// The bytes of standard input.
#[derive(Drop)]
pub struct StdSource<'r, R> {
    rt: &'r R,
    faults: u64,
}

impl<'r, R: Input> StdSource<'r, R> {
    /// A source over standard input, of which nothing was read yet.
    pub fn new(rt: &'r R) -> StdSource<'r, R>
        ensures { ⟦<StdSource<'r, R> as Source>⟧.faults result ≡ 0 }
    {
        StdSource { rt, faults: 0 }
    }
}

impl<'r, R: Input> Source for StdSource<'r, R> {
    ghost left = { λ _. None };

    ghost faults = { λ source. source.faults };

    fn read(&mut self, alloc: Global, max: u32) -> Result<Vec<u8>, SourceFault> {
        let Ok(mut bytes) = vec![in alloc; 0u8; max as usize] else {
            return Err(SourceFault::NoMemory);
        };
        match read_some(&mut self.rt.reader(), &mut bytes) {
            Ok(len) => {
                bytes.truncate(len);
                Ok(bytes)
            }
            Err(_) => {
                self.faults = self.faults.saturating_add(1);
                Err(SourceFault::Failed)
            }
        }
    }
}

/// Standard output, as a sink.
#[derive(Drop)]
pub struct StdSink<'r, R> {
    rt: &'r R,
    faults: u64,
}

impl<'r, R: Print> StdSink<'r, R> {
    /// A sink to which nothing was written yet.
    pub fn new(rt: &'r R) -> StdSink<'r, R>
        ensures { ⟦<StdSink<'r, R> as Sink>⟧.faults result ≡ 0 }
    {
        StdSink { rt, faults: 0 }
    }
}

impl<'r, R: Print> Sink for StdSink<'r, R> {
    ghost written = { λ _. None };

    ghost faults = { λ sink. sink.faults };

    fn write(&mut self, _alloc: Global, bytes: &[u8]) -> Result<(), SinkFault> {
        match self.rt.write_all(bytes) {
            Ok(()) => Ok(()),
            Err(_) => {
                self.faults = self.faults.saturating_add(1);
                Err(SinkFault::Failed)
            }
        }
    }
}

/// Standard output, as a console.
#[derive(Drop)]
pub struct StdConsole<'r, R> {
    rt: &'r R,
    say_faults: u64,
}

impl<'r, R: Print> StdConsole<'r, R> {
    /// A console on which nothing was said yet.
    pub fn new(rt: &'r R) -> StdConsole<'r, R>
        ensures { ⟦<StdConsole<'r, R> as Console>⟧.say_faults result ≡ 0 }
    {
        StdConsole { rt, say_faults: 0 }
    }
}

impl<'r, R: Print> Console for StdConsole<'r, R> {
    ghost said = { λ _. None };

    ghost says = { λ _. None };

    ghost moment = { λ _. 0 };

    ghost say_faults = { λ console. console.say_faults };

    ghost Beside = { Unit {0} };

    ghost beside = { λ _. tt };

    fn say(&mut self, _alloc: Global, bytes: &[u8]) -> Result<(), SayFault> {
        say_on(self.rt, &mut self.say_faults, bytes)
    }
}

/// Says the bytes on standard output, and counts a fault.
pub(crate) fn say_on(rt: &impl Print, say_faults: &mut u64, bytes: &[u8]) -> Result<(), SayFault>
    ensures cause { HasCause SayFault.Failed say_faults.old say_faults.new result }
    ensures steady { OnOk result (say_faults.new ≡ say_faults.old) }
    ensures uncounted { IsErrOf result SayFault.NoMemory → say_faults.new ≡ say_faults.old }
{
    match rt.write_all(bytes) {
        Ok(()) => Ok(()),
        Err(_) => {
            *say_faults = say_faults.saturating_add(1);
            Err(SayFault::Failed)
        }
    }
}

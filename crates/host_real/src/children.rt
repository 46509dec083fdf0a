ghost use Rattle.std.specs.Prelude.{◌≡◌, ◌<◌, ◌≤◌, ◌+◌, [], ◌∷◌, ◌++◌, IfOk, length};
ghost use Rattle.std.specs.Vec.{vec_len, vec_capacity};
ghost use Rattle.dir_disk.specs.Children.{Begins, Child as Seat, Ends};

use crate::machine::Machine;
use crate::reads::fill;
use crate::tree::{clear_folder, is_folder, is_no_memory, parent_of};
use dir_disk::{Ended, LogEntry, StartFault};
use peg_base::{Attempt, Path, Words};
use peg_text::{NoMemory, read_decimal};
use std::alloc::Global;
use std::io::Read;
use std::marker::Model;
use std::process::{Child, Command, OpenProcess, Processes, Stdio};
use std::rt::Clock;
use std::time::Duration;
use std::{fs, io};

/// What the shell is told: the first two words are a child's paths, and the others are its command, which it becomes.
/// Where standard error is closed it is opened on nothing, so that no file of the child's takes its place.
const SCRIPT: &str =
    "in=$1; out=$2; shift 2; true >&2 || exec 2>/dev/null; exec \"$@\" <\"$in\" >\"$out\"";

/// The same for a shell that stays, and writes the status of its command to its own standard output.
const TELLING_SCRIPT: &str =
    "in=$1; out=$2; shift 2; true >&2 || exec 2>/dev/null; \"$@\" <\"$in\" >\"$out\"; echo $?";

/// The status of a child that a signal ended, that could not be waited for, or whose output has not come to its place.
const LOST: i32 = 255;

/// Where a child's files are on the machine.
#[derive(Drop)]
pub(crate) struct Places {
    /// Its input.
    pub(crate) input: String,
    /// What it writes: a place that no child of another run has.
    pub(crate) own: String,
    /// Where its output is to be once it has ended well.
    pub(crate) output: String,
}

/// A child that was started and was not yet waited for.
#[derive(Drop)]
struct Running<P: OpenProcess> {
    process: Spawned<P>,
    seat: Held,
    noted: Attempt,
    ghost same: { noted ≡ seat.attempt },
}

/// The process of a child, where its files are, and when it was started, where a clock says that.
#[derive(Drop)]
struct Spawned<P: OpenProcess> {
    process: Child<P>,
    places: Places,
    since: Option<Duration>,
}

/// What a child was started with.
#[derive(Drop)]
struct Held {
    attempt: Attempt,
    words: Words,
    input: Path,
    output: Path,
}

/// The children of the machine, the log of them, and how many starts failed. What their inputs had isn't told.
#[derive(Drop)]
pub(crate) struct Children<R: Processes> {
    running: Vec<Running<R::Started>>,
    log: Vec<LogEntry>,
    start_faults: u64,
    /// Whether the status of a child could not be had by waiting, as where the system was told to ignore ends of children:
    /// from then on the shell tells it.
    is_blind: bool,
    /// How long the child ran that was waited for last.
    took: Option<Duration>,
    ghost room: { vec_len log + vec_len running ≤ vec_capacity log },
}

impl<R: Processes> Model for Children<R> {
    ghost use Rattle.std.specs.Prelude.{[], map};
    ghost use Rattle.dir_disk.specs.Children.{Seen};

    ghost Value = { Seen };

    ghost view = { λ c. record {
      running = map (λ one. record { attempt = one.seat.attempt; words = one.seat.words; input = one.seat.input; output = one.seat.output; given = [] }) c.running.items;
      log = c.log.items;
      start_faults = c.start_faults;
    } };
}

impl<R: Machine> Children<R> {
    /// No child was started yet.
    pub(crate) fn new(alloc: Global) -> Children<R>
        ensures { result ≡ record { running = []; log = []; start_faults = 0 } }
    {
        Children {
            running: Vec::new(alloc),
            log: Vec::new(alloc),
            start_faults: 0,
            is_blind: false,
            took: None,
        }
    }

    /// Whether no child runs.
    pub(crate) fn is_idle(&self) -> bool {
        self.running.is_empty()
    }

    /// How many starts were made, refused ones among them.
    pub(crate) fn starts(&self) -> usize {
        self.log.len()
    }

    /// How long the child ran that was waited for last, where a clock says that.
    pub(crate) fn took(&self) -> Option<Duration> {
        self.took
    }

    /// The command of a child of these words: the shell opens the two places as its standard input and output, and becomes
    /// the program or waits for it. `child` stands for the program `pegchild`.
    pub(crate) fn command(
        &self,
        alloc: Global,
        child: &str,
        words: &Words,
        places: &Places,
    ) -> Result<Command<Global>, NoMemory> {
        let mut command = Command::new(alloc, "sh")?;
        command.arg("-c")?;
        if self.is_blind {
            command.arg(TELLING_SCRIPT)?.stdout(Stdio::piped());
        } else {
            command.arg(SCRIPT)?;
        }
        command.arg("pegchild-run")?;
        command
            .arg(places.input.as_str())?
            .arg(places.own.as_str())?;
        push_words(&mut command, child, words)?;
        Ok(command)
    }

    #[tactic(auto, using(crate::proofs::ChildLemmas::mapped_end))]
    /// Starts a child by its command, where the work folder is held. All memory is taken before anything is done, that for
    /// the child's end too.
    pub(crate) fn start(
        &mut self,
        rt: &R,
        alloc: Global,
        held: io::Result<()>,
        command: &mut Command<Global>,
        places: Places,
        attempt: &Attempt,
        words: &Words,
        input: &Path,
        output: &Path,
    ) -> Result<(), StartFault>
        ensures { let child : Seat = record { attempt = attempt.now; words = words.now; input = input.now; output = output.now; given = [] } in
            Begins child self.old self.new result }
    {
        let Ok((seat, noted, started)) = copies(alloc, attempt, words, input, output) else {
            return Err(StartFault::NoMemory);
        };
        if self.running.reserve(1).is_err() || self.log.reserve(self.running.len() + 2).is_err() {
            return Err(StartFault::NoMemory);
        }
        let process = match spawn(rt, held, command, places) {
            Ok(process) => process,
            Err(StartFault::NoMemory) => return Err(StartFault::NoMemory),
            Err(StartFault::Failed) => {
                self.start_faults = self.start_faults.saturating_add(1);
                note(&mut self.log, LogEntry::StartFailed(started));
                return Err(StartFault::Failed);
            }
        };
        note(&mut self.log, LogEntry::Started(started));
        add(
            &mut self.running,
            Running {
                process,
                seat,
                noted,
            },
        );
        Ok(())
    }

    /// Waits for the child that was started first.
    pub(crate) fn reap(&mut self, rt: &R) -> Ended
        requires { 1 ≤ length self.old.running }
        ensures { (child : Seat) × Ends result.attempt result.status child self.old self.new × (self.old.running ≡ child ∷ self.new.running) }
    {
        let Running {
            mut process,
            seat,
            noted,
        } = take_first(&mut self.running);
        let ended = status_of(&mut process.process);
        if ended.is_none() {
            self.is_blind = true;
        }
        self.took = time_since(rt, process.since);
        let status = leave_output(rt, &process.places, ended);
        note(&mut self.log, LogEntry::Ended(noted, status));
        Ended {
            attempt: seat.attempt,
            status,
        }
    }
}

/// Appends the words of a child to a command.
fn push_words(command: &mut Command<Global>, child: &str, words: &Words) -> Result<(), NoMemory> {
    for at in 0..words.len() {
        let word = match words.get(at) {
            Some("pegchild") if at == 0 => child,
            Some(word) => word,
            None => "",
        };
        command.arg(word)?;
    }
    Ok(())
}

/// What a child is started with, and its attempt twice more for the log.
fn copies(
    alloc: Global,
    attempt: &Attempt,
    words: &Words,
    input: &Path,
    output: &Path,
) -> Result<(Held, Attempt, Attempt), NoMemory>
    ensures { IfOk result (λ made. (made.0 ≡ record { attempt = attempt.now; words = words.now; input = input.now; output = output.now }) × (made.1 ≡ attempt.now) × (made.2 ≡ attempt.now)) }
{
    let seat = Held {
        attempt: attempt.copy(alloc)?,
        words: words.copy(alloc)?,
        input: input.copy(alloc)?,
        output: output.copy(alloc)?,
    };
    Ok((seat, attempt.copy(alloc)?, attempt.copy(alloc)?))
}

/// Starts the command, where the work folder is held: want of memory is told apart from any other fault.
fn spawn<R: Machine>(
    rt: &R,
    held: io::Result<()>,
    command: &mut Command<Global>,
    places: Places,
) -> Result<Spawned<R::Started>, StartFault> {
    match try_spawn(rt, held, command, &places) {
        Ok(process) => Ok(Spawned {
            process,
            places,
            since: rt.monotonic().ok(),
        }),
        Err(error) if is_no_memory(&error) => Err(StartFault::NoMemory),
        Err(_) => Err(StartFault::Failed),
    }
}

/// Makes room for the files at their places, and starts the command.
fn try_spawn<R: Machine>(
    rt: &R,
    held: io::Result<()>,
    command: &mut Command<Global>,
    places: &Places,
) -> io::Result<Child<R::Started>> {
    held?;
    let output = places.output.as_str();
    if is_folder(rt, output)? {
        clear_folder(rt, output)?;
    }
    fs::create_dir_all(rt, parent_of(output))?;
    fs::create_dir_all(rt, parent_of(places.own.as_str()))?;
    command.spawn(rt)
}

/// Brings the output of a child that has ended well to its place, and takes away that of any other one: the status that
/// counts.
fn leave_output<R: Machine>(rt: &R, places: &Places, ended: Option<i32>) -> i32 {
    let own = places.own.as_str();
    match ended {
        Some(0) => match fs::rename(rt, own, places.output.as_str()) {
            Ok(()) => 0,
            Err(_) => LOST,
        },
        _ => {
            let _ = fs::remove_file(rt, own);
            ended.unwrap_or(LOST)
        }
    }
}

/// The time since a moment, where both can be told.
fn time_since(clock: &impl Clock, since: Option<Duration>) -> Option<Duration> {
    Some(clock.monotonic().ok()?.saturating_sub(since?))
}

#[tactic(auto, using(crate::proofs::ChildLemmas::first_and_rest))]
/// Takes the first child out of the list.
fn take_first<P: OpenProcess>(running: &mut Vec<Running<P>>) -> Running<P>
    requires { 1 ≤ length running.old.items }
    ensures items { running.old.items ≡ result ∷ running.new.items }
    ensures len { vec_len running.old ≡ vec_len running.new + 1 }
    ensures capacity { vec_capacity running.new ≡ vec_capacity running.old }
{
    running.remove(0)
}

/// Waits for a child: its status, or `None` where that can't be had.
fn status_of<P: OpenProcess>(process: &mut Child<P>) -> Option<i32> {
    if let Some(mut told) = process.stdout.take() {
        let status = told_status(&mut told);
        let _ = process.wait();
        return Some(status);
    }
    match process.wait() {
        Ok(status) => Some(status.code().unwrap_or(LOST)),
        Err(_) => None,
    }
}

/// The status that a shell tells.
fn told_status(told: &mut impl Read) -> i32 {
    let mut text = [0u8; 8];
    let len = fill(told, &mut text).unwrap_or(0);
    let digits = text[..len].strip_suffix(b"\n").unwrap_or(b"");
    match read_decimal(digits) {
        Some(status) if status < 255 => status as i32,
        _ => LOST,
    }
}

/// Adds a child to a list that has room for it.
fn add<P: OpenProcess + Drop>(running: &mut Vec<Running<P>>, one: Running<P>)
    requires { vec_len running.old < vec_capacity running.old }
    ensures items { running.new.items ≡ running.old.items ++ one ∷ [] }
    ensures len { vec_len running.new ≡ vec_len running.old + 1 }
{
    let _ = running.push(one);
}

/// Notes an entry in a log that has room for it.
fn note(log: &mut Vec<LogEntry>, entry: LogEntry)
    requires { vec_len log.old < vec_capacity log.old }
    ensures items { log.new.items ≡ log.old.items ++ entry ∷ [] }
    ensures len { vec_len log.new ≡ vec_len log.old + 1 }
    ensures capacity { vec_capacity log.old ≤ vec_capacity log.new }
{
    let _ = log.push(entry);
}

use peg_base::{Attempt, Phase};
use std::fmt;
use std::fmt::{Display, Formatter};
use std::io::Eprint;
use std::rt::Clock;
use std::time::Duration;

/// Whether a site tells on standard error when its children start and end.
#[derive(Clone, Copy, Debug, PartialEq, Eq)]
pub enum Progress {
    /// It says nothing there.
    Hidden,
    /// It says a line for each event, and a few a second at most.
    Shown,
}

/// The most lines of one second.
const LINES: u32 = 4;

/// The most lines of one second where those count in that tell of a failure.
const WITH_FAILURES: u32 = 8;

/// What has happened to an attempt.
#[derive(Clone, Copy)]
pub(crate) enum Event {
    Started,
    NotStarted,
    /// It ended with this status, so long after its start where a clock says that.
    Ended(i32, Option<Duration>),
}

impl Event {
    fn is_failure(&self) -> bool {
        match self {
            Event::Started => false,
            Event::NotStarted => true,
            Event::Ended(status, _) => *status != 0,
        }
    }
}

/// A line on what has happened to an attempt.
#[derive(Drop)]
struct Line<'a> {
    attempt: &'a Attempt,
    event: Event,
}

impl<'a> Display for Line<'a> {
    fn fmt<W: fmt::Write>(&self, f: &mut Formatter<W>) -> fmt::Result {
        for name in self.attempt.task.job.names() {
            f.write_str(name.text())?;
            f.write_str(" ")?;
        }
        let phase = match self.attempt.task.phase {
            Phase::Map => "map",
            Phase::Combine => "combine",
            Phase::Reduce => "reduce",
        };
        let (task, number) = (self.attempt.task.task, self.attempt.number);
        write!(f, "{phase} {task} attempt {number} ")?;
        match self.event {
            Event::Started => f.write_str("started"),
            Event::NotStarted => f.write_str("could not be started"),
            Event::Ended(status, None) => write!(f, "ended with {status}"),
            Event::Ended(status, Some(time)) => {
                let (seconds, tenths) = (time.as_secs(), time.subsec_millis() / 100);
                write!(f, "ended with {status} after {seconds}.{tenths} s")
            }
        }
    }
}

/// Tells of attempts on standard error.
#[derive(Drop)]
pub(crate) struct Teller {
    progress: Progress,
    /// The second of the newest line, and how many lines it has.
    second: u64,
    lines: u32,
}

impl Teller {
    /// Nothing was told yet.
    pub(crate) fn new(progress: Progress) -> Teller {
        Teller {
            progress,
            second: 0,
            lines: 0,
        }
    }

    /// Tells of an attempt, where that is asked for and this second has room. It takes no memory.
    pub(crate) fn tell(&mut self, rt: &(impl Clock + Eprint), attempt: &Attempt, event: Event) {
        let most = if event.is_failure() {
            WITH_FAILURES
        } else {
            LINES
        };
        if self.progress == Progress::Shown && self.has_room(rt, most) {
            // The run goes on, whether or not someone listens.
            let _ = rt.eprintln(Line { attempt, event });
        }
    }

    /// Counts a line, where this second has fewer than so many.
    fn has_room(&mut self, clock: &impl Clock, most: u32) -> bool {
        let second = clock.monotonic().map_or(0, |now| now.as_secs());
        if second != self.second {
            self.second = second;
            self.lines = 0;
        }
        if self.lines >= most {
            return false;
        }
        self.lines += 1;
        true
    }
}

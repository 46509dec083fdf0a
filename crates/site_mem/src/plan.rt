ghost use Rattle.std.specs.Prelude.{◌≡◌, ◌&&◌, not, find};
ghost use Rattle.std.specs.List.{list_any};
ghost use Rattle.std.specs.Option.{option_copied};
ghost use Rattle.site_mem.specs.Ends.{end_status, is_zero};
ghost use Rattle.peg_base.specs.Tasks.{same_phase};
ghost use Rattle.site_mem.specs.Plans.{same_attempt, starts};

use crate::order::Order;
use dir_disk::LogEntry;
use peg_base::{Attempt, Phase};
use std::alloc::Global;
use std::marker::Model;

/// The status of a child that waits for a start that doesn't come.
const STUCK: i32 = 99;

/// The status of a child whose answer no file can have.
const TOO_LONG: i32 = 66;

/// The most bytes of a file: 2^50.
const LONGEST: u64 = 1 << 50;

/// How the children end, and which starts are refused.
#[derive(Drop)]
pub(crate) struct Plan {
    script: Vec<(Attempt, i32)>,
    refused: Vec<Attempt>,
    order: Order,
    holds: Vec<(Attempt, Attempt)>,
}

impl Model for Plan {
    ghost use Rattle.site_mem.specs.Plans.{Planned};

    ghost Value = { Planned };

    ghost view = { λ p. record { script = p.script.items; refused = p.refused.items; order = p.order; holds = p.holds.items } };
}

impl Plan {
    ghost use Rattle.site_mem.specs.Plans.{is_among, is_held, scripted, status_of, unplanned};
    ghost use Rattle.site_mem.specs.Ends.{end_status};

    /// All children do their work, and the oldest one ends first.
    pub(crate) fn new(alloc: Global) -> Plan
        ensures { result ≡ unplanned }
    {
        Plan {
            script: Vec::new(alloc),
            refused: Vec::new(alloc),
            order: Order::OldestFirst,
            holds: Vec::new(alloc),
        }
    }

    pub(crate) fn set_script(&mut self, ends: Vec<(Attempt, i32)>)
        ensures { self.new ≡ record self.old { script = ends.items } }
    {
        self.script = ends;
    }

    pub(crate) fn set_refused(&mut self, starts: Vec<Attempt>)
        ensures { self.new ≡ record self.old { refused = starts.items } }
    {
        self.refused = starts;
    }

    pub(crate) fn set_order(&mut self, order: Order)
        ensures { self.new ≡ record self.old { order = order } }
    {
        self.order = order;
    }

    pub(crate) fn set_holds(&mut self, holds: Vec<(Attempt, Attempt)>)
        ensures { self.new ≡ record self.old { holds = holds.items } }
    {
        self.holds = holds;
    }

    pub(crate) fn order(&self) -> Order
        ensures { result ≡ self.now.order }
    {
        self.order
    }

    /// Whether the start of the attempt is refused.
    pub(crate) fn refuses(&self, attempt: &Attempt) -> bool
        ensures { result ≡ is_among self.now.refused attempt.now }
    {
        self.refused.iter().any(|other| is_same(other, attempt))
    }

    /// Whether the attempt waits for another one that was not started.
    pub(crate) fn holds_back(&self, log: &[LogEntry], attempt: &Attempt) -> bool
        ensures { result ≡ is_held self.now.holds log.now attempt.now }
    {
        self.holds.iter().any(|hold| is_same(&hold.0, attempt) && !was_started(log, &hold.1))
    }

    /// The status that the script names for the attempt; 0 where it names none.
    fn scripted(&self, attempt: &Attempt) -> i32
        ensures { result ≡ scripted self.now.script attempt.now }
    {
        match entry_of(&self.script, attempt) {
            None => 0,
            Some(entry) => entry.1,
        }
    }

    /// The status with which the attempt ends, that has this answer.
    pub(crate) fn status_of(&self, log: &[LogEntry], attempt: &Attempt, answer: &[u8]) -> i32
        ensures { result ≡ status_of self.now log.now attempt.now answer.now }
    {
        if self.holds_back(log, attempt) {
            return STUCK;
        }
        end_status(self.scripted(attempt), answer)
    }
}

/// The first entry of the script for the attempt.
fn entry_of<'a>(script: &'a [(Attempt, i32)], attempt: &Attempt) -> Option<&'a (Attempt, i32)>
    ensures { option_copied result ≡ find (λ entry. same_attempt entry.0 attempt.now) script.now }
{
    script.iter().find(|entry| is_same(&entry.0, attempt))
}

/// The status of a child that is to end with this one if it can do its work.
fn end_status(status: i32, answer: &[u8]) -> i32
    ensures { result ≡ end_status status answer.now }
{
    if is_zero(status) && answer.len() as u64 > LONGEST {
        return TOO_LONG;
    }
    status
}

/// Whether this is the status of a child that has done its work.
pub(crate) fn is_zero(status: i32) -> bool
    ensures { result ≡ is_zero status }
{
    status == 0
}

fn is_same_phase(one: Phase, other: Phase) -> bool
    ensures { result ≡ same_phase one other }
{
    match one {
        Phase::Map => matches!(other, Phase::Map),
        Phase::Combine => matches!(other, Phase::Combine),
        Phase::Reduce => matches!(other, Phase::Reduce),
    }
}

fn is_same(one: &Attempt, other: &Attempt) -> bool
    ensures { result ≡ same_attempt one.now other.now }
{
    one.task.job == other.task.job
        && is_same_phase(one.task.phase, other.task.phase)
        && one.task.task == other.task.task
        && one.number == other.number
}

fn is_start_of(attempt: &Attempt, entry: &LogEntry) -> bool
    ensures { result ≡ starts attempt.now entry.now }
{
    match entry {
        LogEntry::Started(other) => is_same(other, attempt),
        LogEntry::StartFailed(_) | LogEntry::Ended(..) => false,
    }
}

fn was_started(log: &[LogEntry], attempt: &Attempt) -> bool
    ensures { result ≡ list_any (starts attempt.now) log.now }
{
    log.iter().any(|entry| is_start_of(attempt, entry))
}

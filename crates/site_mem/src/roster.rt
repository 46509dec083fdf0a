ghost use Rattle.std.specs.Prelude.{◌≡◌, ◌≢◌, ◌<◌, ◌≤◌, ◌+◌, ◌^◌, [], ◌∷◌, ◌++◌, Some, true, false, IfOk, IsErrOf, length, take, drop, if◌then◌else◌};
ghost use Rattle.std.specs.Vec.{vec_len, vec_capacity};
ghost use Rattle.dir_disk.specs.Children.{Begins, CanStart, Child, Ends, Given as Gives, Hands, Leaves, Starts, after_start, loan_of, loans_of};
ghost use Rattle.dir_disk.specs.Lent.{IsFree, IsNoOutput};
ghost use Rattle.dir_disk.specs.Moments.{clock, files};
ghost use Rattle.dir_disk.specs.State.{bytes_of};
ghost use Rattle.dir_mem.specs.Memory.{fail_of, faults_of, lent_of, told_of};
ghost use Rattle.dir_mem.specs.Traces.{garbage};
ghost use Rattle.site_mem.specs.Reaps.{EndsNext};
ghost use Rattle.site_mem.specs.Plans.{FailsIf, IsNext, is_held, status_of};
ghost use Rattle.site_mem.specs.Ends.{is_zero};

use crate::order::Order;
use crate::plan::{Plan, is_zero};
use crate::roles::Roles;
use dir_disk::{Ended, LogEntry, StartFault};
use dir_mem::{GARBAGE, Loan, MemDir};
use peg_base::{Attempt, Path, Words};
use peg_text::NoMemory;
use std::alloc::Global;
use std::marker::{Model, PhantomData};

/// What a start was given: the words, the bytes of the input, and how many calls of the directory were made before it.
#[derive(Drop)]
pub(crate) struct Given {
    words: Words,
    input: Vec<u8>,
    moment: u64,
}

impl Model for Given {
    ghost use Rattle.dir_disk.specs.Children.{Given as Gives};

    ghost Value = { Gives };

    ghost view = { λ g. record { words = g.words; input = g.input.items; moment = g.moment } };
}

impl Given {
    /// What a start of these words with this input is given now.
    pub(crate) fn new(
        alloc: Global,
        dir: &MemDir,
        words: &Words,
        input: &Path,
    ) -> Result<Given, NoMemory>
        ensures { IfOk result (λ given. given ≡ record { words = words.now; input = bytes_of (files (told_of dir.now) input.now).now; moment = clock (told_of dir.now) }) }
    {
        Ok(Given {
            words: words.copy(alloc)?,
            input: Vec::from_slice(alloc, bytes_at(dir, input))?,
            moment: dir.calls(),
        })
    }

    /// The bytes of the input.
    pub(crate) fn input(&self) -> &[u8]
        ensures { result.now ≡ self.now.input }
    {
        &self.input
    }
}

/// The bytes of the file at the path; none where no file is.
fn bytes_at<'a>(dir: &'a MemDir, path: &Path) -> &'a [u8]
    ensures { result.now ≡ bytes_of (files (told_of dir.now) path.now).now }
{
    match dir.content(path) {
        None => &[],
        Some(bytes) => bytes,
    }
}

/// A child that runs, with all that its end needs.
#[derive(Drop)]
struct Running<R: Roles + Drop> {
    attempt: Attempt,
    noted: Attempt,
    words: Words,
    given: Vec<u8>,
    answer: Vec<u8>,
    remains: Vec<u8>,
    loan: Loan,
    roles: PhantomData<R>,
}

impl<R: Roles + Drop> Model for Running<R> {
    ghost use Rattle.std.specs.Prelude.{◌≡◌};
    ghost use Rattle.dir_disk.specs.Children.{Child};
    ghost use Rattle.dir_mem.specs.Traces.{garbage};

    ghost Value = { Child };

    ghost view = { λ r. record { attempt = r.attempt; words = r.words; input = r.loan.input; output = r.loan.output; given = r.given.items } };

    ghost invariant = { λ r. (r.noted ≡ r.attempt) × (r.answer.items ≡ R.gives r.words r.given.items) × (r.remains.items ≡ garbage) };
}

/// The children that run, in the order of their starts, the log of all, how many starts failed, and what each was given.
#[derive(Drop)]
pub(crate) struct Roster<R: Roles + Drop> {
    running: Vec<Running<R>>,
    log: Vec<LogEntry>,
    start_faults: u64,
    given: Vec<Given>,
}

impl<R: Roles + Drop> Model for Roster<R> {
    ghost use Rattle.std.specs.Prelude.{◌≤◌, ◌+◌};
    ghost use Rattle.std.specs.Vec.{vec_len, vec_capacity};
    ghost use Rattle.dir_disk.specs.Children.{loans_of};
    ghost use Rattle.site_mem.specs.Ends.{WriteApart};
    ghost use Rattle.site_mem.specs.Rosters.{Roll};

    ghost Value = { Roll };

    ghost view = { λ r. record { seen = record { running = r.running.items; log = r.log.items; start_faults = r.start_faults }; given = r.given.items } };

    ghost invariant = { λ r. (vec_len r.log + vec_len r.running ≤ vec_capacity r.log) × WriteApart (loans_of r.running.items) };
}

impl<R: Roles + Drop> Roster<R> {
    /// No child was started yet.
    pub(crate) fn new(alloc: Global) -> Roster<R>
        ensures { result ≡ record { seen = record { running = []; log = []; start_faults = 0 }; given = [] } }
    {
        Roster {
            running: Vec::new(alloc),
            log: Vec::new(alloc),
            start_faults: 0,
            given: Vec::new(alloc),
        }
    }

    /// How many children run.
    pub(crate) fn running(&self) -> usize
        ensures { result ≡ length self.now.seen.running }
    {
        self.running.len()
    }

    /// What happened to the attempts, in order.
    pub(crate) fn log(&self) -> &[LogEntry]
        ensures { result.now ≡ self.now.seen.log }
    {
        &self.log
    }

    /// Starts a child that has this answer. All memory is taken before anything is done, that of its end too.
    pub(crate) fn start(
        &mut self,
        dir: &mut MemDir,
        alloc: Global,
        attempt: &Attempt,
        input: &Path,
        output: &Path,
        given: Given,
        answer: Vec<u8>,
    ) -> Result<(), StartFault>
        requires read { IsNoOutput (lent_of dir.old) input.now }
        requires free { IsFree (lent_of dir.old) output.now }
        requires can { CanStart (files (told_of dir.old)) input.now output.now }
        requires lent { lent_of dir.old ≡ loans_of self.old.seen.running }
        requires answer { answer.items ≡ R.gives given.words given.input }
        ensures directory { Starts output.now (told_of dir.old) (told_of dir.new) result }
        ensures seen { let child : Child = record { attempt = attempt.now; words = given.words; input = input.now; output = output.now; given = given.input } in
            Begins child self.old.seen self.new.seen result }
        ensures given { Hands given self.old.given self.new.given result }
        ensures fails { FailsIf false result }
        ensures refused { IsErrOf result StartFault.Failed → files (told_of dir.new) ≡ after_start output.now (files (told_of dir.old)) }
        ensures lent { lent_of dir.new ≡ loans_of self.new.seen.running }
        ensures faults { faults_of dir.new ≡ faults_of dir.old }
        ensures fail { fail_of dir.new ≡ fail_of dir.old }
    {
        let Ok(copies) = Copies::new(alloc, attempt, &given) else {
            return Err(StartFault::NoMemory);
        };
        if self.running.reserve(1).is_err() || self.given.reserve(1).is_err() {
            return Err(StartFault::NoMemory);
        }
        if self.log.reserve(self.running.len() + 2).is_err() {
            return Err(StartFault::NoMemory);
        }
        let Ok(loan) = dir.lend(alloc, input, output) else {
            return Err(StartFault::NoMemory);
        };
        note(&mut self.log, LogEntry::Started(copies.started));
        keep(&mut self.given, given);
        let child = Running {
            attempt: copies.attempt,
            noted: copies.noted,
            words: copies.words,
            given: copies.given,
            answer,
            remains: copies.remains,
            loan,
            roles: PhantomData,
        };
        add_child(&mut self.running, child);
        Ok(())
    }

    /// Refuses a start: from now on a stop may leave anything at its output.
    pub(crate) fn refuse(
        &mut self,
        dir: &mut MemDir,
        alloc: Global,
        attempt: &Attempt,
        output: &Path,
        given: Given,
    ) -> Result<(), StartFault>
        requires named { output.now ≢ [] }
        ensures directory { Starts output.now (told_of dir.old) (told_of dir.new) result }
        ensures seen { (child : Child) → child.attempt ≡ attempt.now → Begins child self.old.seen self.new.seen result }
        ensures given { Hands given self.old.given self.new.given result }
        ensures running { self.new.seen.running ≡ self.old.seen.running }
        ensures lent { lent_of dir.new ≡ lent_of dir.old }
        ensures faults { faults_of dir.new ≡ faults_of dir.old }
        ensures fail { fail_of dir.new ≡ fail_of dir.old }
        ensures fails { FailsIf true result }
        ensures refused { IsErrOf result StartFault.Failed → files (told_of dir.new) ≡ after_start output.now (files (told_of dir.old)) }
    {
        let Ok(noted) = attempt.copy(alloc) else {
            return Err(StartFault::NoMemory);
        };
        if self.given.reserve(1).is_err() || self.log.reserve(self.running.len() + 1).is_err() {
            return Err(StartFault::NoMemory);
        }
        if dir.spoil(alloc, output).is_err() {
            return Err(StartFault::NoMemory);
        }
        self.start_faults = self.start_faults.saturating_add(1);
        note(&mut self.log, LogEntry::StartFailed(noted));
        keep(&mut self.given, given);
        Err(StartFault::Failed)
    }

    /// Ends the child that the plan names next. Takes no memory.
    pub(crate) fn reap(&mut self, dir: &mut MemDir, plan: &Plan) -> Ended
        requires some { 1 ≤ length self.old.seen.running }
        requires lent { lent_of dir.old ≡ loans_of self.old.seen.running }
        ensures ended { EndsNext R.gives plan.now result.attempt result.status self.old.seen self.new.seen (told_of dir.old) (told_of dir.new) }
        ensures given { self.new.given ≡ self.old.given }
        ensures lent { lent_of dir.new ≡ loans_of self.new.seen.running }
        ensures faults { faults_of dir.new ≡ faults_of dir.old }
        ensures fail { fail_of dir.new ≡ fail_of dir.old }
    {
        let place = next_place(plan, &self.log, &self.running);
        let Running {
            attempt,
            noted,
            answer,
            remains,
            loan,
            ..
        } = take_at(&mut self.running, place);
        let status = plan.status_of(&self.log, &attempt, &answer);
        dir.end_loan(loan, Some(left_by(status, answer, remains)));
        note(&mut self.log, LogEntry::Ended(noted, status));
        Ended { attempt, status }
    }
}

/// The place of the child that ends next.
fn next_place<R: Roles + Drop>(plan: &Plan, log: &[LogEntry], running: &[Running<R>]) -> usize
    requires { 1 ≤ length running.now }
    ensures within { result < length running.now }
    ensures next { IsNext plan.now log.now running.now result }
{
    match plan.order() {
        Order::OldestFirst => oldest(plan, log, running),
        Order::NewestFirst => newest(plan, log, running),
    }
}

#[tactic(auto, using(crate::proofs::Choosing::held_up, crate::proofs::Choosing::oldest_free, crate::proofs::Choosing::oldest_held))]
/// The place of the oldest child that isn't held; of the oldest of all where each is.
fn oldest<R: Roles + Drop>(plan: &Plan, log: &[LogEntry], running: &[Running<R>]) -> usize
    requires some { 1 ≤ length running.now }
    requires order { plan.now.order ≡ Order.OldestFirst }
    ensures within { result < length running.now }
    ensures next { IsNext plan.now log.now running.now result }
{
    let mut place = 0;
    while place < running.len() {
        if !waits(plan, log, &running[place]) {
            return place;
        }
        place += 1;
    }
    0
}

#[tactic(auto, using(crate::proofs::Choosing::held_down, crate::proofs::Choosing::newest_free, crate::proofs::Choosing::newest_held))]
/// The place of the newest child that isn't held; of the newest of all where each is.
fn newest<R: Roles + Drop>(plan: &Plan, log: &[LogEntry], running: &[Running<R>]) -> usize
    requires some { 1 ≤ length running.now }
    requires order { plan.now.order ≡ Order.NewestFirst }
    ensures within { result < length running.now }
    ensures next { IsNext plan.now log.now running.now result }
{
    let mut place = running.len();
    while place > 0 {
        place -= 1;
        if !waits(plan, log, &running[place]) {
            return place;
        }
    }
    running.len() - 1
}

/// Whether the child waits for an attempt that was not started.
fn waits<R: Roles + Drop>(plan: &Plan, log: &[LogEntry], child: &Running<R>) -> bool
    ensures { result ≡ is_held plan.now.holds log.now child.now.attempt }
{
    plan.holds_back(log, &child.attempt)
}

/// Adds a child to a list that has room for it.
fn add_child<R: Roles + Drop>(running: &mut Vec<Running<R>>, child: Running<R>)
    requires { vec_len running.old < vec_capacity running.old }
    ensures items { running.new.items ≡ running.old.items ++ child ∷ [] }
    ensures len { vec_len running.new ≡ vec_len running.old + 1 }
{
    let _ = running.push(child);
}

/// Keeps what a start was given in a list that has room for it.
fn keep(all: &mut Vec<Given>, given: Given)
    requires { vec_len all.old < vec_capacity all.old }
    ensures { all.new.items ≡ all.old.items ++ given ∷ [] }
{
    let _ = all.push(given);
}

#[tactic(auto, using(crate::proofs::Leaving::taken_at))]
/// Takes the child at this place out of the list.
fn take_at<R: Roles + Drop>(running: &mut Vec<Running<R>>, place: usize) -> Running<R>
    requires { place < length running.old.items }
    ensures was { running.old.items ≡ take place running.old.items ++ result ∷ drop (place + 1) running.old.items }
    ensures items { running.new.items ≡ take place running.old.items ++ drop (place + 1) running.old.items }
    ensures len { vec_len running.old ≡ vec_len running.new + 1 }
    ensures capacity { vec_capacity running.new ≡ vec_capacity running.old }
{
    running.remove(place)
}

/// What a child leaves that ends with this status.
fn left_by(status: i32, answer: Vec<u8>, remains: Vec<u8>) -> Vec<u8>
    ensures { result.items ≡ (if is_zero status then answer.items else remains.items) }
{
    if is_zero(status) { answer } else { remains }
}

/// What the start of a child takes besides its answer: its attempt for the site, for the child and for the log, its words,
/// the bytes of its input, and what it leaves where it hasn't done its work.
#[derive(Drop)]
struct Copies {
    attempt: Attempt,
    noted: Attempt,
    started: Attempt,
    words: Words,
    given: Vec<u8>,
    remains: Vec<u8>,
}

impl Copies {
    fn new(alloc: Global, attempt: &Attempt, given: &Given) -> Result<Copies, NoMemory>
        ensures attempts { IfOk result (λ copies. (copies.attempt ≡ attempt.now) × (copies.noted ≡ attempt.now) × (copies.started ≡ attempt.now)) }
        ensures given { IfOk result (λ copies. (copies.words ≡ given.now.words) × (copies.given.items ≡ given.now.input)) }
        ensures remains { IfOk result (λ copies. copies.remains.items ≡ garbage) }
    {
        Ok(Copies {
            attempt: attempt.copy(alloc)?,
            noted: attempt.copy(alloc)?,
            started: attempt.copy(alloc)?,
            words: given.words.copy(alloc)?,
            given: Vec::from_slice(alloc, &given.input)?,
            remains: Vec::from_slice(alloc, GARBAGE)?,
        })
    }
}

/// Notes an entry in a log that has room for it.
fn note(log: &mut Vec<LogEntry>, entry: LogEntry)
    requires { vec_len log.old < vec_capacity log.old }
    ensures items { log.new.items ≡ log.old.items ++ entry ∷ [] }
    ensures len { vec_len log.new ≡ vec_len log.old + 1 }
    ensures capacity { vec_capacity log.old ≤ vec_capacity log.new }
{
    let _ = log.push(entry);
}

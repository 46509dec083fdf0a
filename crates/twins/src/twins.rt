ghost use Rattle.std.specs.Prelude.{◌≡◌, ℕ, ℤ, ◌+◌, ◌<◌, ◌≤◌, ◌↔◌, true, false, min, IsTrue, IfOk, MatchOption};
ghost use Rattle.task_core.specs.Board.{AllDone, IsBusy, IsIdle, IsLeastDead, NoneDead, Runs, Start, Refuse, End, is_dead, is_done, is_success, after, becomes_done, fresh, running_of, tried_at, with_tried};
ghost use Rattle.twins.specs.Rules.{IsLone, MayStartTwin};
ghost use Rattle.twins.specs.Tasks.{MayPut, lacks, twin_tried};

use crate::number_set::NumberSet;
use crate::task::{Pair, Twin};
use peg_text::NoMemory;
use std::alloc::Global;
use std::marker::Model;
use task_core::Attempting;

/// The tasks of one phase and their attempts, of which two of a task may run at once where a slot would stay free else.
///
/// The attempt that may be started and the least dead task are found at once. Each other call takes time logarithmic in
/// the number of tasks, over all calls, and none but `new` takes memory.
#[derive(Drop)]
pub struct Twins {
    tasks: Vec<Twin>,
    // The tasks of which none runs and that have an attempt left, and those of which one runs.
    idle: NumberSet,
    lone: NumberSet,
    slots: u32,
    running: u32,
    unfinished: u32,
    least_dead: Option<u32>,
}

impl Model for Twins {
    ghost use Rattle.task_core.specs.Board.{Board};
    ghost use Rattle.twins.specs.Tasks.{AreTwins, tasks_of};

    ghost Value = { Board };

    ghost view = { λ m. record { slots = m.slots; tasks = tasks_of m.tasks.items } };

    ghost invariant = { λ m. AreTwins m.tasks.items m.idle m.lone m.running m.unfinished m.least_dead };
}

impl Twins {
    /// So many tasks, each ready for its first attempt, of which at most `slots` attempts run at once.
    pub fn new(alloc: Global, tasks: u32, slots: u32) -> Result<Twins, NoMemory>
        ensures { IfOk result (λ m. m ≡ fresh tasks slots) }
    {
        let idle = NumberSet::full(alloc, tasks)?;
        let lone = NumberSet::empty(alloc, tasks)?;
        let untried = vec![in alloc; Twin::Open(1, Pair::Neither); tasks as usize]?;
        Ok(Twins {
            tasks: untried,
            idle,
            lone,
            slots,
            running: 0,
            unfinished: tasks,
            least_dead: None,
        })
    }

    // The least idle task, and the number of its next attempt.
    fn least_idle(&self) -> Option<(u32, u8)>
        ensures { MatchOption result ((t a : ℕ) → IsIdle self.now.tasks t a → ⊥)
            (λ r. IsIdle self.now.tasks r.0 r.1 × ((u c : ℕ) → u < r.0 → IsIdle self.now.tasks u c → ⊥)) }
    {
        let task = self.idle.least()?;
        let number = self.tasks[task as usize].idle()?;
        Some((task, number))
    }

    // The least task of which one attempt runs and that has one left, and the number of its next attempt.
    fn least_lone(&self) -> Option<(u32, u8)>
        ensures { MatchOption result ((t a : ℕ) → IsLone self.now.tasks t a → ⊥)
            (λ r. IsLone self.now.tasks r.0 r.1 × ((u c : ℕ) → u < r.0 → IsLone self.now.tasks u c → ⊥)) }
    {
        let task = self.lone.least()?;
        let number = self.tasks[task as usize].lone()?;
        Some((task, number))
    }

    /// The least dead task, and `None` exactly where no task is dead.
    pub fn doomed(&self) -> Option<u32>
        ensures { MatchOption result (NoneDead self.now.tasks) (λ t. IsLeastDead self.now.tasks t) }
    {
        self.least_dead
    }

    /// The attempt that may be started now, and `None` exactly where none may: the next one of the least task of which none
    /// runs, and where no such task has an attempt left, the next one of the least task of which one runs.
    pub fn ready(&self) -> Option<(u32, u8)>
        ensures { MatchOption result (IsBusy MayStartTwin self.now) (λ r. MayStartTwin self.now r.0 r.1) }
    {
        if self.running >= self.slots || self.doomed().is_some() {
            return None;
        }
        let idle = self.least_idle();
        let lone = self.least_lone();
        idle.or(lone)
    }

    // Writes what a task has tried, where then so many attempts run.
    fn put(&mut self, task: u32, twin: Twin, running: u32)
        requires { MayPut self.old.tasks task (twin_tried twin) running }
        ensures { self.new ≡ with_tried self.old task (twin_tried twin) }
    {
        let was = self.tasks[task as usize];
        self.unfinished = unfinished_after(self.unfinished, was, twin);
        self.least_dead = least_dead_after(self.least_dead, task, twin);
        self.idle.set(task, twin.is_idle());
        self.lone.set(task, twin.is_lone());
        self.tasks[task as usize] = twin;
        self.running = running;
    }

    /// Starts the attempt that `ready` names.
    pub fn start(&mut self, task: u32)
        requires { (a : ℕ) × MayStartTwin self.old task a }
        ensures { (a : ℕ) → MayStartTwin self.old task a → self.new ≡ after self.old (Start task a) }
    {
        let twin = self.tasks[task as usize];
        let running = self.running + 1;
        self.put(task, twin.started(), running);
    }

    /// The attempt that `ready` names could not be started, which counts as its failure.
    pub fn start_failed(&mut self, task: u32)
        requires { (a : ℕ) × MayStartTwin self.old task a }
        ensures { (a : ℕ) → MayStartTwin self.old task a → self.new ≡ after self.old (Refuse task a) }
    {
        let twin = self.tasks[task as usize];
        let running = self.running;
        self.put(task, twin.refused(), running);
    }

    /// Ends this attempt, which runs. True exactly where its task becomes done by it.
    pub fn end(&mut self, task: u32, number: u8, ok: bool) -> bool
        requires { Runs self.old.tasks task number }
        ensures ended { (status : ℤ) → ok ≡ is_success status → self.new ≡ after self.old (End task number status) }
        ensures first { result ≡ becomes_done (tried_at self.old.tasks task) ok }
    {
        let twin = self.tasks[task as usize];
        let running = self.running - 1;
        self.put(task, twin.ended(number, ok), running);
        ok && !twin.is_done()
    }

    /// Whether every task is done.
    pub fn all_done(&self) -> bool
        ensures { IsTrue result ↔ AllDone self.now.tasks }
    {
        self.unfinished == 0
    }

    /// How many attempts run.
    pub fn running(&self) -> u32
        ensures { result ≡ running_of self.now.tasks }
    {
        self.running
    }
}

// How many tasks aren't done after one was written.
fn unfinished_after(unfinished: u32, was: Twin, twin: Twin) -> u32
    requires some { lacks (twin_tried was) ≤ unfinished }
    requires done { is_done (twin_tried was) ≡ true → is_done (twin_tried twin) ≡ true }
    ensures { result + lacks (twin_tried was) ≡ unfinished + lacks (twin_tried twin) }
{
    if twin.is_done() && !was.is_done() {
        unfinished - 1
    } else {
        unfinished
    }
}

// The least dead task after one was written, which wasn't dead.
fn least_dead_after(least: Option<u32>, task: u32, twin: Twin) -> Option<u32>
    ensures alive { is_dead (twin_tried twin) ≡ false → result ≡ least }
    ensures dead { is_dead (twin_tried twin) ≡ true
        → MatchOption result ⊥ (λ t. MatchOption least (t ≡ task) (λ u. t ≡ min u task)) }
{
    if !twin.is_dead() {
        return least;
    }
    match least {
        Some(other) => Some(other.min(task)),
        None => Some(task),
    }
}

/// Two attempts of a task at once.
impl Attempting for Twins {
    ghost use Rattle.twins.specs.Rules.{rule_twin};

    ghost board = { λ m. m };

    ghost may = { MayStartTwin };

    ghost rule = { rule_twin };

    fn ready(&self) -> Option<(u32, u8)> {
        Twins::ready(self)
    }

    fn start(&mut self, task: u32) {
        Twins::start(self, task)
    }

    fn start_failed(&mut self, task: u32) {
        Twins::start_failed(self, task)
    }

    fn end(&mut self, task: u32, number: u8, ok: bool) -> bool {
        Twins::end(self, task, number, ok)
    }

    fn doomed(&self) -> Option<u32> {
        Twins::doomed(self)
    }

    fn running(&self) -> u32 {
        Twins::running(self)
    }
}

#[cfg(test)]
mod tests;

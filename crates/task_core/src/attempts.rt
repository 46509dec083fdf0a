ghost use Rattle.std.specs.Prelude.{◌≡◌, ℕ, ℤ, ◌<◌, ◌≤◌, ◌↔◌, true, false, IsTrue, IfOk, IfSome, MatchOption, if◌then◌else◌, nat_lt, length};
ghost use Rattle.std.specs.BinaryHeap.{heap_items, heap_len, heap_capacity, IsHeap};
ghost use Rattle.task_core.specs.Board.{AllDone, IsBusy, IsIdle, IsLeastDead, MayStart, NoneDead, Runs, Start, Refuse, End, is_done, is_success, after, fresh, running_of, tried_at};
ghost use Rattle.task_core.specs.Sound.{least_first, entries_of};

use crate::task::Task;
use peg_text::NoMemory;
use std::alloc::Global;
use std::cmp::Reverse;
use std::collections::BinaryHeap;
use std::marker::Model;

/// An attempt of this number is the last one of its task.
const LAST: u8 = 4;

/// The tasks of one phase and their attempts, of which one of a task runs at once: how many slots
/// there are, and what each task has tried.
///
/// The least ready task is found at once, and a start or a failure takes time logarithmic in the
/// number of ready tasks.
#[derive(Drop)]
pub struct Attempts {
    tasks: Vec<Task>,
    queue: BinaryHeap<Reverse<u32>>,
    slots: u32,
    running: u32,
    unfinished: u32,
    least_dead: Option<u32>,
}

impl Model for Attempts {
    ghost use Rattle.std.specs.BinaryHeap.{heap_items, heap_capacity};
    ghost use Rattle.std.specs.Prelude.{map};
    ghost use Rattle.task_core.specs.Board.{Board};
    ghost use Rattle.task_core.specs.Sound.{IsSound, tried_of};

    ghost Value = { Board };

    ghost view = { λ m. record { slots = m.slots; tasks = map tried_of m.tasks.items } };

    ghost invariant = { λ m. IsSound m.tasks.items (heap_items m.queue) (heap_capacity m.queue)
        m.running m.unfinished m.least_dead };
}

impl Attempts {
    /// So many tasks, each ready for its first attempt, of which at most `slots` run at once. With
    /// no slot no attempt ever starts.
    pub fn new(alloc: Global, tasks: u32, slots: u32) -> Result<Attempts, NoMemory>
        ensures { IfOk result (λ m. m ≡ fresh tasks slots) }
    {
        let queue = queue_of_all(alloc, tasks)?;
        let tasks_ready = vec![in alloc; Task::Ready(1); tasks as usize]?;
        Ok(Attempts {
            tasks: tasks_ready,
            queue,
            slots,
            running: 0,
            unfinished: tasks,
            least_dead: None,
        })
    }

    /// The attempt that may be started now: the least ready task and the number, from 1 to 4, of its
    /// next attempt. `None` where no task is ready, no slot is free or a task is dead.
    pub fn ready(&self) -> Option<(u32, u8)>
        ensures exact { MatchOption result (IsBusy MayStart self.now) (λ r. MayStart self.now r.0 r.1) }
        ensures numbered { IfSome result (λ r. (1 ≤ r.1) × (r.1 ≤ 4)) }
    {
        if self.running >= self.slots || self.least_dead.is_some() {
            return None;
        }
        let Reverse(task) = *self.queue.peek()?;
        match self.tasks[task as usize] {
            Task::Ready(number) => Some((task, number)),
            _ => unreachable!(),
        }
    }

    /// Starts the attempt that `ready` names.
    pub fn start(&mut self, task: u32)
        requires { (a : ℕ) × MayStart self.old task a }
        ensures { (a : ℕ) → MayStart self.old task a →
            self.new ≡ after self.old (Start task a) }
    {
        let number = self.next_of(task);
        let _ = self.queue.pop();
        self.tasks[task as usize] = Task::Running(number);
        self.running += 1;
    }

    /// The attempt that `ready` names could not be started, which counts as its failure.
    pub fn start_failed(&mut self, task: u32)
        requires { (a : ℕ) × MayStart self.old task a }
        ensures { (a : ℕ) → MayStart self.old task a →
            self.new ≡ after self.old (Refuse task a) }
    {
        self.start(task);
        self.end(task, false);
    }

    /// Ends the attempt of this task that runs. `ok` makes the task done; else it is ready for its
    /// next attempt, and dead after its fourth.
    pub fn end(&mut self, task: u32, ok: bool)
        requires { (a : ℕ) × Runs self.old.tasks task a }
        ensures ended { (a : ℕ) (status : ℤ) → Runs self.old.tasks task a →
            ok ≡ is_success status → self.new ≡ after self.old (End task a status) }
        ensures open { is_done (tried_at self.old.tasks task) ≡ false }
    {
        let number = self.running_of(task);
        if ok {
            self.finish(task, number);
        } else if number < LAST {
            self.retry(task, number);
        } else {
            self.give_up(task, number);
        }
    }

    // The next attempt of a task that is ready.
    fn next_of(&self, task: u32) -> u8
        requires { (a : ℕ) × IsIdle self.now.tasks task a }
        ensures { IsIdle self.now.tasks task result }
    {
        match self.tasks[task as usize] {
            Task::Ready(number) => number,
            _ => unreachable!(),
        }
    }

    // The attempt of a task that runs.
    fn running_of(&self, task: u32) -> u8
        requires { (a : ℕ) × Runs self.now.tasks task a }
        ensures runs { Runs self.now.tasks task result }
        ensures last { result ≤ 4 }
        ensures open { is_done (tried_at self.now.tasks task) ≡ false }
    {
        match self.tasks[task as usize] {
            Task::Running(number) => number,
            _ => unreachable!(),
        }
    }

    fn finish(&mut self, task: u32, number: u8)
        requires { Runs self.old.tasks task number }
        ensures { (a : ℕ) (status : ℤ) → Runs self.old.tasks task a →
            is_success status ≡ true → self.new ≡ after self.old (End task a status) }
    {
        self.running -= 1;
        self.unfinished -= 1;
        self.tasks[task as usize] = Task::Done;
    }

    fn retry(&mut self, task: u32, number: u8)
        requires runs { Runs self.old.tasks task number }
        requires fits { number < 4 }
        ensures { (a : ℕ) (status : ℤ) → Runs self.old.tasks task a →
            is_success status ≡ false → self.new ≡ after self.old (End task a status) }
    {
        self.queue.push(Reverse(task)).unwrap();
        self.running -= 1;
        self.tasks[task as usize] = Task::Ready(number + 1);
    }

    fn give_up(&mut self, task: u32, number: u8)
        requires runs { Runs self.old.tasks task number }
        requires last { number ≡ 4 }
        ensures { (a : ℕ) (status : ℤ) → Runs self.old.tasks task a →
            is_success status ≡ false → self.new ≡ after self.old (End task a status) }
    {
        self.running -= 1;
        self.least_dead = Some(self.least_dead.map_or(task, |least| least.min(task)));
        self.tasks[task as usize] = Task::Dead;
    }

    /// The least dead task, and `None` exactly where no task is dead.
    pub fn doomed(&self) -> Option<u32>
        ensures { MatchOption result (NoneDead self.now.tasks) (λ t. IsLeastDead self.now.tasks t) }
    {
        self.least_dead
    }

    /// Whether every task is done.
    pub fn all_done(&self) -> bool
        ensures { IsTrue result ↔ AllDone self.now.tasks }
    {
        self.unfinished == 0
    }

    /// How many attempts run.
    pub fn running(&self) -> u32
        ensures { result ≡ running_of self.now.tasks }
    {
        self.running
    }
}

// The numbers of all tasks, the least first.
fn queue_of_all(alloc: Global, tasks: u32) -> Result<BinaryHeap<Reverse<u32>>, NoMemory>
    ensures room { IfOk result (λ q. tasks ≤ heap_capacity q) }
    ensures len { IfOk result (λ q. length (heap_items q) ≡ tasks) }
    ensures ordered { IfOk result (λ q. IsHeap least_first (heap_items q)) }
    ensures held { IfOk result (λ q. (t : ℕ) →
        entries_of t (heap_items q) ≡ (if nat_lt t tasks then 1 else 0)) }
{
    let mut queue = BinaryHeap::with_capacity(alloc, tasks as usize)?;
    for task in 0..tasks {
        queue.push(Reverse(task))?;
    }
    Ok(queue)
}

#[cfg(test)]
mod tests;

ghost use Rattle.std.specs.Prelude.{◌≡◌, ℕ, ℤ, MatchOption};
ghost use Rattle.task_core.specs.Board.{Rule, Board, IsBusy, IsLeastDead, NoneDead, IsRule, Runs, Start, Refuse, End, is_success, after, becomes_done, running_of, tried_at};

use crate::Attempts;

/// The tasks of a phase and their attempts, by a rule that says which attempt may be started next.
pub trait Attempting {
    /// The tasks, with what each has tried.
    ghost board: { Self → Board };

    /// Which attempt of which task may be started.
    ghost may: { Rule };

    /// The attempt that may be started now. `None` exactly where none may.
    fn ready(&self) -> Option<(u32, u8)>
        ensures { MatchOption result (IsBusy may (board self.now)) (λ r. may (board self.now) r.0 r.1) };

    /// Starts the attempt that `ready` names.
    fn start(&mut self, task: u32)
        requires { (a : ℕ) × may (board self.old) task a }
        ensures { (a : ℕ) → may (board self.old) task a → board self.new ≡ after (board self.old) (Start task a) };

    /// The attempt that `ready` names could not be started, which counts as its failure.
    fn start_failed(&mut self, task: u32)
        requires { (a : ℕ) × may (board self.old) task a }
        ensures { (a : ℕ) → may (board self.old) task a → board self.new ≡ after (board self.old) (Refuse task a) };

    /// Ends this attempt, which runs. True exactly where its task becomes done by it.
    fn end(&mut self, task: u32, number: u8, ok: bool) -> bool
        requires { Runs (board self.old).tasks task number }
        ensures ended { (status : ℤ) → ok ≡ is_success status → board self.new ≡ after (board self.old) (End task number status) }
        ensures first { result ≡ becomes_done (tried_at (board self.old).tasks task) ok };

    /// The least dead task, and `None` exactly where no task is dead.
    fn doomed(&self) -> Option<u32>
        ensures { MatchOption result (NoneDead (board self.now).tasks) (λ t. IsLeastDead (board self.now).tasks t) };

    /// How many attempts run.
    fn running(&self) -> u32
        ensures { result ≡ running_of (board self.now).tasks };

    /// An attempt that may be started is the next of an open task and one of four, and then no task is dead. Where nothing
    /// runs, nothing may be started and no task is dead, each task is done.
    ghost rule: { IsRule may };
}

/// One attempt of a task at once.
impl Attempting for Attempts {
    ghost use Rattle.task_core.specs.Board.{MayStart};
    ghost use Rattle.task_core.specs.Rules.{rule_alone};

    ghost board = { λ m. m };

    ghost may = { MayStart };

    ghost rule = { rule_alone };

    fn ready(&self) -> Option<(u32, u8)> {
        Attempts::ready(self)
    }

    fn start(&mut self, task: u32) {
        Attempts::start(self, task)
    }

    fn start_failed(&mut self, task: u32) {
        Attempts::start_failed(self, task)
    }

    fn end(&mut self, task: u32, _number: u8, ok: bool) -> bool {
        Attempts::end(self, task, ok);
        ok
    }

    fn doomed(&self) -> Option<u32> {
        Attempts::doomed(self)
    }

    fn running(&self) -> u32 {
        Attempts::running(self)
    }
}

ghost use Rattle.std.specs.Prelude.{◌≡◌, ◌≤◌, ℕ, List, IsSome, length};
ghost use Rattle.dir_disk.specs.State.{bytes_of};
ghost use Rattle.dir_disk.specs.Moments.{clock, files};
ghost use Rattle.dir_disk.specs.Lent.{IsFree, IsNoOutput};
ghost use Rattle.dir_disk.specs.Children.{Begins, CanStart, Child, Ends, Given, Hands, Leaves, Seen, Starts, loans_of};

use crate::dir::Dir;
use crate::streams::Console;
use peg_base::{Attempt, Path, Words};
use std::alloc::Global;

/// Why a child was not started.
#[derive(Clone, Copy, Debug, PartialEq, Eq)]
pub enum StartFault {
    /// The outside failed; the site counted it and noted it in its log. The output may have anything.
    Failed,
    /// There was no memory, and nothing was changed.
    NoMemory,
}

/// The end of a child.
#[derive(Debug, PartialEq, Eq, Drop)]
pub struct Ended {
    /// The attempt that the child was.
    pub attempt: Attempt,
    /// 0 where the child has done its work, any other number where it failed.
    pub status: i32,
}

/// What happened to the attempts of tasks, one entry for each event.
#[derive(Debug, PartialEq, Eq, Drop)]
pub enum LogEntry {
    /// A child was started.
    Started(Attempt),
    /// A child could not be started.
    StartFailed(Attempt),
    /// A child ended with this status.
    Ended(Attempt, i32),
}

/// A directory and a console at which children run.
///
/// A child is a program that reads one file of the directory and writes another one. While it runs both paths are lent to
/// it. Children end in any order. To start a child or to wait for one is no call of the directory, but a step of it.
pub trait Site: Dir + Console {
    /// The children that run, the log, and how many starts failed.
    ghost seen: { Self → Seen };

    /// What each start was given, for each entry of the log that is a start, in order; told where the state is.
    ghost given: { Self → List Given };

    /// What a child of these words writes for an input. No call changes it.
    ghost gives: { List (List ℕ) → List ℕ → List ℕ };

    /// Starts a child of these words, the first of which names its program.
    fn start(
        &mut self,
        alloc: Global,
        attempt: &Attempt,
        words: &Words,
        input: &Path,
        output: &Path,
    ) -> Result<(), StartFault>
        requires words { 1 ≤ length words.now }
        requires read { IsNoOutput (Self.lent self.old) input.now }
        requires free { IsFree (Self.lent self.old) output.now }
        requires can { Self.tells → CanStart (files (Self.told self.old)) input.now output.now }
        ensures directory { Self.tells → Starts output.now (Self.told self.old) (Self.told self.new) result }
        ensures seen { let child : Child = record { attempt = attempt.now; words = words.now; input = input.now; output = output.now; given = bytes_of (files (Self.told self.old) input.now).now } in
            Begins child (seen self.old) (seen self.new) result }
        ensures given { let one : Given = record { words = words.now; input = bytes_of (files (Self.told self.old) input.now).now; moment = clock (Self.told self.old) } in
            Self.tells → Hands one (given self.old) (given self.new) result }
        ensures faults { Self.faults self.new ≡ Self.faults self.old }
        ensures said { Self.said self.new ≡ Self.said self.old }
        ensures says { Self.says self.new ≡ Self.says self.old }
        ensures say_faults { Self.say_faults self.new ≡ Self.say_faults self.old };

    /// Waits until a child ends, and ends what is lent to it. It takes no memory.
    fn reap(&mut self) -> Ended
        requires { 1 ≤ length (seen self.old).running }
        ensures ended { (child : Child) × Ends result.attempt result.status child (seen self.old) (seen self.new)
            × (Self.tells → Leaves gives child result.status (Self.told self.old) (Self.told self.new)) }
        ensures given { Self.tells → given self.new ≡ given self.old }
        ensures faults { Self.faults self.new ≡ Self.faults self.old }
        ensures said { Self.said self.new ≡ Self.said self.old }
        ensures says { Self.says self.new ≡ Self.says self.old }
        ensures say_faults { Self.say_faults self.new ≡ Self.say_faults self.old };

    /// The calls of the directory leave the rest of the site.
    ghost beside_dir: { (s t : Self) → Self.Dir.beside s ≡ Self.Dir.beside t → (seen s ≡ seen t) × (Self.tells → given s ≡ given t) × (Self.said s ≡ Self.said t) × (Self.says s ≡ Self.says t) × (Self.say_faults s ≡ Self.say_faults t) };

    /// The calls of the console leave the rest of the site.
    ghost beside_console: { (s t : Self) → Self.Console.beside s ≡ Self.Console.beside t → (seen s ≡ seen t) × (Self.tells → (given s ≡ given t) × (Self.told s ≡ Self.told t)) × (Self.lent s ≡ Self.lent t) × (Self.faults s ≡ Self.faults t) };

    /// A path is lent only to a child that runs.
    ghost lent_to_children: { (s : Self) → Self.lent s ≡ loans_of (seen s).running };

    /// A site that tells its state tells its says too.
    ghost tells_says: { (s : Self) → Self.tells → IsSome (Self.says s) × IsSome (Self.said s) };

    /// A say has its moment on the clock of the directory's calls.
    ghost say_moment: { (s : Self) → Self.tells → Self.moment s ≡ clock (Self.told s) };
}

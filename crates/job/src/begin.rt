ghost use Rattle.std.specs.Prelude.{◌≡◌, OnErr, OnOk};
ghost use Rattle.dir_disk.specs.Moments.{files};
ghost use Rattle.job.specs.Work.{input_at, output_at};
ghost use Rattle.job.specs.Children.{AreChildrenOf};
ghost use Rattle.job.specs.Standing.{HasWork};
ghost use Rattle.job.specs.Going.{Turn, Working};
ghost use Rattle.job.specs.Turned.{Moves};

use crate::delivery::Delivery;
use crate::tasks::Tasks;
use dir_disk::{Site, StartFault};
use peg_base::{Attempt, Path};
use peg_text::NoMemory;
use std::alloc::Global;
use task_core::Attempting;

/// Starts the child of an attempt, and takes down that it runs or was refused.
pub(crate) fn start_child<S: Site, A: Attempting, V: Delivery>(
    alloc: Global,
    site: &mut S,
    tasks: &Tasks<V>,
    attempts: &mut A,
    attempt: &Attempt,
    input: &Path,
    output: &Path,
) -> Result<(), NoMemory>
    requires job { attempt.now.task.job ≡ tasks.now.folder }
    requires phase { attempt.now.task.phase ≡ tasks.now.phase }
    requires input { input.now ≡ input_at tasks.now attempt.now.task.task }
    requires output { output.now ≡ output_at tasks.now attempt.now.task.task attempt.now.number }
    requires may { A.may (A.board attempts.old) attempt.now.task.task attempt.now.number }
    requires fits { AreChildrenOf tasks.now (A.board attempts.old) (S.seen site.old).running }
    requires stands { S.tells
        → HasWork tasks.now S.gives (files (S.told site.old)) (A.board attempts.old) (S.seen site.old).running }
    ensures turn { Turn A.may Working (Unit {0}) S.tells tasks.now
        (A.board attempts.old) (A.board attempts.new) (S.seen site.old) (S.seen site.new)
        (S.given site.old) (S.given site.new) (S.told site.old) (S.told site.new) }
    ensures stands { S.tells
        → HasWork tasks.now S.gives (files (S.told site.new)) (A.board attempts.new) (S.seen site.new).running }
    ensures moves { OnOk result (Moves 1
        (A.board attempts.old) (A.board attempts.new) (S.seen site.old) (S.seen site.new)) }
    ensures stays { OnErr result (attempts.new ≡ attempts.old) }
    ensures faults { S.faults site.new ≡ S.faults site.old }
    ensures said { S.said site.new ≡ S.said site.old }
    ensures says { S.says site.new ≡ S.says site.old }
    ensures say_faults { S.say_faults site.new ≡ S.say_faults site.old }
{
    match site.start(alloc, attempt, tasks.words(), input, output) {
        Ok(()) => {
            attempts.start(attempt.task.task);
            Ok(())
        }
        Err(StartFault::Failed) => {
            attempts.start_failed(attempt.task.task);
            Ok(())
        }
        Err(StartFault::NoMemory) => Err(NoMemory),
    }
}

/// Starts an attempt of a task.
pub(crate) fn start_one<S: Site, A: Attempting, V: Delivery>(
    alloc: Global,
    site: &mut S,
    tasks: &Tasks<V>,
    attempts: &mut A,
    task: u32,
    number: u8,
) -> Result<(), NoMemory>
    requires may { A.may (A.board attempts.old) task number }
    requires fits { AreChildrenOf tasks.now (A.board attempts.old) (S.seen site.old).running }
    requires stands { S.tells
        → HasWork tasks.now S.gives (files (S.told site.old)) (A.board attempts.old) (S.seen site.old).running }
    ensures turn { Turn A.may Working (Unit {0}) S.tells tasks.now
        (A.board attempts.old) (A.board attempts.new) (S.seen site.old) (S.seen site.new)
        (S.given site.old) (S.given site.new) (S.told site.old) (S.told site.new) }
    ensures stands { S.tells
        → HasWork tasks.now S.gives (files (S.told site.new)) (A.board attempts.new) (S.seen site.new).running }
    ensures moves { OnOk result (Moves 1
        (A.board attempts.old) (A.board attempts.new) (S.seen site.old) (S.seen site.new)) }
    ensures stays { OnErr result (attempts.new ≡ attempts.old) }
    ensures faults { S.faults site.new ≡ S.faults site.old }
    ensures said { S.said site.new ≡ S.said site.old }
    ensures says { S.says site.new ≡ S.says site.old }
    ensures say_faults { S.say_faults site.new ≡ S.say_faults site.old }
{
    let attempt = tasks.attempt(alloc, task, number)?;
    let input = tasks.input(alloc, task)?;
    let output = tasks.output(alloc, &attempt)?;
    start_child(alloc, site, tasks, attempts, &attempt, &input, &output)
}

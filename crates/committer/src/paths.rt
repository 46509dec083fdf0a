ghost use Rattle.std.specs.Prelude.{◌≡◌, ◌+◌, ◌<◌, ◌≤◌, ◌++◌, length, codes, IfOk, OnOk};
ghost use Rattle.peg_base.specs.NameText.{IsName};
ghost use Rattle.digit_names.specs.Digits.{digits};
ghost use Rattle.committer.specs.Paths.{success_name, temporary_name, part_name, task_front, task_name, attempt_front, attempt_name, input_front, input_name, success_of, part_of, temporary_of, task_of, task_part_of, task_input_of, shuffle_of, output_name, task_output_of, attempt_of, output_of};

use digit_names::{numbered, push_digits};
use peg_base::{Attempt, Name, Path, Phase};
use peg_text::NoMemory;
use std::alloc::Global;

fn new_name(alloc: Global, text: &[u8]) -> Result<Name, NoMemory>
    requires { IsName text.now }
    ensures { IfOk result (λ name. name ≡ text.now) }
{
    let name = Name::new(alloc, text)?;
    Ok(name.unwrap())
}

#[tactic(auto, unfolding(crate::specs::Paths::success_name))]
fn success_name(alloc: Global) -> Result<Name, NoMemory>
    ensures { IfOk result (λ name. name ≡ success_name) }
{
    new_name(alloc, b"_SUCCESS")
}

#[tactic(auto, unfolding(crate::specs::Paths::part_name))]
fn part_name(alloc: Global, part: u32) -> Result<Name, NoMemory>
    ensures { IfOk result (λ name. name ≡ part_name part) }
{
    numbered(alloc, b"part-", u64::from(part), 5)
}

#[tactic(auto, unfolding(crate::specs::Paths::temporary_name))]
fn temporary_name(alloc: Global) -> Result<Name, NoMemory>
    ensures { IfOk result (λ name. name ≡ temporary_name) }
{
    new_name(alloc, b"_temporary")
}

fn task_name(alloc: Global, phase: Phase, task: u32) -> Result<Name, NoMemory>
    ensures { IfOk result (λ name. name ≡ task_name phase task) }
{
    numbered(alloc, task_front(phase), u64::from(task), 6)
}

fn task_front(phase: Phase) -> &'static [u8]
    ensures { result.now ≡ task_front phase }
{
    match phase {
        Phase::Map => b"task-m-",
        Phase::Combine => b"task-c-",
        Phase::Reduce => b"task-r-",
    }
}

fn attempt_name(alloc: Global, attempt: &Attempt) -> Result<Name, NoMemory>
    ensures { IfOk result
        (λ name. name ≡ attempt_name attempt.now.task.phase attempt.now.task.task attempt.now.number) }
{
    let mut text = Vec::from_slice(alloc, attempt_front(attempt.task.phase))?;
    push_digits(alloc, &mut text, u64::from(attempt.task.task), 6)?;
    text.push(b'-')?;
    numbered(alloc, &text, u64::from(attempt.number), 1)
}

fn attempt_front(phase: Phase) -> &'static [u8]
    ensures { result.now ≡ attempt_front phase }
{
    match phase {
        Phase::Map => b"attempt-m-",
        Phase::Combine => b"attempt-c-",
        Phase::Reduce => b"attempt-r-",
    }
}

fn input_name(alloc: Global, phase: Phase, task: u32) -> Result<Name, NoMemory>
    ensures { IfOk result (λ name. name ≡ input_name phase task) }
{
    let mut text = Vec::from_slice(alloc, input_front(phase))?;
    push_digits(alloc, &mut text, u64::from(task), 6)?;
    text.extend_from_slice(b".in")?;
    new_name(alloc, &text)
}

fn input_front(phase: Phase) -> &'static [u8]
    ensures { result.now ≡ input_front phase }
{
    match phase {
        Phase::Map => b"m-",
        Phase::Combine => b"c-",
        Phase::Reduce => b"r-",
    }
}

fn output_name(alloc: Global, phase: Phase, task: u32) -> Result<Name, NoMemory>
    ensures { IfOk result (λ name. name ≡ output_name phase task) }
{
    match phase {
        Phase::Map | Phase::Combine => new_name(alloc, b"out"),
        Phase::Reduce => part_name(alloc, task),
    }
}

/// The file that says that the folder is whole.
pub(crate) fn success_path(alloc: Global, folder: &Path) -> Result<Path, NoMemory>
    requires { length folder.now < 8 }
    ensures { IfOk result (λ path. path ≡ success_of folder.now) }
{
    folder.child(alloc, &success_name(alloc)?)
}

/// A part of a folder's content.
pub fn part_path(alloc: Global, folder: &Path, part: u32) -> Result<Path, NoMemory>
    requires { length folder.now < 8 }
    ensures { IfOk result (λ path. path ≡ part_of folder.now part) }
{
    folder.child(alloc, &part_name(alloc, part)?)
}

/// What a job needs while it runs.
pub(crate) fn temporary_path(alloc: Global, folder: &Path) -> Result<Path, NoMemory>
    requires { length folder.now < 8 }
    ensures { IfOk result (λ path. path ≡ temporary_of folder.now) }
{
    folder.child(alloc, &temporary_name(alloc)?)
}

/// The folder of a task that is committed.
pub(crate) fn task_path(
    alloc: Global,
    folder: &Path,
    phase: Phase,
    task: u32,
) -> Result<Path, NoMemory>
    requires { length folder.now < 7 }
    ensures { IfOk result (λ path. path ≡ task_of folder.now phase task) }
{
    let temporary = temporary_path(alloc, folder)?;
    temporary.child(alloc, &task_name(alloc, phase, task)?)
}

/// Where the commit of its reduce task leaves a part.
pub(crate) fn task_part_path(alloc: Global, folder: &Path, part: u32) -> Result<Path, NoMemory>
    requires { length folder.now < 6 }
    ensures { IfOk result (λ path. path ≡ task_part_of folder.now part) }
{
    let task = task_path(alloc, folder, Phase::Reduce, part)?;
    task.child(alloc, &part_name(alloc, part)?)
}

/// The folder of an attempt.
pub(crate) fn attempt_path(
    alloc: Global,
    folder: &Path,
    attempt: &Attempt,
) -> Result<Path, NoMemory>
    requires { length folder.now < 7 }
    ensures { IfOk result (λ path. path ≡ attempt_of folder.now attempt.now) }
{
    let temporary = temporary_path(alloc, folder)?;
    temporary.child(alloc, &attempt_name(alloc, attempt)?)
}

/// Where the child of an attempt of a task of this folder writes.
pub fn attempt_output(alloc: Global, folder: &Path, attempt: &Attempt) -> Result<Path, NoMemory>
    requires { length folder.now < 6 }
    ensures { IfOk result (λ path. path ≡ output_of folder.now attempt.now) }
{
    let path = attempt_path(alloc, folder, attempt)?;
    path.child(
        alloc,
        &output_name(alloc, attempt.task.phase, attempt.task.task)?,
    )
}

/// Where the commit of a task of this folder leaves its output.
pub fn task_output(alloc: Global, folder: &Path, phase: Phase, task: u32) -> Result<Path, NoMemory>
    requires { length folder.now < 6 }
    ensures { IfOk result (λ path. path ≡ task_output_of folder.now phase task) }
{
    let path = task_path(alloc, folder, phase, task)?;
    path.child(alloc, &output_name(alloc, phase, task)?)
}

/// What the children of a task of this folder read.
pub fn task_input(alloc: Global, folder: &Path, phase: Phase, task: u32) -> Result<Path, NoMemory>
    requires { length folder.now < 7 }
    ensures { IfOk result (λ path. path ≡ task_input_of folder.now phase task) }
{
    let temporary = temporary_path(alloc, folder)?;
    temporary.child(alloc, &input_name(alloc, phase, task)?)
}

/// The folder in which the outputs of this folder's map tasks are sorted and merged.
#[tactic(auto, unfolding(crate::specs::Paths::shuffle_name))]
pub fn shuffle_folder(alloc: Global, folder: &Path) -> Result<Path, NoMemory>
    requires { length folder.now < 7 }
    ensures { IfOk result (λ path. path ≡ shuffle_of folder.now) }
{
    let temporary = temporary_path(alloc, folder)?;
    temporary.child(alloc, &new_name(alloc, b"shuffle")?)
}

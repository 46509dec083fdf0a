ghost use Rattle.std.specs.Prelude.{◌≡◌, ◌≤◌, true, false, None, option_map, OnOk};
ghost use Rattle.std.specs.Option.{option_copied};
ghost use Rattle.dir_mem.specs.Traces.{content_of, may_of, members_of};
ghost use Rattle.dir_mem.specs.Log.{change_at, changes_of, count_of, state_of, traces_at};
ghost use Rattle.peg_base.specs.Names.{Names};
ghost use Rattle.dir_mem.specs.Sound.{is_listed};

use crate::traces::Trace;
use peg_base::Path;
use peg_text::NoMemory;
use std::alloc::Global;
use std::slice;

/// What a step made of a path: what it has since then, and what a stop may leave there, the newest trace first. Where
/// `may` is `None`, the traces are as before.
#[derive(Drop)]
pub(crate) struct Change {
    pub path: Path,
    pub now: Option<Vec<u8>>,
    pub may: Option<Vec<Trace>>,
}

/// A step of a directory.
#[derive(Drop)]
pub(crate) enum Step {
    /// A call, with all that it changed.
    Call(Vec<Change>),
    /// A change between two calls.
    Between(Change),
}

impl Step {
    fn changes(&self) -> &[Change]
        ensures { result.now ≡ changes_of self.now }
    {
        match self {
            Step::Call(changes) => changes.as_slice(),
            Step::Between(change) => slice::from_ref(change),
        }
    }

    /// How many calls the step is.
    pub(crate) fn count(&self) -> u64
        ensures value { result ≡ count_of self.now }
        ensures one { result ≤ 1 }
    {
        match self {
            Step::Call(_) => 1,
            Step::Between(_) => 0,
        }
    }
}

/// The change of the path, if there is one.
pub(crate) fn change_of<'a>(changes: &'a [Change], path: &Path) -> Option<&'a Change>
    ensures { option_copied result ≡ change_at changes.now path.now }
{
    changes.iter().find(|change| change.path == *path)
}

/// What the path has after these steps.
pub(crate) fn content_at<'a>(steps: &'a [Step], path: &Path) -> Option<&'a [u8]>
    ensures { content_of result ≡ (state_of steps.now path.now).now }
{
    let mut place = steps.len();
    while place > 0 {
        place -= 1;
        if let Some(change) = change_of(steps[place].changes(), path) {
            return match &change.now {
                None => None,
                Some(bytes) => Some(bytes.as_slice()),
            };
        }
    }
    None
}

/// The traces that the changes name for the path, if they name any.
pub(crate) fn traces_in<'a>(changes: &'a [Change], path: &Path) -> Option<&'a [Trace]>
    ensures { option_map (λ traces. members_of traces.now) result ≡ traces_at changes.now path.now }
{
    match &change_of(changes, path)?.may {
        None => None,
        Some(traces) => Some(traces.as_slice()),
    }
}

/// What a stop may leave at the path after these steps; `None` where no step said so.
pub(crate) fn traces_after<'a>(steps: &'a [Step], path: &Path) -> Option<&'a [Trace]>
    ensures { may_of result ≡ (state_of steps.now path.now).may }
{
    let mut place = steps.len();
    while place > 0 {
        place -= 1;
        if let Some(traces) = traces_in(steps[place].changes(), path) {
            return Some(traces);
        }
    }
    None
}

/// Lists the paths of the changes, each once. Where there is no memory, some of them may be listed.
pub(crate) fn list_paths(
    alloc: Global,
    paths: &mut Vec<Path>,
    changes: &[Change],
) -> Result<(), NoMemory>
    ensures kept { (path : Names) → is_listed paths.old.items path ≡ true → is_listed paths.new.items path ≡ true }
    ensures listed { OnOk result
        ((path : Names) → is_listed paths.new.items path ≡ false → change_at changes.now path ≡ None) }
{
    for change in changes {
        list_path(alloc, paths, &change.path)?;
    }
    Ok(())
}

/// Lists the path, unless it is listed.
pub(crate) fn list_path(alloc: Global, paths: &mut Vec<Path>, path: &Path) -> Result<(), NoMemory>
    ensures kept { (other : Names) → is_listed paths.old.items other ≡ true → is_listed paths.new.items other ≡ true }
    ensures listed { OnOk result (is_listed paths.new.items path.now ≡ true) }
{
    if !paths.contains(path) {
        paths.push(path.copy(alloc)?)?;
    }
    Ok(())
}

ghost use Rattle.std.specs.Prelude.{◌≡◌, ◌+◌, ◌<◌, ◌≤◌, [], ◌∷◌, ◌++◌, length, true, false, Some, None, option_map, IfOk, OnOk};
ghost use Rattle.peg_base.specs.Names.{Names, under, after_top};
ghost use Rattle.dir_disk.specs.State.{appended, removed, settled, moved_to, arrival, bytes_of, after_append, after_move, after_remove, after_settle};
ghost use Rattle.dir_disk.specs.Calls.{CanMove, HasFile};
ghost use Rattle.dir_disk.specs.Children.{lent_out};
ghost use Rattle.dir_mem.specs.Traces.{content_of, may_of, member_of, members_of};
ghost use Rattle.dir_mem.specs.Log.{after_changes, change_at, replaced, state_of};
ghost use Rattle.dir_mem.specs.Sound.{ListsAll};
ghost use Rattle.dir_mem.specs.Effects.{Leads, broken, after_arrival, after_break};

use crate::log::{Change, Step, content_at, traces_after, traces_in};
use crate::traces::{Trace, copies, newest, trace_of, with_newest};
use peg_base::{Name, Path};
use peg_text::NoMemory;
use std::alloc::Global;

/// The content again.
pub(crate) fn copied(alloc: Global, content: Option<&[u8]>) -> Result<Option<Vec<u8>>, NoMemory>
    ensures { IfOk result (λ copy. option_map (λ bytes. bytes.items) copy ≡ content_of content.entry) }
{
    match content {
        None => Ok(None),
        Some(bytes) => Ok(Some(Vec::from_slice(alloc, bytes)?)),
    }
}

/// What an append makes of its path.
fn append_of(alloc: Global, steps: &[Step], path: &Path, bytes: &[u8]) -> Result<Change, NoMemory>
    ensures path { IfOk result (λ change. change.path ≡ path.now) }
    ensures made { IfOk result
        (λ change. replaced change (state_of steps.now path.now)
        ≡ appended bytes.now (state_of steps.now path.now)) }
{
    let mut now = Vec::from_slice(alloc, content_at(steps, path).unwrap_or(&[]))?;
    now.extend_from_slice(bytes)?;
    Ok(Change {
        path: path.copy(alloc)?,
        now: Some(now),
        may: Some(with_newest(alloc, Trace::AnyFile, traces_after(steps, path))?),
    })
}

/// What an append changes.
pub(crate) fn appending(
    alloc: Global,
    steps: &[Step],
    path: &Path,
    bytes: &[u8],
) -> Result<Vec<Change>, NoMemory>
    ensures { IfOk result
        (λ changes. Leads changes.items (state_of steps.now)
        (after_append path.now bytes.now (state_of steps.now))) }
{
    let mut changes = Vec::new(alloc);
    changes.push(append_of(alloc, steps, path, bytes)?)?;
    Ok(changes)
}

/// What a removal makes of a file.
fn removal_of(alloc: Global, steps: &[Step], path: &Path) -> Result<Change, NoMemory>
    requires { HasFile (state_of steps.now) path.now }
    ensures path { IfOk result (λ change. change.path ≡ path.now) }
    ensures made { IfOk result
        (λ change. replaced change (state_of steps.now path.now) ≡ removed (state_of steps.now path.now)) }
{
    Ok(Change {
        path: path.copy(alloc)?,
        now: None,
        may: Some(with_newest(alloc, Trace::NoFile, traces_after(steps, path))?),
    })
}

/// What the removal of all at and under a path changes.
pub(crate) fn removing(
    alloc: Global,
    steps: &[Step],
    paths: &[Path],
    top: &Path,
) -> Result<Vec<Change>, NoMemory>
    requires { ListsAll paths.now (state_of steps.now) }
    ensures { IfOk result
        (λ changes. Leads changes.items (state_of steps.now) (after_remove top.now (state_of steps.now))) }
{
    let mut changes = Vec::new(alloc);
    for path in paths {
        if path.under(top) && content_at(steps, path).is_some() {
            changes.push(removal_of(alloc, steps, path)?)?;
        }
    }
    Ok(changes)
}

/// What it makes of a path that it is settled.
fn settling_of(alloc: Global, steps: &[Step], path: &Path) -> Result<Change, NoMemory>
    ensures path { IfOk result (λ change. change.path ≡ path.now) }
    ensures made { IfOk result
        (λ change. replaced change (state_of steps.now path.now) ≡ settled (state_of steps.now path.now)) }
{
    let now = content_at(steps, path);
    let mut may = Vec::new(alloc);
    may.push(trace_of(alloc, now)?)?;
    Ok(Change {
        path: path.copy(alloc)?,
        now: copied(alloc, now)?,
        may: Some(may),
    })
}

/// What it changes that all at and under a path is settled.
pub(crate) fn settling(
    alloc: Global,
    steps: &[Step],
    paths: &[Path],
    top: &Path,
) -> Result<Vec<Change>, NoMemory>
    requires { ListsAll paths.now (state_of steps.now) }
    ensures { IfOk result
        (λ changes. Leads changes.items (state_of steps.now) (after_settle top.now (state_of steps.now))) }
{
    let mut changes = Vec::new(alloc);
    for path in paths {
        if path.under(top) {
            changes.push(settling_of(alloc, steps, path)?)?;
        }
    }
    Ok(changes)
}

/// What a call that failed makes of a path, where it would have made these changes.
fn break_of(
    alloc: Global,
    steps: &[Step],
    changes: &[Change],
    path: &Path,
) -> Result<Change, NoMemory>
    ensures path { IfOk result (λ change. change.path ≡ path.now) }
    ensures made { IfOk result
        (λ change. replaced change (state_of steps.now path.now)
        ≡ broken (after_changes changes.now (state_of steps.now) path.now)) }
{
    let Some(traces) = traces_in(changes, path) else {
        return Ok(Change {
            path: path.copy(alloc)?,
            now: copied(alloc, newest(traces_after(steps, path)))?,
            may: None,
        });
    };
    Ok(Change {
        path: path.copy(alloc)?,
        now: copied(alloc, newest(Some(traces)))?,
        may: Some(copies(alloc, traces)?),
    })
}

/// What a call that failed changes, at and under one of two paths, where it would have made these changes.
pub(crate) fn breaking(
    alloc: Global,
    steps: &[Step],
    paths: &[Path],
    changes: &[Change],
    top: &Path,
    other: &Path,
) -> Result<Vec<Change>, NoMemory>
    requires before { ListsAll paths.now (state_of steps.now) }
    requires after { ListsAll paths.now (after_changes changes.now (state_of steps.now)) }
    ensures { IfOk result
        (λ broken. Leads broken.items (state_of steps.now)
        (after_break top.now other.now (after_changes changes.now (state_of steps.now)) (state_of steps.now))) }
{
    let mut broken = Vec::new(alloc);
    for path in paths {
        if path.under(top) || path.under(other) {
            broken.push(break_of(alloc, steps, changes, path)?)?;
        }
    }
    Ok(broken)
}

/// The path of a file that is moved, from at or under `from` to the same place at or under `to`.
fn moved_path(alloc: Global, from: &Path, to: &Path, path: &Path) -> Result<Path, NoMemory>
    requires { length (to.now ++ after_top from.now path.now) ≤ 8 }
    ensures { IfOk result (λ moved. moved ≡ to.now ++ after_top from.now path.now) }
{
    let mut moved = to.copy(alloc)?;
    for name in rest_of(path, from) {
        moved = moved.child(alloc, name)?;
    }
    Ok(moved)
}

/// The names of the path below `top`.
fn rest_of<'a>(path: &'a Path, top: &Path) -> &'a [Name]
    ensures { result.now ≡ after_top top.now path.now }
{
    let names = path.names();
    let start = top.names().len().min(names.len());
    &names[start..]
}

/// How a file that is moved may come out of a stop: as it is where its traces are one of just its bytes.
fn arriving(alloc: Global, bytes: &[u8], traces: Option<&[Trace]>) -> Result<Trace, NoMemory>
    ensures { IfOk result (λ trace. member_of trace ≡ arrival (may_of traces.entry) bytes.now) }
{
    match traces {
        Some([Trace::Bytes(_)]) => Ok(Trace::Bytes(Vec::from_slice(alloc, bytes)?)),
        _ => Ok(Trace::AnyFile),
    }
}

/// What a move makes of the new path of a file.
fn arrival_of(
    alloc: Global,
    steps: &[Step],
    old: &Path,
    path: Path,
    bytes: &[u8],
) -> Result<Change, NoMemory>
    requires { (state_of steps.now old.now).now ≡ Some bytes.now }
    ensures path { IfOk result (λ change. change.path ≡ path) }
    ensures made { IfOk result
        (λ change. replaced change (state_of steps.now path)
        ≡ moved_to (state_of steps.now old.now).now (state_of steps.now old.now).may (state_of steps.now path)) }
{
    let arrives = arriving(alloc, bytes, traces_after(steps, old))?;
    let may = with_newest(alloc, arrives, traces_after(steps, &path))?;
    Ok(Change {
        path,
        now: Some(Vec::from_slice(alloc, bytes)?),
        may: Some(may),
    })
}

/// What a move makes of the new paths of the files at and under `from`.
fn arrivals(
    alloc: Global,
    steps: &[Step],
    paths: &[Path],
    from: &Path,
    to: &Path,
) -> Result<Vec<Change>, NoMemory>
    requires lists { ListsAll paths.now (state_of steps.now) }
    requires short { (rest : Names) → HasFile (state_of steps.now) (from.now ++ rest) → length (to.now ++ rest) ≤ 8 }
    ensures made { IfOk result
        (λ changes. Leads changes.items (state_of steps.now) (after_arrival from.now to.now (state_of steps.now))) }
    ensures within { IfOk result
        (λ changes. (path : Names) → under to.now path ≡ false → change_at changes.items path ≡ None) }
{
    let mut changes = Vec::new(alloc);
    for path in paths {
        if path.under(from)
            && let Some(bytes) = content_at(steps, path)
        {
            let moved = moved_path(alloc, from, to, path)?;
            changes.push(arrival_of(alloc, steps, path, moved, bytes)?)?;
        }
    }
    Ok(changes)
}

/// What it changes that all at and under `from` is moved to `to`.
pub(crate) fn moving(
    alloc: Global,
    steps: &[Step],
    paths: &[Path],
    from: &Path,
    to: &Path,
) -> Result<Vec<Change>, NoMemory>
    requires lists { ListsAll paths.now (state_of steps.now) }
    requires can { CanMove (state_of steps.now) from.now to.now }
    ensures { IfOk result
        (λ changes. Leads changes.items (state_of steps.now) (after_move from.now to.now (state_of steps.now))) }
{
    let mut changes = arrivals(alloc, steps, paths, from, to)?;
    let mut leaving = removing(alloc, steps, paths, from)?;
    changes.append(&mut leaving)?;
    Ok(changes)
}

/// What it makes of a path that a child writes it.
pub(crate) fn lend_of(alloc: Global, steps: &[Step], path: &Path) -> Result<Change, NoMemory>
    ensures path { IfOk result (λ change. change.path ≡ path.now) }
    ensures made { IfOk result
        (λ change. replaced change (state_of steps.now path.now) ≡ lent_out (state_of steps.now path.now)) }
{
    Ok(Change {
        path: path.copy(alloc)?,
        now: copied(alloc, content_at(steps, path))?,
        may: Some(with_newest(alloc, Trace::AnyFile, traces_after(steps, path))?),
    })
}

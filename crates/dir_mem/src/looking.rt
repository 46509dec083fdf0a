ghost use Rattle.std.specs.Prelude.{◌≡◌, ◌&&◌, true, false, is_some, not, None};
ghost use Rattle.std.specs.List.{list_all, list_any};
ghost use Rattle.peg_base.specs.Names.{same_path, under};
ghost use Rattle.dir_mem.specs.Traces.{member_of};
ghost use Rattle.dir_disk.specs.State.{Allows, Content};
ghost use Rattle.dir_disk.specs.Moments.{files};
ghost use Rattle.dir_disk.specs.Calls.{CanAppend, CanMove, HasFile};
ghost use Rattle.dir_disk.specs.Lent.{IsFree, IsNoOutput};
ghost use Rattle.dir_disk.specs.Children.{CanStart};
ghost use Rattle.dir_mem.specs.Log.{state_of};
ghost use Rattle.dir_mem.specs.Looking.{is_file_under, is_gone, is_in_way, is_too_deep};
ghost use Rattle.dir_mem.specs.Sound.{ListsAll};

use crate::log::{Step, content_at, traces_after};
use crate::mem_dir::{Lending, MemDir};
use crate::traces::Trace;
use peg_base::Path;

/// The greatest number of names of a path.
const DEEPEST: usize = 8;

/// Whether the file at the path, if there is one, lies above the place or under it.
fn is_in_way(steps: &[Step], place: &Path, path: &Path) -> bool
    ensures { result ≡ is_in_way (state_of steps.now) place.now path.now }
{
    // The log is searched last, and for the few paths near the place only.
    *path != *place && (path.under(place) || place.under(path)) && content_at(steps, path).is_some()
}

/// Whether a file is at the path, at or under the top.
fn is_file_under(steps: &[Step], top: &Path, path: &Path) -> bool
    ensures { result ≡ is_file_under (state_of steps.now) top.now path.now }
{
    path.under(top) && content_at(steps, path).is_some()
}

/// Whether a file is at the path whose new path would have too many names.
fn is_too_deep(steps: &[Step], from: &Path, to: &Path, path: &Path) -> bool
    ensures { result ≡ is_too_deep (state_of steps.now) from.now to.now path.now }
{
    is_file_under(steps, from, path)
        && DEEPEST + from.names().len() < to.names().len() + path.names().len()
}

/// Whether a file is in the way of the place.
fn is_blocked(steps: &[Step], paths: &[Path], place: &Path) -> bool
    ensures { result ≡ list_any (is_in_way (state_of steps.now) place.now) paths.now }
{
    paths.iter().any(|path| is_in_way(steps, place, path))
}

/// Whether a file is at or under the top.
fn holds_any(steps: &[Step], paths: &[Path], top: &Path) -> bool
    ensures { result ≡ list_any (is_file_under (state_of steps.now) top.now) paths.now }
{
    paths.iter().any(|path| is_file_under(steps, top, path))
}

/// Whether a file's new path would have too many names.
fn gets_too_deep(steps: &[Step], paths: &[Path], from: &Path, to: &Path) -> bool
    ensures { result ≡ list_any (is_too_deep (state_of steps.now) from.now to.now) paths.now }
{
    paths.iter().any(|path| is_too_deep(steps, from, to, path))
}

/// Whether the move can be made.
fn can_move(steps: &[Step], paths: &[Path], from: &Path, to: &Path) -> bool
    requires { ListsAll paths.now (state_of steps.now) }
    ensures can { result ≡ true → CanMove (state_of steps.now) from.now to.now }
    ensures cannot { CanMove (state_of steps.now) from.now to.now → result ≡ true }
{
    if !holds_any(steps, paths, from) {
        return false;
    }
    if !is_vacant(steps, paths, to) {
        return false;
    }
    if !are_apart(from, to) {
        return false;
    }
    !gets_too_deep(steps, paths, from, to)
}

/// Whether no file is at the place, above it or under it.
fn is_vacant(steps: &[Step], paths: &[Path], place: &Path) -> bool
    ensures vacant { result ≡ true
        → ((state_of steps.now place.now).now ≡ None) × (list_any (is_in_way (state_of steps.now) place.now) paths.now ≡ false) }
    ensures taken { (state_of steps.now place.now).now ≡ None
        → list_any (is_in_way (state_of steps.now) place.now) paths.now ≡ false → result ≡ true }
{
    content_at(steps, place).is_none() && !is_blocked(steps, paths, place)
}

/// Whether neither path lies under the other.
fn are_apart(from: &Path, to: &Path) -> bool
    ensures apart { result ≡ true → (under from.now to.now ≡ false) × (under to.now from.now ≡ false) }
    ensures nested { under from.now to.now ≡ false → under to.now from.now ≡ false → result ≡ true }
{
    !to.under(from) && !from.under(to)
}

/// Whether a file can be made at the path, or appended to.
fn can_append(steps: &[Step], paths: &[Path], path: &Path) -> bool
    requires { ListsAll paths.now (state_of steps.now) }
    ensures can { result ≡ true → CanAppend (state_of steps.now) path.now }
    ensures cannot { CanAppend (state_of steps.now) path.now → result ≡ true }
{
    !path.names().is_empty() && !is_blocked(steps, paths, path)
}

/// Whether a stop leaves no file at the path.
fn leaves_none(steps: &[Step], path: &Path) -> bool
    ensures none { result ≡ true
        → (content : Content) → Allows (state_of steps.now path.now).may content → content ≡ None }
    ensures some { ((content : Content) → Allows (state_of steps.now path.now).may content → content ≡ None)
        → result ≡ true }
{
    match traces_after(steps, path) {
        None => true,
        Some(traces) => leave_none(traces),
    }
}

/// Whether no trace shows a file.
fn leave_none(traces: &[Trace]) -> bool
    ensures { result ≡ list_all (λ trace. is_gone (member_of trace)) traces.now }
{
    traces.iter().all(|trace| trace.is_no_file())
}

/// Whether nothing of what is lent is at or under the path.
fn is_free(lent: &[Lending], path: &Path) -> bool
    ensures { result ≡ list_all
        (λ lending. not (under path.now lending.input) && not (under path.now lending.output)) lent.now }
{
    lent.iter().all(|lending| !lending.input.under(path) && !lending.output.under(path))
}

/// Whether the path is none of the outputs.
fn is_no_output(lent: &[Lending], path: &Path) -> bool
    ensures { result ≡ list_all (λ lending. not (same_path path.now lending.output)) lent.now }
{
    lent.iter().all(|lending| *path != lending.output)
}

/// What its calls need, as tests. They are no calls of it.
impl MemDir {
    ghost use Rattle.dir_mem.specs.Memory.{lent_of, told_of};

    /// Whether a file is at the path.
    pub fn has_file(&self, path: &Path) -> bool
        ensures value { result ≡ is_some (files (told_of self.now) path.now).now }
        ensures there { result ≡ true → HasFile (files (told_of self.now)) path.now }
    {
        content_at(&self.steps, path).is_some()
    }

    /// Whether a stop leaves no file at the path.
    pub fn leaves_none(&self, path: &Path) -> bool
        ensures none { result ≡ true
            → (content : Content) → Allows (files (told_of self.now) path.now).may content → content ≡ None }
        ensures some { ((content : Content) → Allows (files (told_of self.now) path.now).may content → content ≡ None)
            → result ≡ true }
    {
        leaves_none(&self.steps, path)
    }

    /// Whether a file can be made at the path, or appended to.
    pub fn can_append(&self, path: &Path) -> bool
        ensures can { result ≡ true → CanAppend (files (told_of self.now)) path.now }
        ensures cannot { CanAppend (files (told_of self.now)) path.now → result ≡ true }
    {
        can_append(&self.steps, &self.paths, path)
    }

    /// Whether something is to be moved, and there is room for it.
    pub fn can_move(&self, from: &Path, to: &Path) -> bool
        ensures can { result ≡ true → CanMove (files (told_of self.now)) from.now to.now }
        ensures cannot { CanMove (files (told_of self.now)) from.now to.now → result ≡ true }
    {
        can_move(&self.steps, &self.paths, from, to)
    }

    /// Whether the paths can be lent: the one to be read, the other to be written.
    pub fn can_lend(&self, input: &Path, output: &Path) -> bool
        ensures can { result ≡ true → CanStart (files (told_of self.now)) input.now output.now }
        ensures cannot { CanStart (files (told_of self.now)) input.now output.now → result ≡ true }
    {
        self.has_file(input) && self.leaves_none(output) && self.can_append(output)
    }

    /// Whether no child writes the path.
    pub fn is_no_output(&self, path: &Path) -> bool
        ensures no_output { result ≡ true → IsNoOutput (lent_of self.now) path.now }
        ensures output { IsNoOutput (lent_of self.now) path.now → result ≡ true }
    {
        is_no_output(&self.lent, path)
    }

    /// Whether nothing at or under the path is lent.
    pub fn is_free(&self, path: &Path) -> bool
        ensures free { result ≡ true → IsFree (lent_of self.now) path.now }
        ensures lent { IsFree (lent_of self.now) path.now → result ≡ true }
    {
        is_free(&self.lent, path)
    }
}

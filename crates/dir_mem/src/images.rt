ghost use Rattle.std.specs.Prelude.{◌≡◌, ◌≤◌, ◌∷◌, ◌++◌, ℕ, List, Bool, All, true, false, None, Some, IfOk, OnOk, if◌then◌else◌};
ghost use Rattle.std.specs.List.{list_all};
ghost use Rattle.peg_base.specs.Names.{Names};
ghost use Rattle.dir_disk.specs.State.{Content};
ghost use Rattle.dir_disk.specs.Moments.{clock, files};
ghost use Rattle.dir_mem.specs.Log.{calls_of, state_of, told_by};
ghost use Rattle.dir_mem.specs.Sound.{HasNoTop, IsSoundState, ListsAll, is_listed};
ghost use Rattle.dir_mem.specs.Traces.{content_of, member_of, shown};
ghost use Rattle.dir_mem.specs.Images.{Files, HasViewsFirst, IsFair, IsRightBefore, Shows, bytes_in, image_of, is_fair, seen, with_file, Passes};

use crate::effects::copied;
use crate::log::{Step, content_at, traces_after};
use crate::mem_dir::MemDir;
use crate::traces::{GARBAGE, Trace, newest, oldest};
use peg_base::Path;
use peg_text::NoMemory;
use std::alloc::Global;
use std::collections::BTreeMap;

/// Files in memory, by their paths.
pub type Image = BTreeMap<Path, Vec<u8>>;

/// What an image has of each path.
#[derive(Clone, Copy)]
pub(crate) enum View {
    /// What is there now.
    Now,
    /// What the oldest trace shows.
    Oldest,
    /// What the newest trace shows.
    Newest,
}

/// What the view has of the path after these steps.
fn seen<'a>(steps: &'a [Step], path: &Path, view: View) -> Option<&'a [u8]>
    ensures { content_of result ≡ seen view (state_of steps.now path.now) }
{
    match view {
        View::Now => content_at(steps, path),
        View::Oldest => oldest(traces_after(steps, path)),
        View::Newest => newest(traces_after(steps, path)),
    }
}

/// Gives the image this content at the path.
fn set_file(
    alloc: Global,
    image: &mut Image,
    path: &Path,
    content: Option<&[u8]>,
) -> Result<(), NoMemory>
    ensures { OnOk result ((other : Names) → image_of image.new other
        ≡ with_file path.now (content_of content.entry) (image_of image.old) other) }
{
    match content {
        None => {
            image.remove(path);
        }
        Some(bytes) => {
            image.insert(path.copy(alloc)?, Vec::from_slice(alloc, bytes)?)?;
        }
    }
    Ok(())
}

/// The image of what the view has of each path.
fn image_at(alloc: Global, steps: &[Step], paths: &[Path], view: View) -> Result<Image, NoMemory>
    requires { ListsAll paths.now (state_of steps.now) }
    ensures { IfOk result
        (λ image. (path : Names) → image_of image path ≡ seen view (state_of steps.now path)) }
{
    let mut image = Image::new(alloc);
    for path in paths {
        set_file(alloc, &mut image, path, seen(steps, path, view))?;
    }
    Ok(image)
}

/// The files of the image at these paths.
fn copy_of(alloc: Global, paths: &[Path], image: &Image) -> Result<Image, NoMemory>
    ensures { IfOk result
        (λ copy. (path : Names) → image_of copy path
        ≡ (if is_listed paths.now path then image_of image.now path else None)) }
{
    let mut copy = Image::new(alloc);
    for path in paths {
        let content = content_in(image, path);
        set_file(alloc, &mut copy, path, content)?;
    }
    Ok(copy)
}

/// What the image has at the path.
fn content_in<'a>(image: &'a Image, path: &Path) -> Option<&'a [u8]>
    ensures { content_of result ≡ image_of image.now path.now }
{
    match image.get(path) {
        None => None,
        Some(bytes) => Some(bytes.as_slice()),
    }
}

/// Adds the content, unless it is there or is what the path has now.
fn add_content(
    alloc: Global,
    contents: &mut Vec<Option<Vec<u8>>>,
    now: Option<&[u8]>,
    content: Option<&[u8]>,
) -> Result<(), NoMemory>
    ensures { (test : Content → Bool) → list_all (λ c. test (bytes_in c)) contents.old.items ≡ true
        → test (content_of content.entry) ≡ true → list_all (λ c. test (bytes_in c)) contents.new.items ≡ true }
{
    if content == now || contents.iter().any(|old| old.as_deref() == content) {
        return Ok(());
    }
    contents.push(copied(alloc, content)?)?;
    Ok(())
}

/// Adds what the trace shows, but what the path has now.
fn add_shown(
    alloc: Global,
    contents: &mut Vec<Option<Vec<u8>>>,
    now: Option<&[u8]>,
    trace: &Trace,
) -> Result<(), NoMemory>
    ensures { (test : Content → Bool) → list_all (λ c. test (bytes_in c)) contents.old.items ≡ true
        → Passes test (member_of trace.now) → list_all (λ c. test (bytes_in c)) contents.new.items ≡ true }
{
    match trace {
        Trace::NoFile => add_content(alloc, contents, now, None),
        Trace::Bytes(bytes) => add_content(alloc, contents, now, Some(bytes.as_slice())),
        Trace::AnyFile => {
            add_content(alloc, contents, now, Some(&[]))?;
            add_content(alloc, contents, now, Some(GARBAGE))
        }
    }
}

/// What the traces of the path show, each once, but what it has now. Any file is shown as an empty one too.
fn contents_of(alloc: Global, steps: &[Step], path: &Path) -> Result<Vec<Option<Vec<u8>>>, NoMemory>
    requires { IsSoundState (state_of steps.now) }
    ensures { IfOk result
        (λ contents. list_all (λ c. is_fair (state_of steps.now path.now) (bytes_in c)) contents.items ≡ true) }
{
    let mut contents = Vec::new(alloc);
    let Some(traces) = traces_after(steps, path) else {
        return Ok(contents);
    };
    let now = content_at(steps, path);
    for trace in traces {
        add_shown(alloc, &mut contents, now, trace)?;
    }
    Ok(contents)
}

fn borrowed(content: &Option<Vec<u8>>) -> Option<&[u8]>
    ensures { content_of result ≡ bytes_in content.now }
{
    match content {
        None => None,
        Some(bytes) => Some(bytes.as_slice()),
    }
}

/// The files of the image, but this content at the path.
fn variation(
    alloc: Global,
    paths: &[Path],
    image: &Image,
    path: &Path,
    content: &Option<Vec<u8>>,
) -> Result<Image, NoMemory>
    ensures { IfOk result (λ other. (q : Names) → image_of other q
        ≡ with_file path.now (bytes_in content.now) (λ p. if is_listed paths.now p then image_of image.now p else None) q) }
{
    let mut other = copy_of(alloc, paths, image)?;
    set_file(alloc, &mut other, path, borrowed(content))?;
    Ok(other)
}

/// Adds an image for each content that a stop may leave at the path, that differs from the image of now there alone.
fn add_variations(
    alloc: Global,
    images: &mut Vec<Image>,
    steps: &[Step],
    paths: &[Path],
    now: &Image,
    path: &Path,
) -> Result<(), NoMemory>
    requires sound { IsSoundState (state_of steps.now) }
    requires lists { ListsAll paths.now (state_of steps.now) }
    requires now { (q : Names) → image_of now.now q ≡ (state_of steps.now q).now }
    requires fair { All (λ image. IsFair (state_of steps.now) (image_of image)) images.old.items }
    ensures fair { OnOk result (All (λ image. IsFair (state_of steps.now) (image_of image)) images.new.items) }
    ensures grows { OnOk result ((more : List Files) × (images.new.items ≡ images.old.items ++ more)) }
{
    let contents = contents_of(alloc, steps, path)?;
    for content in &contents {
        images.push(variation(alloc, paths, now, path, content)?)?;
    }
    Ok(())
}

#[tactic(auto, using(crate::proofs::ImageLemmas::views_stay))]
/// The images that are shown of what these steps left: of now, of the oldest traces, of the newest, and for each path and
/// each content that a stop may leave there, one that differs from the first there alone.
fn shown(alloc: Global, steps: &[Step], paths: &[Path]) -> Result<Vec<Image>, NoMemory>
    requires sound { IsSoundState (state_of steps.now) }
    requires lists { ListsAll paths.now (state_of steps.now) }
    ensures fair { IfOk result (λ images. All (λ image. IsFair (state_of steps.now) (image_of image)) images.items) }
    ensures views { IfOk result (λ images. HasViewsFirst (state_of steps.now) images.items) }
{
    let now = image_at(alloc, steps, paths, View::Now)?;
    let mut images = Vec::new(alloc);
    images.push(copy_of(alloc, paths, &now)?)?;
    images.push(image_at(alloc, steps, paths, View::Oldest)?)?;
    images.push(image_at(alloc, steps, paths, View::Newest)?)?;
    for path in paths {
        add_variations(alloc, &mut images, steps, paths, &now, path)?;
    }
    Ok(images)
}

/// How many of the steps were made before the call of this number, of so many calls.
fn place_before(steps: &[Step], count: u64, call: u64) -> usize
    requires count { count ≡ calls_of steps.now }
    requires within { call ≤ count }
    ensures { IsRightBefore call result (told_by steps.now) }
{
    let mut place = steps.len();
    let mut calls = count;
    while calls > call {
        place -= 1;
        calls -= steps[place].count();
    }
    place
}

impl MemDir {
    ghost use Rattle.dir_mem.specs.Memory.{fail_of, faults_of, lent_of, told_of};

    /// The files that are there now. It is no call.
    pub fn files(&self, alloc: Global) -> Result<Image, NoMemory>
        ensures { IfOk result (λ image. (path : Names) → image_of image path ≡ (files (told_of self.now) path).now) }
    {
        image_at(alloc, &self.steps, &self.paths, View::Now)
    }

    /// Images that a stop right before the call of this number might leave; where that call wasn't made yet, a stop now:
    /// the image of what is there, the one of the oldest that each path may have, the one of the newest, and for each path
    /// and each content that it may have, one that differs from the first there alone. Where a path may have any file, it
    /// is shown as an empty one, and as one of `garbage\n`.
    pub fn images(&self, alloc: Global, moment: u64) -> Result<Vec<Image>, NoMemory>
        requires { moment ≤ clock (told_of self.now) }
        ensures { IfOk result (λ images. Shows moment (told_of self.now) images.items) }
    {
        let place = place_before(&self.steps, self.calls, moment);
        shown(alloc, &self.steps[..place], &self.paths)
    }
}

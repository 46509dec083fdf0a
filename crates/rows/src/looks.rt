use crate::directory::{numbered_lines, rest, word};
use crate::reading::{number_of, path_of};
use crate::trouble::Trouble;
use crate::world::World;
use crate::writing::{add, add_path, add_quoted, number, quoted, text};
use dir_mem::Image;
use peg_base::Path;
use std::alloc::Global;

fn of_content(alloc: Global, content: Option<&[u8]>) -> Result<Vec<u8>, Trouble> {
    match content {
        Some(bytes) => quoted(alloc, bytes),
        None => text(alloc, b"none"),
    }
}

/// `PATH`: what a file has now.
pub(crate) fn has(alloc: Global, world: &World, args: &[Vec<u8>]) -> Result<Vec<u8>, Trouble> {
    let path = path_of(alloc, word(args, 0))?;
    of_content(alloc, world.content(&path))
}

/// `PATH FROM TO WIDTH TEXT`: `ok` where a file has just these numbered lines, and else what it has.
pub(crate) fn has_lines(
    alloc: Global,
    world: &World,
    args: &[Vec<u8>],
) -> Result<Vec<u8>, Trouble> {
    let path = path_of(alloc, word(args, 0))?;
    let lines = numbered_lines(alloc, rest(args, 1))?;
    match world.content(&path) {
        Some(bytes) if bytes == lines.as_slice() => text(alloc, b"ok"),
        content => of_content(alloc, content),
    }
}

/// The text without the blank at its end; `nothing` where that leaves nothing.
pub(crate) fn trimmed(mut text: Vec<u8>) -> Result<Vec<u8>, Trouble> {
    if text.last() == Some(&b' ') {
        text.pop();
    }
    if text.is_empty() {
        add(&mut text, b"nothing")?;
    }
    Ok(text)
}

/// Adds the files of an image as `PATH="TEXT"`, with a blank behind each.
fn add_image(out: &mut Vec<u8>, image: &Image) -> Result<(), Trouble> {
    for (path, bytes) in image {
        add_path(out, path)?;
        add(out, b"=")?;
        add_quoted(out, bytes)?;
        add(out, b" ")?;
    }
    Ok(())
}

/// `NUMBER`: the images of a stop before the call of this number since the action that is tried, a `;` behind each.
pub(crate) fn images(alloc: Global, world: &World, args: &[Vec<u8>]) -> Result<Vec<u8>, Trouble> {
    let moment = world.start.saturating_add(number_of(word(args, 0))?);
    let mut out = Vec::new(alloc);
    for image in &world.images(alloc, moment)? {
        add_image(&mut out, image)?;
        add(&mut out, b"; ")?;
    }
    trimmed(out)
}

/// All files that are there now.
pub(crate) fn files(alloc: Global, world: &World) -> Result<Vec<u8>, Trouble> {
    let mut out = Vec::new(alloc);
    let now = world.files(alloc)?;
    add_image(&mut out, &now)?;
    trimmed(out)
}

/// What a folder has.
#[derive(Drop)]
struct Contents {
    whole: bool,
    text: Vec<u8>,
}

impl Contents {
    /// Adds the file that lies under this name of the folder.
    fn add(&mut self, name: &[u8], bytes: &[u8]) -> Result<(), Trouble> {
        if name == b"_SUCCESS".as_slice() {
            self.whole = true;
            return Ok(());
        }
        if name == b"_temporary".as_slice() {
            return Ok(());
        }
        add(&mut self.text, name)?;
        add(&mut self.text, b"=")?;
        add_quoted(&mut self.text, bytes)?;
        add(&mut self.text, b" ")
    }

    fn add_all(&mut self, image: &Image, folder: &Path) -> Result<(), Trouble> {
        for (path, bytes) in image {
            if path.under(folder)
                && let Some(name) = path.names().get(folder.names().len())
            {
                self.add(name.text().as_bytes(), bytes)?;
            }
        }
        Ok(())
    }
}

/// `FOLDER`: the files of a folder that has `_SUCCESS`, but those under `_temporary`, and else `none`.
pub(crate) fn parts(alloc: Global, world: &World, args: &[Vec<u8>]) -> Result<Vec<u8>, Trouble> {
    let folder = path_of(alloc, word(args, 0))?;
    let mut contents = Contents {
        whole: false,
        text: Vec::new(alloc),
    };
    let now = world.files(alloc)?;
    contents.add_all(&now, &folder)?;
    if contents.whole {
        trimmed(contents.text)
    } else {
        text(alloc, b"none")
    }
}

/// How many calls were made after the one that fails; `none` where none does.
pub(crate) fn later(alloc: Global, world: &World) -> Result<Vec<u8>, Trouble> {
    match world.calls_since_fault() {
        Some(calls) => number(alloc, calls),
        None => text(alloc, b"none"),
    }
}

/// Whether both files were there right before the call of this number.
fn had_both(
    alloc: Global,
    world: &World,
    moment: u64,
    one: &Path,
    other: &Path,
) -> Result<bool, Trouble> {
    let images = world.images(alloc, moment)?;
    let Some(then) = images.first() else {
        return Err(Trouble::Misread);
    };
    Ok(then.contains_key(one) && then.contains_key(other))
}

/// `PATH PATH`: whether both files were there at one moment since the action that is tried.
pub(crate) fn ever(alloc: Global, world: &World, args: &[Vec<u8>]) -> Result<Vec<u8>, Trouble> {
    let one = path_of(alloc, word(args, 0))?;
    let other = path_of(alloc, word(args, 1))?;
    for moment in world.start..=world.calls() {
        if had_both(alloc, world, moment, &one, &other)? {
            return text(alloc, b"yes");
        }
    }
    text(alloc, b"no")
}

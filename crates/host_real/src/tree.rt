use peg_base::Name;
use std::alloc::{AllocGlobal, Global};
use std::fs::{DirEntry, OpenFile};
use std::io::{Error, ErrorKind};
use std::rt::Files;
use std::{fs, io};

/// Whether an error says that nothing is at a path.
pub(crate) fn is_absent(error: &Error) -> bool {
    matches!(error.kind(), ErrorKind::NotFound | ErrorKind::NotADirectory)
}

/// Whether an error says that there was no memory.
pub(crate) fn is_no_memory(error: &Error) -> bool {
    error.kind() == ErrorKind::OutOfMemory
}

/// The error of a call that may have changed a file, so that want of memory isn't the whole answer.
pub(crate) fn midway(error: Error) -> Error {
    if is_no_memory(&error) {
        Error::from(ErrorKind::Other)
    } else {
        error
    }
}

/// A path with more text behind it.
pub(crate) fn joined(rt: &impl AllocGlobal, path: &str, more: &str) -> io::Result<String> {
    Ok(format!(in rt.alloc(); "{path}{more}")?)
}

/// Whether a folder is at the path, and no link to one.
pub(crate) fn is_folder(files: &impl Files, path: &str) -> io::Result<bool> {
    match fs::symlink_metadata(files, path) {
        Ok(found) => Ok(found.is_dir()),
        Err(error) if is_absent(&error) => Ok(false),
        Err(error) => Err(error),
    }
}

/// Whether a folder may not be entered, so that nothing in it can be reached.
fn is_shut<R: Files + AllocGlobal>(rt: &R, folder: &str) -> io::Result<bool> {
    match fs::metadata(rt, joined(rt, folder, "/.")?.as_str()) {
        Err(error) => Ok(error.kind() == ErrorKind::PermissionDenied),
        Ok(_) => Ok(false),
    }
}

/// The path, and all under it that has the path of a file or a folder of the directory, each folder before what it holds;
/// nothing where nothing is.
fn tree_at<R: Files + AllocGlobal + Clone + Drop>(rt: &R, top: &str) -> io::Result<Vec<String>> {
    let mut tree = Vec::new(rt.alloc());
    match fs::symlink_metadata(rt, top) {
        Ok(_) => tree.push(String::from_str(rt.alloc(), top)?)?,
        Err(error) if is_absent(&error) => return Ok(tree),
        Err(error) => return Err(error),
    }
    for at in 0..usize::MAX {
        let Some(path) = tree.get(at) else {
            break;
        };
        let mut inside = entries_of(rt, path.as_str())?;
        tree.append(&mut inside)?;
    }
    Ok(tree)
}

/// The paths of all that a folder holds under a name of the directory; nothing where the path isn't a folder that may be
/// entered.
fn entries_of<R: Files + AllocGlobal + Clone + Drop>(
    rt: &R,
    path: &str,
) -> io::Result<Vec<String>> {
    let mut entries = Vec::new(rt.alloc());
    if is_folder(rt, path)? && !is_shut(rt, path)? {
        for entry in fs::read_dir(rt, path)? {
            if let Some(entry) = named(rt, entry)? {
                entries.push(entry)?;
            }
        }
    }
    Ok(entries)
}

/// The path of an entry of a folder, where its name is one of the directory's.
fn named<R: Files + AllocGlobal + Drop>(
    rt: &R,
    entry: io::Result<DirEntry<R>>,
) -> io::Result<Option<String>> {
    let entry = match entry {
        Ok(entry) => entry,
        Err(error) if error.kind() == ErrorKind::InvalidFilename => return Ok(None),
        Err(error) => return Err(error),
    };
    match Name::new(rt.alloc(), entry.file_name().as_bytes()) {
        Ok(Some(_)) => Ok(Some(String::from_str(rt.alloc(), entry.path().as_str())?)),
        Ok(None) => Ok(None),
        Err(_) => Err(Error::from(ErrorKind::OutOfMemory)),
    }
}

/// Makes sure that a file or a folder stays as it is; a path where nothing is does.
pub(crate) fn sync(files: &impl Files, path: &str) -> io::Result<()> {
    match fs::open(files, path) {
        Ok(file) => file.sync_all(),
        Err(error) if is_absent(&error) => Ok(()),
        Err(error) => Err(error),
    }
}

/// Syncs what is at a path of a directory. A link is an error, since what it leads to may lie anywhere; what is neither a
/// file nor a folder, and a folder that may not be entered, has nothing to sync.
fn sync_entry<R: Files + AllocGlobal>(rt: &R, path: &str) -> io::Result<()> {
    match fs::symlink_metadata(rt, path) {
        Ok(found) if found.is_symlink() => Err(Error::from(ErrorKind::FilesystemLoop)),
        Ok(found) if found.is_file() => sync(rt, path),
        Ok(found) if found.is_dir() && !is_shut(rt, path)? => sync(rt, path),
        Ok(_) => Ok(()),
        Err(error) if is_absent(&error) => Ok(()),
        Err(error) => Err(error),
    }
}

/// Makes sure that all files and folders at and under the path stay as they are.
pub(crate) fn sync_tree<R: Files + AllocGlobal + Clone + Drop>(
    rt: &R,
    top: &str,
) -> io::Result<()> {
    for path in tree_at(rt, top)? {
        sync_entry(rt, path.as_str())?;
    }
    Ok(())
}

/// Syncs so many folders above a path, from below.
pub(crate) fn sync_above(files: &impl Files, path: &str, above: usize) -> io::Result<()> {
    let mut folder = path;
    for _ in 0..above {
        folder = parent_of(folder);
        sync(files, folder)?;
    }
    Ok(())
}

/// Removes a folder that holds no file, with all folders in it. It removes no file.
pub(crate) fn clear_folder<R: Files + AllocGlobal + Clone + Drop>(
    rt: &R,
    top: &str,
) -> io::Result<()> {
    for path in tree_at(rt, top)?.iter().rev() {
        fs::remove_dir(rt, path.as_str())?;
    }
    Ok(())
}

/// Removes all that a folder holds, and leaves the folder.
pub(crate) fn empty_folder<R: Files + AllocGlobal + Clone + Drop>(
    rt: &R,
    path: &str,
) -> io::Result<()> {
    for entry in fs::read_dir(rt, path)? {
        remove_any(rt, entry?.path().as_str())?;
    }
    Ok(())
}

/// Removes all at and under the path; nothing may be there. Of a link it removes the link alone.
pub(crate) fn remove_any<R: Files + AllocGlobal>(rt: &R, path: &str) -> io::Result<()> {
    let removed = if is_folder(rt, path)? {
        fs::remove_dir_all(rt, path)
    } else {
        fs::remove_file(rt, path)
    };
    match removed {
        Err(error) if is_absent(&error) => Ok(()),
        answer => answer,
    }
}

/// The path of the folder that a path lies in.
pub(crate) fn parent_of(path: &str) -> &str {
    match path.rfind('/') {
        Some(0) => "/",
        Some(at) => &path[..at],
        None => ".",
    }
}

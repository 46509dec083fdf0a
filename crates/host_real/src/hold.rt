use crate::machine::Machine;
use crate::tree::{joined, remove_any, sync};
use std::alloc::AllocGlobal;
use std::io::ErrorKind;
use std::rt::Files;
use std::time::Duration;
use std::{fs, io, thread};

/// How the name of a folder begins in which the children of one run write. No path of a directory has such a name, so no
/// file in it is one of the directory's.
const OWN: &str = "run+";

/// How often a folder that another process has is asked for again.
const TRIES: u32 = 20;

/// How many milliseconds it is waited for before each of these.
const PAUSE: u64 = 50;

/// Whether a site has its work folder.
#[derive(Drop)]
pub(crate) enum Hold<F> {
    /// No call has needed it yet.
    Open,
    /// It is this site's.
    Held(Held<F>),
    /// Another process has it.
    InUse,
}

/// What a site has of its work folder.
#[derive(Drop)]
pub(crate) struct Held<F> {
    /// The folder, open and locked; nothing where the file system has no locks.
    lock: Option<F>,
    /// The place of the folder in which the children of this run write; it is there while a child runs.
    pub(crate) own: String,
}

/// Takes a work folder, which is made where it is missing, and takes away what the children of other runs left on the side.
pub(crate) fn take<R: Machine>(rt: &R, work: &str) -> io::Result<Hold<R::File>> {
    make_folder(rt, work)?;
    let folder = fs::open(rt, work)?;
    let lock = match lock(rt, &folder) {
        Ok(true) => Some(folder),
        Ok(false) => return Ok(Hold::InUse),
        Err(_) => None,
    };
    if lock.is_some() {
        clear_others(rt, work)?;
    }
    let own = own_folder(rt, work)?;
    Ok(Hold::Held(Held { lock, own }))
}

/// Takes the lock of a folder. Where another process has it, it waits for a second, in which a run that was killed ends.
fn lock<R: Machine>(rt: &R, folder: &R::File) -> io::Result<bool> {
    for _try in 0..TRIES {
        if R::try_lock(folder)? {
            return Ok(true);
        }
        thread::sleep(rt, Duration::from_millis(PAUSE));
    }
    R::try_lock(folder)
}

/// Makes a folder and those above it where they are missing, and makes sure that each one that was made stays.
fn make_folder<R: Files + AllocGlobal>(rt: &R, path: &str) -> io::Result<()> {
    for end in 1..path.len() {
        match path.split_at_checked(end) {
            Some((above, below)) if below.starts_with('/') => make_one(rt, above)?,
            _ => {}
        }
    }
    make_one(rt, path)?;
    sync_beside(rt, path, "/..")
}

/// Makes a folder where none is, and makes sure that it stays; so does the one in which it lies, which a run that was
/// stopped may have made.
fn make_one<R: Files + AllocGlobal>(rt: &R, path: &str) -> io::Result<()> {
    match fs::create_dir(rt, path) {
        Ok(()) => {
            sync_beside(rt, path, "/../..")?;
            sync(rt, joined(rt, path, "/..")?.as_str())
        }
        Err(error) => match fs::metadata(rt, path) {
            Ok(found) if found.is_dir() => Ok(()),
            _ => Err(error),
        },
    }
}

/// Syncs a folder that was there before, as far as that is allowed and its file system has it.
fn sync_beside<R: Files + AllocGlobal>(rt: &R, path: &str, way: &str) -> io::Result<()> {
    match sync(rt, joined(rt, path, way)?.as_str()) {
        Err(error) if error.kind() == ErrorKind::PermissionDenied => Ok(()),
        Err(error) if error.kind() == ErrorKind::InvalidInput => Ok(()),
        answer => answer,
    }
}

/// Takes away the folders in which the children of other runs wrote. Such a child may still be there; what it leaves then
/// is in nobody's way.
fn clear_others<R: Machine>(rt: &R, work: &str) -> io::Result<()> {
    for entry in fs::read_dir(rt, work)? {
        match entry {
            Ok(entry) if entry.file_name().starts_with(OWN) => {
                let _ = remove_any(rt, entry.path().as_str());
            }
            _ => {}
        }
    }
    Ok(())
}

/// The place of a folder that no other run has.
fn own_folder<R: Machine>(rt: &R, work: &str) -> io::Result<String> {
    let mut bytes = [0u8; 8];
    rt.fill_bytes(&mut bytes)?;
    let number = u64::from_ne_bytes(bytes);
    Ok(format!(in rt.alloc(); "{work}/{OWN}{number}")?)
}

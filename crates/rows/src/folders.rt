use crate::directory::word;
use crate::reading::{attempt_of, path_of, small_of};
use crate::trouble::Trouble;
use crate::world::World;
use crate::writing::text;
use committer::{
    CommitFault, attempt_output, begin_sealed, commit_job, commit_task, drop_folder, is_whole,
    open_folder, task_output,
};
use peg_base::{Path, Phase};
use std::alloc::Global;

/// The most names of a folder that the committer or the store is asked for.
pub(crate) const DEEPEST: usize = 5;

fn of_fault(alloc: Global, fault: CommitFault) -> Result<Vec<u8>, Trouble> {
    text(
        alloc,
        match fault {
            CommitFault::Disk => b"disk",
            CommitFault::NoMemory => b"memory",
        },
    )
}

fn of_commit(alloc: Global, answer: Result<(), CommitFault>) -> Result<Vec<u8>, Trouble> {
    match answer {
        Ok(()) => text(alloc, b"ok"),
        Err(fault) => of_fault(alloc, fault),
    }
}

/// `FOLDER`
pub(crate) fn whole(
    alloc: Global,
    world: &mut World,
    args: &[Vec<u8>],
) -> Result<Vec<u8>, Trouble> {
    let folder = path_of(alloc, word(args, 0))?;
    if world.site.site.running() != 0 || folder.names().len() > DEEPEST {
        return Err(Trouble::Misread);
    }
    match is_whole(alloc, &mut world.site, &folder) {
        Ok(true) => text(alloc, b"yes"),
        Ok(false) => text(alloc, b"no"),
        Err(fault) => of_fault(alloc, fault),
    }
}

/// `FOLDER`
pub(crate) fn drop_it(
    alloc: Global,
    world: &mut World,
    args: &[Vec<u8>],
) -> Result<Vec<u8>, Trouble> {
    let folder = path_of(alloc, word(args, 0))?;
    if world.site.site.running() != 0 || folder.names().len() > DEEPEST {
        return Err(Trouble::Misread);
    }
    of_commit(alloc, drop_folder(alloc, &mut world.site, &folder))
}

/// `FOLDER`
pub(crate) fn open(alloc: Global, world: &mut World, args: &[Vec<u8>]) -> Result<Vec<u8>, Trouble> {
    let folder = path_of(alloc, word(args, 0))?;
    if world.site.site.running() != 0 || folder.names().len() > DEEPEST {
        return Err(Trouble::Misread);
    }
    of_commit(alloc, open_folder(alloc, &mut world.site, &folder))
}

/// Makes a folder of one part, which has this text.
fn sealed(
    alloc: Global,
    world: &mut World,
    folder: &Path,
    part: &[u8],
) -> Result<Result<(), CommitFault>, Trouble> {
    if world.site.site.running() != 0 || folder.names().len() > DEEPEST {
        return Err(Trouble::Misread);
    }
    let mut sealing = match begin_sealed(alloc, &mut world.site, folder) {
        Ok(sealing) => sealing,
        Err(fault) => return Ok(Err(fault)),
    };
    if let Err(fault) = sealing.piece(alloc, &mut world.site, part) {
        return Ok(Err(fault));
    }
    Ok(sealing.finish(alloc, &mut world.site))
}

/// `FOLDER TEXT`
pub(crate) fn seal(alloc: Global, world: &mut World, args: &[Vec<u8>]) -> Result<Vec<u8>, Trouble> {
    let folder = path_of(alloc, word(args, 0))?;
    let answer = sealed(alloc, world, &folder, word(args, 1))?;
    of_commit(alloc, answer)
}

/// `ATTEMPT`: commits the output of an attempt, which lies where its child leaves it.
pub(crate) fn task(alloc: Global, world: &mut World, args: &[Vec<u8>]) -> Result<Vec<u8>, Trouble> {
    let attempt = attempt_of(alloc, word(args, 0))?;
    let folder = attempt.task.job.copy(alloc)?;
    if world.site.site.running() != 0 || folder.names().len() > DEEPEST {
        return Err(Trouble::Misread);
    }
    of_commit(
        alloc,
        commit_task(alloc, &mut world.site, &folder, &attempt),
    )
}

/// `FOLDER PARTS`
pub(crate) fn commit(
    alloc: Global,
    world: &mut World,
    args: &[Vec<u8>],
) -> Result<Vec<u8>, Trouble> {
    let folder = path_of(alloc, word(args, 0))?;
    let parts = small_of(word(args, 1))?;
    if world.site.site.running() != 0 || folder.names().len() > DEEPEST || parts > 64 {
        return Err(Trouble::Misread);
    }
    of_commit(alloc, commit_job(alloc, &mut world.site, &folder, parts))
}

/// `ATTEMPT TEXT`: writes what the child of an attempt leaves.
pub(crate) fn put_output(
    alloc: Global,
    world: &mut World,
    args: &[Vec<u8>],
) -> Result<(), Trouble> {
    let attempt = attempt_of(alloc, word(args, 0))?;
    if attempt.task.job.names().len() > DEEPEST {
        return Err(Trouble::Misread);
    }
    let path = attempt_output(alloc, &attempt.task.job, &attempt)?;
    world.put(alloc, &path, word(args, 1))
}

/// `FOLDER NUMBER TEXT`: writes what the commit of a reduce task leaves.
pub(crate) fn put_part(alloc: Global, world: &mut World, args: &[Vec<u8>]) -> Result<(), Trouble> {
    let folder = path_of(alloc, word(args, 0))?;
    let part = small_of(word(args, 1))?;
    if folder.names().len() > DEEPEST {
        return Err(Trouble::Misread);
    }
    let path = task_output(alloc, &folder, Phase::Reduce, part)?;
    world.put(alloc, &path, word(args, 2))
}

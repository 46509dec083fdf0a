ghost use Rattle.std.specs.Prelude.{◌≡◌, [], All, IfOk};
ghost use Rattle.dir_mem.specs.Images.{CanBegin, image_of};
ghost use Rattle.dir_mem.specs.Memory.{lent_of};

use crate::edges::Edges;
use crate::trouble::Trouble;
use dir_disk::{Dir, DirFault};
use dir_mem::{Image, MemDir};
use peg_base::Path;
use rows_tools::TriedSite;
use run_mem::Bundled;
use site_mem::MemSite;
use std::alloc::Global;

/// What the steps of a row are about: a site in memory.
#[derive(Drop)]
pub(crate) struct World {
    pub site: TriedSite<Bundled>,
    /// How many calls of the directory had been made before the action that is tried.
    pub start: u64,
    /// The call of the directory that fails in an action that is tried so.
    pub failing: Option<u64>,
    /// What had been said before the stop that left the files of this world.
    pub before: Vec<u8>,
    /// The edges that a run reads.
    pub edges: Edges,
    /// How many bytes had been said in this world when the last run began.
    pub heard: usize,
    /// How many vectors were whole then, from that of iteration 0 on.
    pub vectors: u64,
}

/// The images of now. A directory can be made from each.
fn images_of_now(alloc: Global, dir: &MemDir) -> Result<Vec<Image>, Trouble>
    ensures { IfOk result (λ images. All (λ image. CanBegin (image_of image)) images.items) }
{
    Ok(dir.images(alloc, dir.calls())?)
}

/// A directory that begins with the files of this one, all of which were settled.
fn begun(alloc: Global, dir: &MemDir) -> Result<MemDir, Trouble>
    ensures { IfOk result (λ dir. lent_of dir ≡ []) }
{
    let mut images = images_of_now(alloc, dir)?;
    let Some(image) = images.pop() else {
        return Err(Trouble::Misread);
    };
    Ok(MemDir::from_image(alloc, image)?)
}

/// A site over a directory that begins with the files of this one, all of which were settled.
fn site_begun(alloc: Global, dir: &MemDir) -> Result<TriedSite<Bundled>, Trouble> {
    let dir = begun(alloc, dir)?;
    Ok(TriedSite::new(alloc, MemSite::new(alloc, dir, Bundled)))
}

impl World {
    /// A world without files, whose calls of the directory of these numbers fail.
    pub(crate) fn new(alloc: Global, fail: Vec<u64>) -> World {
        let mut dir = MemDir::new(alloc);
        dir.fail(fail);
        World {
            site: TriedSite::new(alloc, MemSite::new(alloc, dir, Bundled)),
            start: 0,
            failing: None,
            before: Vec::new(alloc),
            edges: Edges::new(alloc),
            heard: 0,
            vectors: 0,
        }
    }

    /// The world that a stop before the call of this number leaves, with the files of one of its images for good.
    pub(crate) fn after_stop(
        &self,
        alloc: Global,
        moment: u64,
        image: &Image,
    ) -> Result<World, Trouble> {
        let mut world = World::new(alloc, Vec::new(alloc));
        for (path, bytes) in image {
            world.put(alloc, path, bytes)?;
        }
        world.start = world.calls();
        world.before.extend_from_slice(self.site.said_by(moment))?;
        world.edges.copy_from(&self.edges)?;
        Ok(world)
    }

    /// Settles all, and goes on at a new site whose directory begins with the files that are there.
    pub(crate) fn begin(&mut self, alloc: Global) -> Result<(), Trouble> {
        let Ok(()) = self.settle(alloc, &Path::root(alloc)) else {
            return Err(Trouble::Misread);
        };
        self.site = site_begun(alloc, self.site.site.dir())?;
        self.start = 0;
        Ok(())
    }

    /// Writes a file that is there for good.
    pub(crate) fn put(&mut self, alloc: Global, path: &Path, bytes: &[u8]) -> Result<(), Trouble> {
        let Ok(()) = self.append(alloc, path, bytes) else {
            return Err(Trouble::Misread);
        };
        let Ok(()) = self.settle(alloc, path) else {
            return Err(Trouble::Misread);
        };
        Ok(())
    }

    /// Each of the next six calls is tried: where something that it names is lent, there is no memory.
    pub(crate) fn append(
        &mut self,
        alloc: Global,
        path: &Path,
        bytes: &[u8],
    ) -> Result<(), DirFault> {
        if !self.site.site.dir().is_free(path) {
            return Err(DirFault::NoMemory);
        }
        self.site.append(alloc, path, bytes)
    }

    pub(crate) fn settle(&mut self, alloc: Global, path: &Path) -> Result<(), DirFault> {
        if !self.site.site.dir().is_free(path) {
            return Err(DirFault::NoMemory);
        }
        self.site.settle(alloc, path)
    }

    pub(crate) fn remove(&mut self, alloc: Global, path: &Path) -> Result<(), DirFault> {
        if !self.site.site.dir().is_free(path) {
            return Err(DirFault::NoMemory);
        }
        self.site.remove_tree(alloc, path)
    }

    pub(crate) fn move_tree(
        &mut self,
        alloc: Global,
        from: &Path,
        to: &Path,
    ) -> Result<(), DirFault> {
        if !self.site.site.dir().is_free(from) || !self.site.site.dir().is_free(to) {
            return Err(DirFault::NoMemory);
        }
        self.site.move_tree(alloc, from, to)
    }

    pub(crate) fn size(&mut self, alloc: Global, path: &Path) -> Result<Option<u64>, DirFault> {
        if !self.site.site.dir().is_no_output(path) {
            return Err(DirFault::NoMemory);
        }
        self.site.size(alloc, path)
    }

    pub(crate) fn read(
        &mut self,
        alloc: Global,
        path: &Path,
        from: u64,
        max: u32,
    ) -> Result<Vec<u8>, DirFault> {
        if !self.site.site.dir().is_no_output(path) {
            return Err(DirFault::NoMemory);
        }
        self.site.read(alloc, path, from, max)
    }

    /// How many calls of the directory were made.
    pub(crate) fn calls(&self) -> u64 {
        self.site.site.dir().calls()
    }

    /// How many of them since the action that is tried began.
    pub(crate) fn calls_since_start(&self) -> u64 {
        self.calls().saturating_sub(self.start)
    }

    /// How many of them after the one that fails.
    pub(crate) fn calls_since_fault(&self) -> Option<u64> {
        self.calls().checked_sub(self.failing?.saturating_add(1))
    }

    /// How many children run.
    pub(crate) fn running(&self) -> u64 {
        self.site.site.running() as u64
    }

    /// What was said since the last run began, or in this world where there was none.
    pub(crate) fn said(&self) -> &[u8] {
        let all = self.site.site.said();
        all.get(self.heard..).unwrap_or(all)
    }

    /// What a file has now.
    pub(crate) fn content(&self, path: &Path) -> Option<&[u8]> {
        self.site.site.dir().content(path)
    }

    /// The files that are there now.
    pub(crate) fn files(&self, alloc: Global) -> Result<Image, Trouble> {
        Ok(self.site.site.dir().files(alloc)?)
    }

    /// What a stop before the call of this number may leave.
    pub(crate) fn images(&self, alloc: Global, moment: u64) -> Result<Vec<Image>, Trouble> {
        if moment > self.site.site.dir().calls() {
            return Err(Trouble::Misread);
        }
        Ok(self.site.site.dir().images(alloc, moment)?)
    }
}

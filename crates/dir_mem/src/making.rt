ghost use Rattle.std.specs.Prelude.{◌≡◌, ◌≢◌, ◌^◌, ◌≤◌, [], length, IfOk, OnOk};
ghost use Rattle.dir_disk.specs.State.{no_files};
ghost use Rattle.dir_mem.specs.Images.{CanBegin, with_settled, image_of, settled_files};
ghost use Rattle.dir_mem.specs.Log.{AddsStep, state_of};
ghost use Rattle.dir_disk.specs.Moments.{clock, files};
ghost use Rattle.dir_mem.specs.Memory.{fail_of, faults_of, lent_of, told_of};
ghost use Rattle.dir_mem.specs.Traces.{content_of};

use crate::images::Image;
use crate::log::{Change, content_at};
use crate::mem_dir::MemDir;
use crate::traces::Trace;
use dir_disk::Dir;
use peg_base::Path;
use peg_text::NoMemory;
use std::alloc::Global;

impl MemDir {
    /// A directory without files. No call was made, nothing is lent, and no call is to fail.
    pub fn new(alloc: Global) -> MemDir
        ensures tells { ⟦<MemDir as Dir>⟧.tells }
        ensures start { (told_of result).count ≡ 0 }
        ensures calls { clock (told_of result) ≡ 0 }
        ensures empty { files (told_of result) ≡ no_files }
        ensures lent { lent_of result ≡ [] }
        ensures fail { fail_of result ≡ [] }
        ensures faults { faults_of result ≡ 0 }
    {
        MemDir {
            steps: Vec::new(alloc),
            paths: Vec::new(alloc),
            lent: Vec::new(alloc),
            fail: Vec::new(alloc),
            calls: 0,
            faults: 0,
        }
    }

    /// A directory that has the files of the image for good. No call was made, nothing is lent, and no call is to fail.
    pub fn from_image(alloc: Global, mut image: Image) -> Result<MemDir, NoMemory>
        requires { CanBegin (image_of image) }
        ensures tells { ⟦<MemDir as Dir>⟧.tells }
        ensures calls { IfOk result (λ dir. clock (told_of dir) ≡ 0) }
        ensures files { IfOk result (λ dir. files (told_of dir) ≡ settled_files (image_of image)) }
        ensures lent { IfOk result (λ dir. lent_of dir ≡ []) }
        ensures fail { IfOk result (λ dir. fail_of dir ≡ []) }
        ensures faults { IfOk result (λ dir. faults_of dir ≡ 0) }
    {
        let mut dir = MemDir::new(alloc);
        while let Some((path, bytes)) = image.pop_last() {
            dir.start_with(alloc, path, bytes)?;
        }
        Ok(dir)
    }

    /// Adds a file that is there for good, between two calls, while nothing is lent.
    fn start_with(&mut self, alloc: Global, path: Path, bytes: Vec<u8>) -> Result<(), NoMemory>
        requires named { path ≢ [] }
        requires short { length bytes.items ≤ 2 ^ 50 }
        requires lent { self.old.lent.items ≡ [] }
        ensures ok { OnOk result (AddsStep 0 self.old.steps.items self.new.steps.items
            (with_settled path bytes.items (state_of self.old.steps.items))) }
        ensures lent { self.new.lent.items ≡ [] }
        ensures fail { self.new.fail ≡ self.old.fail }
        ensures faults { self.new.faults ≡ self.old.faults }
    {
        let mut may = Vec::new(alloc);
        may.push(Trace::Bytes(Vec::from_slice(alloc, &bytes)?))?;
        self.list_one(alloc, &path)?;
        self.add_change(Change {
            path,
            now: Some(bytes),
            may: Some(may),
        })
    }

    /// From now on the calls of these numbers fail, counted from 0 over the life of the directory, in place of those that
    /// were named before.
    pub fn fail(&mut self, calls: Vec<u64>)
        ensures fail { fail_of self.new ≡ calls.items }
        ensures told { told_of self.new ≡ told_of self.old }
        ensures lent { lent_of self.new ≡ lent_of self.old }
        ensures faults { faults_of self.new ≡ faults_of self.old }
    {
        self.fail = calls;
    }

    /// The bytes of the file that is at the path now, or `None` where no file is. It is no call.
    pub fn content(&self, path: &Path) -> Option<&[u8]>
        ensures { content_of result ≡ (files (told_of self.now) path.now).now }
    {
        content_at(&self.steps, path)
    }

    /// How many calls were made.
    pub fn calls(&self) -> u64
        ensures { result ≡ clock (told_of self.now) }
    {
        self.calls
    }
}

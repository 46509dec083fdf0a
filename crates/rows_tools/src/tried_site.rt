ghost use Rattle.std.specs.Prelude.{Some};
ghost use Rattle.std.proofs.Common.{ap, refl};
ghost use Rattle.dir_disk.specs.Children.{loans_of};
ghost use Rattle.dir_disk.specs.Moments.{clock};
ghost use Rattle.dir_mem.specs.Memory.{faults_of, told_of};

use dir_disk::{Console, Dir, DirFault, Ended, SayFault, Site, StartFault};
use peg_base::{Attempt, Path, Words};
use site_mem::{MemSite, Roles};
use std::alloc::Global;

/// How many bytes were said in all, up to a say at this moment.
#[derive(Clone, Copy)]
struct Mark {
    moment: u64,
    said: usize,
}

/// A site in memory that tries what a call needs when it is made, where a caller would prove it: one that may not be made
/// answers that there is no memory. It also knows what was said by each moment.
#[derive(Drop)]
pub struct TriedSite<R: Roles + Drop> {
    pub site: MemSite<R>,
    marks: Vec<Mark>,
}

impl<R: Roles + Drop> TriedSite<R> {
    /// The site, at which nothing was said yet.
    pub fn new(alloc: Global, site: MemSite<R>) -> TriedSite<R> {
        TriedSite {
            site,
            marks: Vec::new(alloc),
        }
    }

    /// What was said before the call of the directory of this number.
    pub fn said_by(&self, moment: u64) -> &[u8] {
        let mut said = 0;
        for mark in &self.marks {
            if mark.moment <= moment {
                said = mark.said;
            }
        }
        let all = self.site.said();
        all.get(..said).unwrap_or(all)
    }

    /// Starts a child, with all that a start needs tried.
    pub fn launch(
        &mut self,
        alloc: Global,
        attempt: &Attempt,
        words: &Words,
        input: &Path,
        output: &Path,
    ) -> Result<(), StartFault> {
        if words.len() == 0 {
            return Err(StartFault::NoMemory);
        }
        if !self.site.dir().is_no_output(input) || !self.site.dir().is_free(output) {
            return Err(StartFault::NoMemory);
        }
        self.start(alloc, attempt, words, input, output)
    }

    /// Waits for the end of a child, where one runs.
    pub fn wait(&mut self) -> Option<Ended> {
        if self.site.running() == 0 {
            return None;
        }
        Some(self.reap())
    }
}

impl<R: Roles + Drop> Dir for TriedSite<R> {
    ghost use Rattle.std.specs.Prelude.{ℕ, List};
    ghost use Rattle.dir_disk.specs.Children.{Given, Seen, loans_of};
    ghost use Rattle.dir_mem.specs.Memory.{fail_of, faults_of, told_of};
    ghost use Rattle.site_mem.specs.Voices.{Voiced};
    ghost use Rattle.site_mem.specs.Plans.{Planned};

    ghost tells = { ⊥ };

    ghost told = { λ s. told_of s.site.dir };

    ghost lent = { λ s. loans_of s.site.seen.running };

    ghost faults = { λ s. faults_of s.site.dir };

    ghost Beside = { Seen × List Given × Voiced × Planned × List ℕ };

    ghost beside = { λ s. (s.site.seen, s.site.given, s.site.voice, s.site.plan, fail_of s.site.dir) };

    fn size(&mut self, alloc: Global, path: &Path) -> Result<Option<u64>, DirFault> {
        self.site.size(alloc, path)
    }

    fn read(
        &mut self,
        alloc: Global,
        path: &Path,
        from: u64,
        max: u32,
    ) -> Result<Vec<u8>, DirFault> {
        if !self.site.dir().has_file(path) {
            return Err(DirFault::NoMemory);
        }
        self.site.read(alloc, path, from, max)
    }

    fn append(&mut self, alloc: Global, path: &Path, bytes: &[u8]) -> Result<(), DirFault> {
        if !self.site.dir().can_append(path) {
            return Err(DirFault::NoMemory);
        }
        self.site.append(alloc, path, bytes)
    }

    fn move_tree(&mut self, alloc: Global, from: &Path, to: &Path) -> Result<(), DirFault> {
        if !self.site.dir().can_move(from, to) {
            return Err(DirFault::NoMemory);
        }
        self.site.move_tree(alloc, from, to)
    }

    fn remove_tree(&mut self, alloc: Global, path: &Path) -> Result<(), DirFault> {
        self.site.remove_tree(alloc, path)
    }

    fn settle(&mut self, alloc: Global, path: &Path) -> Result<(), DirFault> {
        self.site.settle(alloc, path)
    }

    ghost clock = { λ s early late tells. absurd tells };

    ghost now_allowed = { λ s path tells. absurd tells };

    ghost short_files = { λ s path bytes tells. absurd tells };

    ghost top_is_no_file = { λ s content tells. absurd tells };
}

impl<R: Roles + Drop> Console for TriedSite<R> {
    ghost use Rattle.std.specs.Prelude.{List, Some};
    ghost use Rattle.dir_disk.specs.Children.{Given, Seen};
    ghost use Rattle.dir_disk.specs.Moments.{clock};
    ghost use Rattle.dir_mem.specs.declared.mem_dir.MemDir.{MemDir};
    ghost use Rattle.dir_mem.specs.Memory.{told_of};
    ghost use Rattle.site_mem.specs.Plans.{Planned};

    ghost said = { λ s. Some s.site.voice.said };

    ghost says = { λ s. Some s.site.voice.says };

    ghost moment = { λ s. clock (told_of s.site.dir) };

    ghost say_faults = { λ s. s.site.voice.faults };

    ghost Beside = { MemDir × Seen × List Given × Planned };

    ghost beside = { λ s. (s.site.dir, s.site.seen, s.site.given, s.site.plan) };

    fn say(&mut self, alloc: Global, bytes: &[u8]) -> Result<(), SayFault> {
        if self.marks.reserve(1).is_err() {
            return Err(SayFault::NoMemory);
        }
        if let Err(fault) = self.site.say(alloc, bytes) {
            return Err(fault);
        }
        let mark = Mark {
            moment: self.site.dir().calls(),
            said: self.site.said().len(),
        };
        // There is room for it.
        let _ = self.marks.push(mark);
        Ok(())
    }
}

impl<R: Roles + Drop> Site for TriedSite<R> {
    ghost use Rattle.std.specs.Prelude.{Some};
    ghost use Rattle.std.proofs.Common.{ap, refl};
    ghost use Rattle.dir_disk.specs.Children.{loans_of};
    ghost use Rattle.dir_disk.specs.Moments.{clock};
    ghost use Rattle.dir_mem.specs.Memory.{faults_of, told_of};

    ghost seen = { λ s. s.site.seen };

    ghost given = { λ s. s.site.given };

    ghost gives = { R.gives };

    fn start(
        &mut self,
        alloc: Global,
        attempt: &Attempt,
        words: &Words,
        input: &Path,
        output: &Path,
    ) -> Result<(), StartFault> {
        if !self.site.dir().can_lend(input, output) {
            return Err(StartFault::NoMemory);
        }
        self.site.start(alloc, attempt, words, input, output)
    }

    fn reap(&mut self) -> Ended {
        self.site.reap()
    }

    ghost beside_dir = { λ s t same. (ap (λ b. b.0) same, (λ tells. absurd tells), ap (λ b. Some b.2.said) same, ap (λ b. Some b.2.says) same, ap (λ b. b.2.faults) same) };

    ghost beside_console = { λ s t same. (ap (λ b. b.1) same, (λ tells. absurd tells), ap (λ b. loans_of b.1.running) same, ap (λ b. faults_of b.0) same) };

    ghost lent_to_children = { λ s. refl };

    ghost tells_says = { λ s tells. absurd tells };

    ghost say_moment = { λ s tells. absurd tells };
}

ghost use Rattle.std.specs.Prelude.{◌≡◌, ◌≤◌, ◌^◌, ℕ, [], None, Ok, IfOk, IfSome, IsErr, IsErrOf, MatchResult, length, refl};
ghost use Rattle.std.proofs.Common.{ap};
ghost use Rattle.dir_disk.specs.Causes.{HasCause};
ghost use Rattle.dir_disk.specs.State.{no_files};
ghost use Rattle.dir_disk.specs.Children.{Seen, loans_of};

use crate::children::{Children, Places};
use crate::hold::{Hold, take};
use crate::machine::Machine;
use crate::open_files::{LONGEST, OpenFiles};
use crate::progress::{Event, Progress, Teller};
use crate::std_streams::say_on;
use crate::tree::{
    clear_folder, empty_folder, is_absent, is_folder, is_no_memory, midway, parent_of, remove_any,
    sync_above, sync_tree,
};
use dir_disk::{Console, Dir, DirFault, Ended, SayFault, Site, StartFault};
use peg_base::{Attempt, Path, Words};
use peg_text::NoMemory;
use std::alloc::Global;
use std::io::{Error, ErrorKind};
use std::{fs, io};

/// A work folder of the machine with standard output beside it, at which children are started. It tells no content.
///
/// Folders are made where a file is written, and may be left without files; a folder without files counts as not there.
/// The first call that changes or settles something takes the work folder, which is made where it is missing, for this
/// process; where another process has it, that call fails, and so does each one after it.
#[derive(Drop)]
pub struct HostSite<'r, R: Machine> {
    rt: &'r R,
    work: String,
    child: String,
    hold: Hold<R::File>,
    open: OpenFiles<R>,
    children: Children<R>,
    teller: Teller,
    faults: u64,
    say_faults: u64,
}

impl<'r, R: Machine> HostSite<'r, R> {
    /// A site over the folder of this path, which need not be there yet, with the program that is to stand for `pegchild`.
    pub fn new(
        rt: &'r R,
        alloc: Global,
        work: &str,
        child: &str,
        progress: Progress,
    ) -> Result<HostSite<'r, R>, NoMemory>
        ensures faults { IfOk result (λ site. ⟦<HostSite<'r, R> as Dir>⟧.faults site ≡ 0) }
        ensures say_faults { IfOk result (λ site. ⟦<HostSite<'r, R> as Console>⟧.say_faults site ≡ 0) }
        ensures seen { IfOk result (λ site. ⟦<HostSite<'r, R> as Site>⟧.seen site ≡ record { running = []; log = []; start_faults = 0 }) }
    {
        Ok(HostSite {
            rt,
            work: String::from_str(alloc, folder_of(work))?,
            child: String::from_str(alloc, child)?,
            hold: Hold::Open,
            open: OpenFiles::new(),
            children: Children::new(alloc),
            teller: Teller::new(progress),
            faults: 0,
            say_faults: 0,
        })
    }

    /// Whether another process has the work folder, so that calls failed.
    pub fn is_in_use(&self) -> bool {
        matches!(self.hold, Hold::InUse)
    }

    /// Takes the work folder where that was not done yet.
    fn hold(&mut self) -> io::Result<()>
        ensures faults { self.new.faults ≡ self.old.faults }
        ensures say_faults { self.new.say_faults ≡ self.old.say_faults }
        ensures children { self.new.children ≡ self.old.children }
    {
        if matches!(self.hold, Hold::Open) {
            self.hold = take(self.rt, self.work.as_str())?;
        }
        match self.hold {
            Hold::Held(_) => Ok(()),
            _ => Err(Error::from(ErrorKind::ResourceBusy)),
        }
    }

    /// The path of a file or a folder on the machine. That of the work folder leads through a link.
    fn place_of(&self, alloc: Global, path: &Path) -> Result<String, NoMemory> {
        let mut place = String::from_str(alloc, self.work.as_str())?;
        for name in path.names() {
            place.push('/')?;
            place.push_str(name.text())?;
        }
        if path.names().is_empty() {
            place.push_str("/.")?;
        }
        Ok(place)
    }

    /// The places of a child that is started next.
    fn places_of(&self, alloc: Global, input: &Path, output: &Path) -> Result<Places, NoMemory> {
        let own = match &self.hold {
            Hold::Held(held) => held.own.as_str(),
            _ => "",
        };
        let number = self.children.starts();
        Ok(Places {
            input: self.place_of(alloc, input)?,
            own: format!(in alloc; "{own}/{number}")?,
            output: self.place_of(alloc, output)?,
        })
    }

    /// Takes away the folder in which children write, where none runs.
    fn leave_own(&self) {
        if let Hold::Held(held) = &self.hold {
            if self.children.is_idle() {
                let _ = fs::remove_dir(self.rt, held.own.as_str());
            }
        }
    }

    /// What a call answers, with its fault counted. Want of memory is none; the calls say so only where no file was changed.
    fn counted<T>(&mut self, answer: io::Result<T>) -> Result<T, DirFault>
        ensures answer { MatchResult answer (λ value. result ≡ Ok value) (λ _. IsErr result) }
        ensures cause { HasCause DirFault.Failed self.old.faults self.new.faults result }
        ensures no_memory { IsErrOf result DirFault.NoMemory → self.new.faults ≡ self.old.faults }
        ensures say_faults { self.new.say_faults ≡ self.old.say_faults }
        ensures children { self.new.children ≡ self.old.children }
    {
        match answer {
            Ok(value) => Ok(value),
            Err(error) if is_no_memory(&error) => Err(DirFault::NoMemory),
            Err(_) => {
                self.faults = self.faults.saturating_add(1);
                Err(DirFault::Failed)
            }
        }
    }

    /// The size of the file at a place, or `None` where no file is. A link is an error.
    fn try_size(&self, place: &str) -> io::Result<Option<u64>>
        ensures { IfOk result (λ size. IfSome size (λ n. n ≤ 2 ^ 50)) }
    {
        match fs::symlink_metadata(self.rt, place) {
            Ok(found) if found.is_symlink() => Err(Error::from(ErrorKind::FilesystemLoop)),
            Ok(found) if !found.is_file() => Ok(None),
            Ok(found) if found.len() <= LONGEST => Ok(Some(found.len())),
            Ok(_) => Err(Error::from(ErrorKind::FileTooLarge)),
            Err(error) if is_absent(&error) => Ok(None),
            Err(error) => Err(error),
        }
    }

    fn try_append(&mut self, place: String, bytes: &[u8]) -> io::Result<()>
        ensures faults { self.new.faults ≡ self.old.faults }
        ensures say_faults { self.new.say_faults ≡ self.old.say_faults }
        ensures children { self.new.children ≡ self.old.children }
    {
        self.hold()?;
        self.open.append(self.rt, place, bytes)
    }

    fn try_move(&mut self, from: &str, to: &str) -> io::Result<()>
        ensures faults { self.new.faults ≡ self.old.faults }
        ensures say_faults { self.new.say_faults ≡ self.old.say_faults }
        ensures children { self.new.children ≡ self.old.children }
    {
        self.hold()?;
        self.open.close();
        if is_folder(self.rt, to)? {
            clear_folder(self.rt, to)?;
        }
        fs::create_dir_all(self.rt, parent_of(to))?;
        fs::rename(self.rt, from, to)
    }

    /// Removes all at and under a place, but not the work folder itself.
    fn try_remove(&mut self, place: &str, above: usize) -> io::Result<()>
        ensures faults { self.new.faults ≡ self.old.faults }
        ensures say_faults { self.new.say_faults ≡ self.old.say_faults }
        ensures children { self.new.children ≡ self.old.children }
    {
        self.hold()?;
        self.open.close();
        let removed = if above == 0 {
            empty_folder(self.rt, place)
        } else {
            remove_any(self.rt, place)
        };
        removed.map_err(midway)
    }

    /// Syncs all at and under a place, and then so many folders above it, up to the work folder.
    fn try_settle(&mut self, place: &str, above: usize) -> io::Result<()>
        ensures faults { self.new.faults ≡ self.old.faults }
        ensures say_faults { self.new.say_faults ≡ self.old.say_faults }
        ensures children { self.new.children ≡ self.old.children }
    {
        self.hold()?;
        self.open.settle()?;
        sync_tree(self.rt, place)?;
        sync_above(self.rt, place, above)
    }
}

/// The path of a folder, without slashes at its end.
fn folder_of(path: &str) -> &str {
    match path.trim_end_matches('/') {
        "" if path.is_empty() => ".",
        "" => "/",
        folder => folder,
    }
}

impl<'r, R: Machine> Dir for HostSite<'r, R> {
    ghost tells = { ⊥ };

    ghost told = { λ _. record { count = 0; at = λ _. record { calls = 0; state = no_files } } };

    ghost lent = { λ site. loans_of site.children.running };

    ghost faults = { λ site. site.faults };

    ghost Beside = { Seen × ℕ };

    ghost beside = { λ site. (site.children, site.say_faults) };

    fn size(&mut self, alloc: Global, path: &Path) -> Result<Option<u64>, DirFault> {
        let Ok(place) = self.place_of(alloc, path) else {
            return Err(DirFault::NoMemory);
        };
        let answer = self.try_size(place.as_str());
        self.counted(answer)
    }

    fn read(
        &mut self,
        alloc: Global,
        path: &Path,
        from: u64,
        max: u32,
    ) -> Result<Vec<u8>, DirFault> {
        let Ok(place) = self.place_of(alloc, path) else {
            return Err(DirFault::NoMemory);
        };
        let Ok(mut bytes) = vec![in alloc; 0u8; max as usize] else {
            return Err(DirFault::NoMemory);
        };
        let answer = self.open.read(self.rt, place, from, &mut bytes);
        let len = self.counted(answer)?;
        bytes.truncate(len);
        Ok(bytes)
    }

    fn append(&mut self, alloc: Global, path: &Path, bytes: &[u8]) -> Result<(), DirFault> {
        let Ok(place) = self.place_of(alloc, path) else {
            return Err(DirFault::NoMemory);
        };
        let answer = self.try_append(place, bytes);
        self.counted(answer)
    }

    fn move_tree(&mut self, alloc: Global, from: &Path, to: &Path) -> Result<(), DirFault> {
        let (Ok(from), Ok(to)) = (self.place_of(alloc, from), self.place_of(alloc, to)) else {
            return Err(DirFault::NoMemory);
        };
        let answer = self.try_move(from.as_str(), to.as_str());
        self.counted(answer)
    }

    fn remove_tree(&mut self, alloc: Global, path: &Path) -> Result<(), DirFault> {
        let Ok(place) = self.place_of(alloc, path) else {
            return Err(DirFault::NoMemory);
        };
        let answer = self.try_remove(place.as_str(), path.names().len());
        self.counted(answer)
    }

    fn settle(&mut self, alloc: Global, path: &Path) -> Result<(), DirFault> {
        let Ok(place) = self.place_of(alloc, path) else {
            return Err(DirFault::NoMemory);
        };
        let answer = self.try_settle(place.as_str(), path.names().len());
        self.counted(answer)
    }

    ghost clock = { λ site early late tells. absurd tells };

    ghost now_allowed = { λ site path tells. absurd tells };

    ghost short_files = { λ site path bytes tells. absurd tells };

    ghost top_is_no_file = { λ site content tells. absurd tells };
}

impl<'r, R: Machine> Console for HostSite<'r, R> {
    ghost said = { λ _. None };

    ghost says = { λ _. None };

    ghost moment = { λ _. 0 };

    ghost say_faults = { λ site. site.say_faults };

    ghost Beside = { Seen × ℕ };

    ghost beside = { λ site. (site.children, site.faults) };

    fn say(&mut self, _alloc: Global, bytes: &[u8]) -> Result<(), SayFault> {
        say_on(self.rt, &mut self.say_faults, bytes)
    }
}

impl<'r, R: Machine> Site for HostSite<'r, R> {
    ghost seen = { λ site. site.children };

    ghost given = { λ _. [] };

    ghost gives = { λ _ _. [] };

    fn start(
        &mut self,
        alloc: Global,
        attempt: &Attempt,
        words: &Words,
        input: &Path,
        output: &Path,
    ) -> Result<(), StartFault> {
        let held = self.hold();
        let Ok(places) = self.places_of(alloc, input, output) else {
            return Err(StartFault::NoMemory);
        };
        let child = self.child.as_str();
        let Ok(mut command) = self.children.command(alloc, child, words, &places) else {
            return Err(StartFault::NoMemory);
        };
        self.open.close();
        let answer = self.children.start(
            self.rt,
            alloc,
            held,
            &mut command,
            places,
            attempt,
            words,
            input,
            output,
        );
        self.leave_own();
        match answer {
            Ok(()) => self.teller.tell(self.rt, attempt, Event::Started),
            Err(StartFault::Failed) => self.teller.tell(self.rt, attempt, Event::NotStarted),
            Err(StartFault::NoMemory) => {}
        }
        answer
    }

    fn reap(&mut self) -> Ended {
        let ended = self.children.reap(self.rt);
        self.leave_own();
        let event = Event::Ended(ended.status, self.children.took());
        self.teller.tell(self.rt, &ended.attempt, event);
        ended
    }

    ghost beside_dir = { λ s t same. (ap (λ b. b.0) same, (λ tells. absurd tells), refl, refl, ap (λ b. b.1) same) };

    ghost beside_console = { λ s t same. (ap (λ b. b.0) same, (λ tells. absurd tells), ap (λ b. loans_of b.0.running) same, ap (λ b. b.1) same) };

    ghost lent_to_children = { λ s. refl };

    ghost tells_says = { λ s tells. absurd tells };

    ghost say_moment = { λ s tells. absurd tells };
}

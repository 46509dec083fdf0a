ghost use Rattle.std.specs.Prelude.{◌≡◌, [], length};
ghost use Rattle.dir_disk.specs.Children.{loans_of};
ghost use Rattle.dir_mem.specs.Memory.{lent_of};

use crate::order::Order;
use crate::plan::Plan;
use crate::roles::Roles;
use crate::roster::Roster;
use crate::voice::Voice;
use dir_disk::{Dir, LogEntry};
use dir_mem::MemDir;
use peg_base::Attempt;
use std::alloc::Global;
use std::marker::Model;

/// A site in memory that tells everything. Its children run no program: what a child writes is computed when it starts.
#[derive(Drop)]
pub struct MemSite<R: Roles + Drop> {
    pub(crate) dir: MemDir,
    pub(crate) roles: R,
    pub(crate) roster: Roster<R>,
    pub(crate) voice: Voice,
    pub(crate) plan: Plan,
}

impl<R: Roles + Drop> Model for MemSite<R> {
    ghost use Rattle.std.specs.Prelude.{◌≡◌};
    ghost use Rattle.dir_disk.specs.Children.{loans_of};
    ghost use Rattle.dir_mem.specs.Memory.{lent_of};
    ghost use Rattle.site_mem.specs.Memory.{Memory};

    ghost Value = { Memory };

    ghost view = { λ m. record { dir = m.dir; seen = m.roster.seen; given = m.roster.given; voice = m.voice; plan = m.plan } };

    ghost invariant = { λ m. lent_of m.dir ≡ loans_of m.roster.seen.running };
}

impl<R: Roles + Drop> MemSite<R> {
    ghost use Rattle.site_mem.specs.Memory.{fresh};

    /// A site over this directory, whose children run the programs of these roles. Nothing was started or said yet.
    pub fn new(alloc: Global, dir: MemDir, roles: R) -> MemSite<R>
        requires { lent_of dir ≡ [] }
        ensures tells { ⟦<MemSite<R> as Dir>⟧.tells }
        ensures fresh { result ≡ fresh dir }
    {
        MemSite {
            dir,
            roles,
            roster: Roster::new(alloc),
            voice: Voice::new(alloc),
            plan: Plan::new(alloc),
        }
    }

    /// From now on these attempts end with these statuses and leave `garbage\n`, unless the status is 0. Where an attempt is
    /// named twice, its first entry counts. Those that were named before are not any more.
    pub fn script(&mut self, ends: Vec<(Attempt, i32)>)
        ensures { self.new ≡ record self.old { plan = record self.old.plan { script = ends.items } } }
    {
        self.plan.set_script(ends);
    }

    /// From now on the starts of these attempts fail, and no others.
    pub fn refuse(&mut self, starts: Vec<Attempt>)
        ensures { self.new ≡ record self.old { plan = record self.old.plan { refused = starts.items } } }
    {
        self.plan.set_refused(starts);
    }

    /// From now on the says of these numbers fail, counted from 0 over the life of the site, and no others. A say that found
    /// no memory has no number.
    pub fn mute(&mut self, says: Vec<u64>)
        ensures { self.new ≡ record self.old { voice = record self.old.voice { mute = says.items } } }
    {
        self.voice.mute(says);
    }

    /// From now on the children end in this order.
    pub fn order(&mut self, order: Order)
        ensures { self.new ≡ record self.old { plan = record self.old.plan { order = order } } }
    {
        self.plan.set_order(order);
    }

    /// From now on, for each of these pairs, the child of the first attempt doesn't end before the second attempt was
    /// started, and no others are held. Where each child that runs is held, the one that the order names first ends with
    /// status 99.
    pub fn hold(&mut self, holds: Vec<(Attempt, Attempt)>)
        ensures { self.new ≡ record self.old { plan = record self.old.plan { holds = holds.items } } }
    {
        self.plan.set_holds(holds);
    }

    /// The bytes that were said.
    pub fn said(&self) -> &[u8]
        ensures { result.now ≡ self.now.voice.said }
    {
        self.voice.said()
    }

    /// How many children run.
    pub fn running(&self) -> usize
        ensures { result ≡ length self.now.seen.running }
    {
        self.roster.running()
    }

    /// What happened to the attempts of tasks, in order.
    pub fn log(&self) -> &[LogEntry]
        ensures { result.now ≡ self.now.seen.log }
    {
        self.roster.log()
    }

    /// The directory as it is now.
    pub fn dir(&self) -> &MemDir
        ensures value { result.now ≡ self.now.dir }
        ensures lent { lent_of result.now ≡ loans_of self.now.seen.running }
    {
        &self.dir
    }

    /// The directory, with all that its calls and its children left.
    pub fn into_dir(self) -> MemDir
        ensures { result ≡ self.dir }
    {
        self.dir
    }
}

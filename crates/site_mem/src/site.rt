use crate::mem_site::MemSite;
use crate::roles::Roles;
use crate::roster::Given;
use dir_disk::{Ended, Site, StartFault};
use peg_base::{Attempt, Path, Words};
use std::alloc::Global;

impl<R: Roles + Drop> Site for MemSite<R> {
    ghost use Rattle.std.specs.Prelude.{Some};
    ghost use Rattle.std.proofs.Common.{ap, refl};
    ghost use Rattle.std.specs.Prelude.{◌≡◌, ◌≤◌, IsErrOf, length, if◌then◌else◌};
    ghost use Rattle.dir_disk.specs.Children.{Begins, CanStart, Child, Ends, Given as Gives, Hands, Leaves, Starts, after_start, loans_of};
    ghost use Rattle.dir_disk.specs.Lent.{IsFree, IsNoOutput};
    ghost use Rattle.dir_disk.specs.Moments.{clock, files};
    ghost use Rattle.dir_disk.specs.State.{bytes_of};
    ghost use Rattle.dir_mem.specs.Memory.{fail_of, faults_of, told_of};
    ghost use Rattle.dir_mem.specs.Traces.{garbage};
    ghost use Rattle.site_mem.specs.Ends.{is_zero};
    ghost use Rattle.site_mem.specs.Reaps.{EndsNext};
    ghost use Rattle.site_mem.specs.Plans.{FailsIf, IsNext, is_among, status_of};

    ghost seen = { λ site. site.seen };

    ghost given = { λ site. site.given };

    ghost gives = { R.gives };

    fn start(
        &mut self,
        alloc: Global,
        attempt: &Attempt,
        words: &Words,
        input: &Path,
        output: &Path,
    ) -> Result<(), StartFault>
        requires words { 1 ≤ length words.now }
        requires read { IsNoOutput (loans_of self.old.seen.running) input.now }
        requires free { IsFree (loans_of self.old.seen.running) output.now }
        requires can { CanStart (files (told_of self.old.dir)) input.now output.now }
        ensures directory { Starts output.now (told_of self.old.dir) (told_of self.new.dir) result }
        ensures seen { let child : Child = record { attempt = attempt.now; words = words.now; input = input.now; output = output.now; given = bytes_of (files (told_of self.old.dir) input.now).now } in
            Begins child self.old.seen self.new.seen result }
        ensures given { let one : Gives = record { words = words.now; input = bytes_of (files (told_of self.old.dir) input.now).now; moment = clock (told_of self.old.dir) } in
            Hands one self.old.given self.new.given result }
        ensures faults { faults_of self.new.dir ≡ faults_of self.old.dir }
        ensures fail { fail_of self.new.dir ≡ fail_of self.old.dir }
        ensures voice { self.new.voice ≡ self.old.voice }
        ensures plan { self.new.plan ≡ self.old.plan }

        // It fails just where it is refused.
        ensures fails { FailsIf (is_among self.old.plan.refused attempt.now) result }

        // Where it is refused, its output has now what it had.
        ensures refused { IsErrOf result StartFault.Failed → files (told_of self.new.dir) ≡ after_start output.now (files (told_of self.old.dir)) }
    {
        let Ok(given) = Given::new(alloc, &self.dir, words, input) else {
            return Err(StartFault::NoMemory);
        };
        if self.plan.refuses(attempt) {
            return self
                .roster
                .refuse(&mut self.dir, alloc, attempt, output, given);
        }
        let Ok(answer) = self.roles.answer(alloc, words, given.input()) else {
            return Err(StartFault::NoMemory);
        };
        self.roster.start(&mut self.dir, alloc, attempt, input, output, given, answer)
    }

    fn reap(&mut self) -> Ended
        requires { 1 ≤ length self.old.seen.running }
        ensures ended { EndsNext R.gives self.old.plan result.attempt result.status self.old.seen self.new.seen (told_of self.old.dir) (told_of self.new.dir) }
        ensures given { self.new.given ≡ self.old.given }
        ensures faults { faults_of self.new.dir ≡ faults_of self.old.dir }
        ensures fail { fail_of self.new.dir ≡ fail_of self.old.dir }
        ensures voice { self.new.voice ≡ self.old.voice }
        ensures plan { self.new.plan ≡ self.old.plan }
    {
        self.roster.reap(&mut self.dir, &self.plan)
    }

    ghost beside_dir = { λ s t same. (ap (λ b. b.0) same, (λ tells. ap (λ b. b.1) same), ap (λ b. Some b.2.said) same, ap (λ b. Some b.2.says) same, ap (λ b. b.2.faults) same) };

    ghost beside_console = { λ s t same. (ap (λ b. b.1) same, (λ tells. (ap (λ b. b.2) same, ap (λ b. told_of b.0) same)), ap (λ b. loans_of b.1.running) same, ap (λ b. faults_of b.0) same) };

    ghost lent_to_children = { λ s. refl };

    ghost tells_says = { λ s tells. (refl, refl) };

    ghost say_moment = { λ s tells. refl };
}

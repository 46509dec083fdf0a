ghost use Rattle.std.specs.Prelude.{◌≡◌, ◌≢◌, ◌^◌, ◌≤◌, ◌&&◌, [], ◌∷◌, ◌++◌, length, option_map, IfOk, IfSome, OnOk, OnErr};
ghost use Rattle.std.specs.List.{position};
ghost use Rattle.peg_base.specs.Names.{same_path};
ghost use Rattle.dir_disk.specs.Lent.{IsFree, IsNoOutput};
ghost use Rattle.dir_disk.specs.Moments.{AddsBy, files};
ghost use Rattle.dir_disk.specs.Children.{CanStart, after_start};
ghost use Rattle.dir_mem.specs.Lending.{IsLent, TakesOff, after_loan};

use crate::effects::lend_of;
use crate::log::Change;
use crate::mem_dir::{Lending, MemDir};
use peg_base::Path;
use peg_text::NoMemory;
use std::alloc::Global;
use std::marker::Model;

/// What is lent to a child: a path that it reads, and one that it writes. It goes back to the directory that made it.
#[derive(Drop)]
pub struct Loan {
    input: Path,
    output: Path,
}

impl Model for Loan {
    ghost use Rattle.dir_disk.specs.Lent.{Loan as Lent};

    ghost Value = { Lent };

    ghost view = { λ loan. record { input = loan.input; output = loan.output } };
}

impl MemDir {
    ghost use Rattle.dir_mem.specs.Memory.{fail_of, faults_of, lent_of, told_of};

    /// Lends two paths to a child: from now on a stop may leave anything at the output. It is no numbered call.
    pub fn lend(&mut self, alloc: Global, input: &Path, output: &Path) -> Result<Loan, NoMemory>
        requires read { IsNoOutput (lent_of self.old) input.now }
        requires free { IsFree (lent_of self.old) output.now }
        requires can { CanStart (files (told_of self.old)) input.now output.now }
        ensures loan { IfOk result (λ loan. loan ≡ record { input = input.now; output = output.now }) }
        ensures step { OnOk result (AddsBy 0 (told_of self.old) (told_of self.new)) }
        ensures state { OnOk result
            (files (told_of self.new) ≡ after_start output.now (files (told_of self.old))) }
        ensures lent { IfOk result (λ loan. lent_of self.new ≡ lent_of self.old ++ loan ∷ []) }
        ensures is_lent { IfOk result (λ loan. IsLent loan (lent_of self.new)) }
        ensures err { OnErr result (told_of self.new ≡ told_of self.old) }
        ensures err_lent { OnErr result (lent_of self.new ≡ lent_of self.old) }
        ensures fail { fail_of self.new ≡ fail_of self.old }
        ensures faults { faults_of self.new ≡ faults_of self.old }
    {
        let loan = Loan {
            input: input.copy(alloc)?,
            output: output.copy(alloc)?,
        };
        let lending = Lending {
            input: input.copy(alloc)?,
            output: output.copy(alloc)?,
        };
        let change = lend_of(alloc, &self.steps, output)?;
        self.list_one(alloc, output)?;
        self.add_loan(change, lending)?;
        Ok(loan)
    }

    /// Notes that the child which was to write this output could not be started: from now on a stop may leave anything
    /// there. Nothing is lent, and it is no numbered call.
    pub fn spoil(&mut self, alloc: Global, output: &Path) -> Result<(), NoMemory>
        requires { output.now ≢ [] }
        ensures step { OnOk result (AddsBy 0 (told_of self.old) (told_of self.new)) }
        ensures state { OnOk result
            (files (told_of self.new) ≡ after_start output.now (files (told_of self.old))) }
        ensures lent { lent_of self.new ≡ lent_of self.old }
        ensures err { OnErr result (told_of self.new ≡ told_of self.old) }
        ensures fail { fail_of self.new ≡ fail_of self.old }
        ensures faults { faults_of self.new ≡ faults_of self.old }
    {
        self.list_one(alloc, output)?;
        let change = lend_of(alloc, &self.steps, output)?;
        self.add_change(change)?;
        Ok(())
    }

    /// Ends a loan: its child has left this at the output, or no file. What a stop may leave there is as before. It is no
    /// numbered call, and takes no memory.
    pub fn end_loan(&mut self, loan: Loan, left: Option<Vec<u8>>)
        requires lent { IsLent loan (lent_of self.old) }
        requires short { IfSome left (λ bytes. length bytes.items ≤ 2 ^ 50) }
        ensures step { AddsBy 0 (told_of self.old) (told_of self.new) }
        ensures state { files (told_of self.new)
            ≡ after_loan loan.output (option_map (λ bytes. bytes.items) left) (files (told_of self.old)) }
        ensures lent { TakesOff loan (lent_of self.old) (lent_of self.new) }
        ensures fail { fail_of self.new ≡ fail_of self.old }
        ensures faults { faults_of self.new ≡ faults_of self.old }
    {
        let place = place_of(&self.lent, &loan).unwrap();
        let change = Change {
            path: loan.output,
            now: left,
            may: None,
        };
        self.end_at(place, change);
    }
}

/// The place of the loan among what is lent.
fn place_of(lent: &[Lending], loan: &Loan) -> Option<usize>
    ensures { result
        ≡ position (λ lending. same_path lending.input loan.now.input && same_path lending.output loan.now.output) lent.now }
{
    lent.iter().position(|lending| lending.input == loan.input && lending.output == loan.output)
}

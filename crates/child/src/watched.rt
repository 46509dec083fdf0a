ghost use Rattle.std.specs.Prelude.{◌≡◌, ℕ, ◌+◌, ◌≤◌, ◌⊎◌, List, ◌++◌, length, IfErr, OnOk};
ghost use Rattle.peg_text.specs.Records.{cut_of};
ghost use Rattle.child.specs.Feeding.{Feeds, Finishes, IsCounted, RefusesBytes, RefusesToFinish, fed_of};
ghost use Rattle.child.specs.Shown.{AreFronts, IsFrontOf, record_numbered};
ghost use Rattle.child.specs.Watching.{ShowsLast, ShowsRefused};
ghost use Rattle.child.specs.declared.feeding.Feeding.{Feeding};
ghost use Rattle.child.specs.declared.front.Front.{Front};
ghost use Rattle.child.specs.declared.fronts.Fronts.{Fronts};
ghost use Rattle.child.specs.declared.watched.Watched.{Watched};

use crate::feeding::Feeding;
use crate::front::Front;
use crate::fronts::Fronts;
use crate::status::ChildStatus;
use gimv_base::Role;
use peg_text::NoMemory;
use std::alloc::Global;

/// A role that is fed, and the fronts of its last records.
#[derive(Drop)]
pub struct Watched<R> {
    pub feeding: Feeding<R>,
    pub fronts: Fronts,
}

impl<R: Role> Watched<R> {
    /// Takes a piece in, and refuses the first byte too many. A bad record is shown.
    pub fn take(
        &mut self,
        alloc: Global,
        piece: &[u8],
        out: &mut Vec<u8>,
        shown: &mut Front,
    ) -> Result<(), ChildStatus>
        requires { IsCounted (fed_of R.standing self.old.feeding) }
        ensures ok { OnOk result (Feeds (fed_of R.standing self.old.feeding) (fed_of R.standing self.new.feeding) piece.now out.old.items out.new.items) }
        ensures counted { OnOk result (IsCounted (fed_of R.standing self.new.feeding)) }
        ensures more { OnOk result (self.new.feeding.taken ≡ self.old.feeding.taken + length piece.now) }
        ensures fronts { (bytes : List ℕ) → AreFronts bytes self.old.fronts → OnOk result (AreFronts (bytes ++ piece.now) self.new.fronts) }
        ensures err { IfErr result (RefusesBytes (fed_of R.standing self.old.feeding) piece.now) }
        ensures shown { IfErr result (ShowsRefused (fed_of R.standing self.old.feeding) self.old.fronts piece.now shown.new) }
    {
        let ended = self.feeding.line;
        match self.feeding.take(alloc, piece, out) {
            Ok(()) => {}
            Err(status) => return Err(show(&self.fronts, ended, piece, status, shown)),
        }
        match self.fronts.take(piece) {
            Ok(()) => Ok(()),
            Err(NoMemory) => Err(ChildStatus::NoMemory),
        }
    }

    /// Takes in that no further bytes come. A bad record is shown.
    pub fn finish(
        &mut self,
        alloc: Global,
        out: &mut Vec<u8>,
        shown: &mut Front,
    ) -> Result<(), ChildStatus>
        requires { IsCounted (fed_of R.standing self.old.feeding) }
        ensures ok { OnOk result (Finishes (fed_of R.standing self.old.feeding) out.old.items out.new.items) }
        ensures err { IfErr result (RefusesToFinish (fed_of R.standing self.old.feeding)) }
        ensures shown { IfErr result (ShowsLast (fed_of R.standing self.old.feeding) self.old.fronts shown.new) }
    {
        let ended = self.feeding.line;
        match self.feeding.finish(alloc, out) {
            Ok(()) => Ok(()),
            Err(status) => Err(show(&self.fronts, ended, b"\n", status, shown)),
        }
    }
}

/// Shows the record that a status names, where so many were ended before this piece came.
fn show(
    fronts: &Fronts,
    ended: u64,
    piece: &[u8],
    status: ChildStatus,
    shown: &mut Front,
) -> ChildStatus
    ensures same { (result ≡ status) ⊎ (result ≡ ChildStatus.NoMemory) }
    ensures shown { (line : ℕ) → result ≡ ChildStatus.BadLine line → (bytes : List ℕ) → AreFronts bytes fronts.now
        → length (cut_of bytes).whole ≡ ended → ended ≤ line
        → IsFrontOf (record_numbered line (cut_of (bytes ++ piece.now)).whole) shown.new }
{
    let ChildStatus::BadLine { line } = status else {
        return status;
    };
    match fronts.show(ended, piece, line, shown) {
        Ok(()) => status,
        Err(NoMemory) => ChildStatus::NoMemory,
    }
}

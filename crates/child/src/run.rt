ghost use Rattle.std.specs.Prelude.{◌≡◌, ◌≢◌, ◌≤◌, ◌⊎◌, ℕ, IfSome};
ghost use Rattle.dir_disk.specs.Causes.{Rose};
ghost use Rattle.gimv_base.specs.Standings.{fresh};
ghost use Rattle.child.specs.Child.{IsDone, IsFirstBad, IsStreamed, Runs, WritesPart, streams};
ghost use Rattle.child.specs.Judging.{AreTooMany};
ghost use Rattle.child.specs.Shown.{ShowsBad};

use crate::feeding::Feeding;
use crate::front::Front;
use crate::fronts::Fronts;
use crate::status::ChildStatus;
use crate::watched::Watched;
use dir_disk::{Sink, Source};
use gimv_base::Role;
use std::alloc::Global;

/// How many bytes are read at once, at most.
const PIECE: u32 = 65_536;

/// Runs a role over all that the source has left.
pub fn run_role<R: Role + Drop, I: Source, O: Sink>(
    alloc: Global,
    role: R,
    source: &mut I,
    sink: &mut O,
    shown: &mut Front,
) -> ChildStatus
    requires { R.standing role ≡ fresh (R.standing role).rule }
    ensures runs { Runs (R.standing role).rule result (streams (I.left source.old) (O.written sink.old) (I.faults source.old) (O.faults sink.old)) (streams (I.left source.new) (O.written sink.new) (I.faults source.new) (O.faults sink.new)) }
    ensures shown { ShowsBad result (I.left source.old) shown.new }
{
    run_pieces(alloc, role, source, sink, shown)
}

/// Reads the source piece by piece, and writes what the role gives for each piece before it reads the next.
fn run_pieces<R: Role + Drop, I: Source, O: Sink>(
    alloc: Global,
    role: R,
    source: &mut I,
    sink: &mut O,
    shown: &mut Front,
) -> ChildStatus
    requires { R.standing role ≡ fresh (R.standing role).rule }
    ensures done { result ≡ ChildStatus.Ok → IsDone (R.standing role).rule (I.left source.old) (I.left source.new) (O.written sink.old) (O.written sink.new) }
    ensures bad { (line : ℕ) → result ≡ ChildStatus.BadLine line → IfSome (I.left source.old) (λ bytes. IsFirstBad (R.standing role).rule bytes line) }
    ensures too_large { result ≡ ChildStatus.TooLarge → IfSome (I.left source.old) (AreTooMany (R.standing role).rule) }
    ensures fault { result ≡ ChildStatus.Fault → Rose (I.faults source.old) (I.faults source.new) ⊎ Rose (O.faults sink.old) (O.faults sink.new) }
    ensures shown { ShowsBad result (I.left source.old) shown.new }
    ensures known { result ≢ ChildStatus.Usage }
    ensures part { WritesPart (R.standing role).rule (I.left source.old) (O.written sink.old) (O.written sink.new) }
    ensures stream { IsStreamed (R.standing role).rule (I.left source.old) (I.left source.new) (O.written sink.old) (O.written sink.new) }
    ensures later { (I.faults source.old ≤ I.faults source.new) × (O.faults sink.old ≤ O.faults sink.new) }
    ensures steady_source { result ≢ ChildStatus.Fault → I.faults source.new ≡ I.faults source.old }
    ensures steady_sink { result ≢ ChildStatus.Fault → O.faults sink.new ≡ O.faults sink.old }
{
    let mut watched = Watched {
        feeding: Feeding {
            role,
            held: Vec::new(alloc),
            line: 0,
            taken: 0,
        },
        fronts: Fronts::new(alloc),
    };
    let mut out = Vec::new(alloc);
    'pieces: loop {
        let piece = match source.read(alloc, PIECE) {
            Ok(piece) => piece,
            Err(fault) => return fault.into(),
        };
        if piece.is_empty() {
            break;
        }
        out.clear();
        if let Err(status) = watched.take(alloc, &piece, &mut out, shown) {
            return status;
        }
        if let Err(fault) = sink.write(alloc, &out) {
            return fault.into();
        }
    }
    out.clear();
    if let Err(status) = watched.finish(alloc, &mut out, shown) {
        return status;
    }
    match sink.write(alloc, &out) {
        Ok(()) => ChildStatus::Ok,
        Err(fault) => fault.into(),
    }
}

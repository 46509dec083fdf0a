ghost use Rattle.std.specs.Prelude.{◌≡◌, ◌≤◌, ◌<◌, ◌^◌, ◌+◌, ◌-◌, ℕ, [], List, Some, false, true, IfOk, OnOk, IsErrOf, IfErr};
ghost use Rattle.dir_disk.specs.Causes.{HasCause};
ghost use Rattle.dir_disk.specs.Moments.{Both, EachImage, Through, Told, files};
ghost use Rattle.dir_disk.specs.Says.{Say};
ghost use Rattle.dir_disk.specs.Streams.{AddsPart, added};
ghost use Rattle.graph.specs.declared.edges.Edge.{Edge};
ghost use Rattle.conf.specs.Limits.{IsWithinLimits};
ghost use Rattle.conf.specs.Commands.{is_mining};
ghost use Rattle.conf.specs.Rules.{is_clustered};
ghost use Rattle.mining.specs.Flow.{is_end, last_of, mining_of, most_of};
ghost use Rattle.mining.specs.Kept.{AllKept, Kept};
ghost use Rattle.mining.specs.Between.{AllFirm, IsSure, KeepsWhole};
ghost use Rattle.mining.specs.Acked.{Acks};
ghost use Rattle.mining.specs.Iterations.{IsAt, lines_after};
ghost use Rattle.mining.specs.Stops.{IsOfJobs, IsOfMining};
ghost use Rattle.mining.specs.Jobs.{FinishesWithin, GainsWithin, rank_after, rank_behind, rank_of_end};
ghost use Rattle.mining.specs.Failures.{TellsOfAnswer};
ghost use Rattle.job.specs.Failing.{gained};
ghost use Rattle.mining.specs.Stored.{IfBadStore, IsNotAsMade};
ghost use Rattle.mining.specs.Read.{AreVectorsRead};
ghost use Rattle.mining.specs.Table.{matrix_for, numbers_for};

use crate::iterate::next_iteration;
use crate::make::ensure_folder;
use crate::place::Place;
use crate::stop::Stop;
use conf::{Command, Conf};
use dir_disk::Site;
use std::alloc::Global;

/// An iteration, and how many nodes changed in it.
#[derive(Clone, Copy, Debug, PartialEq, Eq)]
pub struct Reached {
    pub k: u32,
    pub changed: u64,
}

/// The most iterations of the command.
pub fn most_of(conf: &Conf) -> u32
    requires { is_mining conf.now.command ≡ true }
    ensures { result ≡ most_of conf.now conf.now.command }
{
    match conf.command {
        Command::Hadi => conf.hops,
        Command::PageRank => conf.iters,
        _ => conf.nodes,
    }
}

/// Whether the command may end after an iteration.
pub(crate) fn is_end(conf: &Conf, reached: Reached) -> bool
    ensures { result ≡ is_end conf.now reached.k (Some reached.changed) }
{
    let most = match conf.command {
        Command::Hcc => return reached.k >= 1 && reached.changed == 0,
        Command::Hadi => conf.hops,
        Command::PageRank => conf.iters,
        Command::Plain => return false,
    };
    let unchanged = conf.command == Command::Hadi && reached.changed == 0;
    reached.k >= 1 && (unchanged || reached.k == most)
}

/// Makes one iteration after another until the command may end, or until there are no more.
pub fn run_iterations<S: Site>(
    alloc: Global,
    site: &mut S,
    conf: &Conf,
    from: Reached,
) -> Result<Reached, Stop>
    requires limits { IsWithinLimits conf.now }
    requires mines { is_mining conf.now.command ≡ true }
    requires from { from.k ≤ most_of conf.now conf.now.command }
    requires none_running { (S.seen site.old).running ≡ [] }
    requires firm { S.tells → AllFirm (files (S.told site.old)) }
    requires sure { S.tells → IsSure (Place.Vector from.k) (files (S.told site.old)) }
    ensures none_running { (S.seen site.new).running ≡ [] }
    ensures answers { TellsOfAnswer (gained (S.seen site.old).log (S.seen site.new).log) result }
    ensures log { GainsWithin S.tells S.gives conf.now (rank_after from.k) rank_of_end
        (S.seen site.old) (S.seen site.new) (S.given site.old) (S.given site.new) (S.told site.new) }
    ensures logged { IfOk result (λ last.
        FinishesWithin S.tells S.gives conf.now (rank_after from.k) (rank_after last.k)
        (S.seen site.old) (S.seen site.new) (S.given site.old) (S.given site.new) (S.told site.new)) }
    ensures firm { S.tells → OnOk result (AllFirm (files (S.told site.new))) }
    ensures sure { S.tells → IfOk result (λ last. IsSure (Place.Vector last.k) (files (S.told site.new))) }
    ensures stays { S.tells
        → Through (Both (KeepsWhole (files (S.told site.old)))) (S.told site.old) (S.told site.new) }
    ensures kept { (edges : List Edge) → let mining = mining_of S.gives conf.now edges in S.tells
        → AllKept mining (files (S.told site.old)) → IsAt mining from.k from.changed
        → Through (EachImage (Kept mining)) (S.told site.old) (S.told site.new) }
    // It answers the last iteration that it made, with the flow's count.
    ensures reached { (edges : List Edge) → let mining = mining_of S.gives conf.now edges in S.tells
        → AllKept mining (files (S.told site.old)) → IsAt mining from.k from.changed
        → IfOk result (λ last. IsAt mining last.k last.changed) }
    ensures few { IfOk result (λ last. (from.k ≤ last.k) × (last.k ≤ most_of conf.now conf.now.command)) }
    // It has said the lines from the first to the last.
    ensures said { (edges : List Edge) → let mining = mining_of S.gives conf.now edges in S.tells
        → AllKept mining (files (S.told site.old)) → IsAt mining from.k from.changed
        → IfOk result (λ last. S.said site.new ≡ added (S.said site.old) (lines_after mining from.k (last.k - from.k))) }
    // Whatever it answers, it has said a part of the lines up to the last iteration.
    ensures part { (edges : List Edge) (l : ℕ) → let mining = mining_of S.gives conf.now edges in S.tells
        → AllKept mining (files (S.told site.old)) → IsAt mining from.k from.changed → last_of mining ≡ Some l
        → AddsPart (S.said site.old) (S.said site.new) (lines_after mining from.k (l - from.k)) }
    ensures acked { (entry : Told) (had : List Say) → S.tells
        → Acks had entry (S.told site.old) (S.says site.old)
        → Acks had entry (S.told site.new) (S.says site.new) }
    ensures cause { HasCause Stop.Disk (S.faults site.old) (S.faults site.new) result }
    ensures say_cause { HasCause Stop.Say (S.say_faults site.old) (S.say_faults site.new) result }
    ensures err { IfErr result IsOfMining }
    ensures stored { S.tells → IsSure (matrix_for conf.now.form) (files (S.told site.old))
        → IfErr result (IfBadStore (IsNotAsMade conf.now (files (S.told site.new)))) }
    ensures read { S.tells
        → IfOk result (λ last. AreVectorsRead conf.now (from.k + 1) last.k (files (S.told site.new))) }
{
    let mut at = from;
    let most = most_of(conf);
    while at.k < most && !is_end(conf, at) {
        let k = at.k + 1;
        let changed = next_iteration(alloc, site, conf, k)?;
        at = Reached { k, changed };
    }
    Ok(at)
}

/// Makes the result, unless it is whole, where this is the last iteration.
pub fn make_result<S: Site>(alloc: Global, site: &mut S, conf: &Conf, last: u32) -> Result<(), Stop>
    requires limits { IsWithinLimits conf.now }
    requires few { last < 10 ^ 10 }
    requires none_running { (S.seen site.old).running ≡ [] }
    requires firm { S.tells → AllFirm (files (S.told site.old)) }
    ensures none_running { (S.seen site.new).running ≡ [] }
    ensures answers { TellsOfAnswer (gained (S.seen site.old).log (S.seen site.new).log) result }
    ensures log { GainsWithin S.tells S.gives conf.now rank_of_end rank_behind
        (S.seen site.old) (S.seen site.new) (S.given site.old) (S.given site.new) (S.told site.new) }
    ensures logged { OnOk result (FinishesWithin S.tells S.gives conf.now rank_of_end rank_behind
        (S.seen site.old) (S.seen site.new) (S.given site.old) (S.given site.new) (S.told site.new)) }
    ensures firm { S.tells → OnOk result (AllFirm (files (S.told site.new))) }
    ensures sure { S.tells → OnOk result (IsSure Place.Results (files (S.told site.new))) }
    ensures stays { S.tells
        → Through (Both (KeepsWhole (files (S.told site.old)))) (S.told site.old) (S.told site.new) }
    ensures kept { (edges : List Edge) → let mining = mining_of S.gives conf.now edges in S.tells
        → AllKept mining (files (S.told site.old)) → last_of mining ≡ Some last
        → is_clustered conf.now.form ≡ false → IsSure (Place.Vector last) (files (S.told site.old))
        → Through (EachImage (Kept mining)) (S.told site.old) (S.told site.new) }
    ensures said { S.said site.new ≡ S.said site.old }
    ensures says { S.says site.new ≡ S.says site.old }
    ensures say_faults { S.say_faults site.new ≡ S.say_faults site.old }
    ensures cause { HasCause Stop.Disk (S.faults site.old) (S.faults site.new) result }
    ensures err { IfErr result IsOfJobs }
    ensures stored { S.tells → IsSure (numbers_for conf.now.form last) (files (S.told site.old))
        → IfErr result (IfBadStore (IsNotAsMade conf.now (files (S.told site.new)))) }
{
    ensure_folder(alloc, site, conf, last, Place::Results)
}

ghost use Rattle.std.specs.Prelude.{◌≡◌, ◌<◌, ◌≤◌, ◌^◌, ◌+◌, ◌==◌, ℕ, [], List, Some, false, true, IfOk, OnOk, IsErrOf, IfErr};
ghost use Rattle.dir_disk.specs.Causes.{HasCause};
ghost use Rattle.dir_disk.specs.Moments.{Both, EachImage, IsFresh, Through, Told, files};
ghost use Rattle.dir_disk.specs.Says.{Say};
ghost use Rattle.dir_disk.specs.Streams.{AddsPart, added};
ghost use Rattle.graph.specs.declared.edges.Edge.{Edge};
ghost use Rattle.conf.specs.Commands.{is_mining};
ghost use Rattle.conf.specs.Rules.{is_clustered};
ghost use Rattle.conf.specs.Limits.{IsWithinLimits};
ghost use Rattle.job.specs.Inputs.{bytes_at_each};
ghost use Rattle.report.specs.Lines.{done_text};
ghost use Rattle.mining.specs.Table.{matrix_for, numbers_for, part_paths};
ghost use Rattle.mining.specs.Flow.{flow, last_of, mining_of, most_of, total_in};
ghost use Rattle.mining.specs.Kept.{AllKept, Kept};
ghost use Rattle.mining.specs.Between.{AllFirm, IsSure, KeepsWhole};
ghost use Rattle.mining.specs.Making.{IsAsAt};
ghost use Rattle.mining.specs.Acked.{Acks};
ghost use Rattle.mining.specs.Iterations.{IsAt, IsDone, console_after, done_line_at};
ghost use Rattle.mining.specs.Stops.{IsOfJobs, IsOfMining};
ghost use Rattle.mining.specs.Jobs.{FinishesWithin, GainsWithin, rank_after, rank_behind, rank_of_end};
ghost use Rattle.mining.specs.Failures.{IsOfNoTask, TellsOfAnswer};
ghost use Rattle.job.specs.Failing.{gained};
ghost use Rattle.mining.specs.Stored.{IfBadStore, IsNoBadStore, IsNotAsMade};
ghost use Rattle.mining.specs.Readable.{IsReadable};
ghost use Rattle.mining.specs.Read.{HasEnded, HasRead, IsResultRead};

use crate::place::Place;
use crate::run::{Reached, is_end, make_result, run_iterations};
use crate::says::say_done;
use crate::stop::Stop;
use conf::Conf;
use dir_disk::Site;
use std::alloc::Global;
use store::total;

/// The total of the result.
fn read_total<S: Site>(alloc: Global, site: &mut S, conf: &Conf) -> Result<u128, Stop>
    requires limits { IsWithinLimits conf.now }
    requires mines { is_mining conf.now.command ≡ true }
    requires none_running { (S.seen site.old).running ≡ [] }
    ensures seen { S.seen site.new ≡ S.seen site.old }
    ensures given { S.tells → S.given site.new ≡ S.given site.old }
    ensures no_task { IfErr result IsOfNoTask }
    ensures stands { S.tells
        → Through (Both (IsAsAt (files (S.told site.old)))) (S.told site.old) (S.told site.new) }
    ensures total { S.tells → IfOk result (λ total. total_in conf.now.command
        (bytes_at_each (files (S.told site.old)) (part_paths Place.Results conf.now.reducers)) ≡ Some total) }
    ensures fresh { S.tells → OnOk result (IsFresh (S.told site.new)) }
    ensures said { S.said site.new ≡ S.said site.old }
    ensures says { S.says site.new ≡ S.says site.old }
    ensures say_faults { S.say_faults site.new ≡ S.say_faults site.old }
    ensures cause { HasCause Stop.Disk (S.faults site.old) (S.faults site.new) result }
    ensures err { IfErr result IsOfJobs }
    ensures stored { S.tells → IsSure Place.Results (files (S.told site.old))
        → IfErr result (IfBadStore (IsNotAsMade conf.now (files (S.told site.new)))) }
    ensures read { S.tells → IfOk result (λ total. IsResultRead conf.now total (files (S.told site.new))) }
{
    let folder = Place::Results.path(alloc)?;
    Ok(total(alloc, site, &folder, conf.reducers, conf.command)?)
}

/// Makes the result, and reads its total.
fn result_total<S: Site>(alloc: Global, site: &mut S, conf: &Conf, last: u32) -> Result<u128, Stop>
    requires mines { is_mining conf.now.command ≡ true }
    requires limits { IsWithinLimits conf.now }
    requires few { last < 10 ^ 10 }
    requires none_running { (S.seen site.old).running ≡ [] }
    requires firm { S.tells → AllFirm (files (S.told site.old)) }
    ensures none_running { (S.seen site.new).running ≡ [] }
    ensures answers { TellsOfAnswer (gained (S.seen site.old).log (S.seen site.new).log) result }
    ensures log { GainsWithin S.tells S.gives conf.now rank_of_end rank_behind
        (S.seen site.old) (S.seen site.new) (S.given site.old) (S.given site.new) (S.told site.new) }
    ensures logged { OnOk result (FinishesWithin S.tells S.gives conf.now rank_of_end rank_behind
        (S.seen site.old) (S.seen site.new) (S.given site.old) (S.given site.new) (S.told site.new)) }
    ensures sure { S.tells → OnOk result (IsSure Place.Results (files (S.told site.new))) }
    ensures fresh { S.tells → OnOk result (IsFresh (S.told site.new)) }
    ensures stays { S.tells
        → Through (Both (KeepsWhole (files (S.told site.old)))) (S.told site.old) (S.told site.new) }
    ensures kept { (edges : List Edge) → let mining = mining_of S.gives conf.now edges in S.tells
        → AllKept mining (files (S.told site.old)) → last_of mining ≡ Some last
        → is_clustered conf.now.form ≡ false → IsSure (Place.Vector last) (files (S.told site.old))
        → Through (EachImage (Kept mining)) (S.told site.old) (S.told site.new) }
    ensures total { (edges : List Edge) → let mining = mining_of S.gives conf.now edges in S.tells
        → AllKept mining (files (S.told site.old)) → last_of mining ≡ Some last
        → is_clustered conf.now.form ≡ false → IsSure (Place.Vector last) (files (S.told site.old))
        → IfOk result (λ total. total_in conf.now.command (flow mining Place.Results) ≡ Some total) }
    ensures said { S.said site.new ≡ S.said site.old }
    ensures says { S.says site.new ≡ S.says site.old }
    ensures say_faults { S.say_faults site.new ≡ S.say_faults site.old }
    ensures cause { HasCause Stop.Disk (S.faults site.old) (S.faults site.new) result }
    ensures err { IfErr result IsOfJobs }
    ensures stored { S.tells → IsSure (numbers_for conf.now.form last) (files (S.told site.old))
        → IfErr result (IfBadStore (IsNotAsMade conf.now (files (S.told site.new)))) }
    ensures read { S.tells → IfOk result (λ total. IsResultRead conf.now total (files (S.told site.new))) }
{
    make_result(alloc, site, conf, last)?;
    read_total(alloc, site, conf)
}

/// Makes the result, and says the last line, after the last iteration.
pub fn finish<S: Site>(alloc: Global, site: &mut S, conf: &Conf, last: Reached) -> Result<(), Stop>
    requires limits { IsWithinLimits conf.now }
    requires mines { is_mining conf.now.command ≡ true }
    requires few { last.k < 10 ^ 10 }
    requires none_running { (S.seen site.old).running ≡ [] }
    requires firm { S.tells → AllFirm (files (S.told site.old)) }
    ensures none_running { (S.seen site.new).running ≡ [] }
    ensures answers { TellsOfAnswer (gained (S.seen site.old).log (S.seen site.new).log) result }
    ensures log { GainsWithin S.tells S.gives conf.now rank_of_end rank_behind
        (S.seen site.old) (S.seen site.new) (S.given site.old) (S.given site.new) (S.told site.new) }
    ensures logged { OnOk result (FinishesWithin S.tells S.gives conf.now rank_of_end rank_behind
        (S.seen site.old) (S.seen site.new) (S.given site.old) (S.given site.new) (S.told site.new)) }
    ensures sure { S.tells → OnOk result (IsSure Place.Results (files (S.told site.new))) }
    ensures stays { S.tells
        → Through (Both (KeepsWhole (files (S.told site.old)))) (S.told site.old) (S.told site.new) }
    ensures kept { (edges : List Edge) → let mining = mining_of S.gives conf.now edges in S.tells
        → AllKept mining (files (S.told site.old)) → last_of mining ≡ Some last.k
        → is_clustered conf.now.form ≡ false → IsSure (Place.Vector last.k) (files (S.told site.old))
        → Through (EachImage (Kept mining)) (S.told site.old) (S.told site.new) }
    ensures ok { (edges : List Edge) → let mining = mining_of S.gives conf.now edges in S.tells
        → AllKept mining (files (S.told site.old)) → last_of mining ≡ Some last.k → IsAt mining last.k last.changed
        → is_clustered conf.now.form ≡ false → IsSure (Place.Vector last.k) (files (S.told site.old))
        → OnOk result (S.said site.new ≡ added (S.said site.old) (done_line_at mining last.k)) }
    ensures part { (edges : List Edge) → let mining = mining_of S.gives conf.now edges in S.tells
        → AllKept mining (files (S.told site.old)) → last_of mining ≡ Some last.k → IsAt mining last.k last.changed
        → is_clustered conf.now.form ≡ false → IsSure (Place.Vector last.k) (files (S.told site.old))
        → AddsPart (S.said site.old) (S.said site.new) (done_line_at mining last.k) }
    ensures acked { (entry : Told) (had : List Say) → S.tells
        → Acks had entry (S.told site.old) (S.says site.old)
        → Acks had entry (S.told site.new) (S.says site.new) }
    ensures cause { HasCause Stop.Disk (S.faults site.old) (S.faults site.new) result }
    ensures say_cause { HasCause Stop.Say (S.say_faults site.old) (S.say_faults site.new) result }
    ensures err { IfErr result IsOfMining }
    ensures stored { S.tells → IsSure (numbers_for conf.now.form last.k) (files (S.told site.old))
        → IfErr result (IfBadStore (IsNotAsMade conf.now (files (S.told site.new)))) }
    ensures read { S.tells
        → OnOk result (HasEnded conf.now last.k (S.said site.old) (S.said site.new) (files (S.told site.new))) }
{
    let total = result_total(alloc, site, conf, last.k)?;
    say_done(alloc, site, conf, last, total)
}

/// Goes on after an iteration: makes the others, and then the result, and says their lines.
pub fn mine_on<S: Site>(alloc: Global, site: &mut S, conf: &Conf, from: Reached) -> Result<(), Stop>
    requires limits { IsWithinLimits conf.now }
    requires mines { is_mining conf.now.command ≡ true }
    requires from { from.k ≤ most_of conf.now conf.now.command }
    requires none_running { (S.seen site.old).running ≡ [] }
    requires firm { S.tells → AllFirm (files (S.told site.old)) }
    requires sure { S.tells → IsSure (Place.Vector from.k) (files (S.told site.old)) }
    // No child runs.
    ensures none_running { (S.seen site.new).running ≡ [] }
    ensures answers { TellsOfAnswer (gained (S.seen site.old).log (S.seen site.new).log) result }
    ensures log { GainsWithin S.tells S.gives conf.now (rank_after from.k) rank_behind
        (S.seen site.old) (S.seen site.new) (S.given site.old) (S.given site.new) (S.told site.new) }
    ensures logged { OnOk result (FinishesWithin S.tells S.gives conf.now (rank_after from.k) rank_behind
        (S.seen site.old) (S.seen site.new) (S.given site.old) (S.given site.new) (S.told site.new)) }
    // Whole folders stay as they are.
    ensures stays { S.tells
        → Through (Both (KeepsWhole (files (S.told site.old)))) (S.told site.old) (S.told site.new) }
    // Each image at each moment is kept.
    ensures kept { (edges : List Edge) → let mining = mining_of S.gives conf.now edges in S.tells
        → AllKept mining (files (S.told site.old)) → IsAt mining from.k from.changed → is_clustered conf.now.form ≡ false
        → Through (EachImage (Kept mining)) (S.told site.old) (S.told site.new) }
    // At Ok all was said, and the last vector and the result are whole in each image.
    ensures done { (edges : List Edge) → let mining = mining_of S.gives conf.now edges in S.tells
        → AllKept mining (files (S.told site.old)) → IsAt mining from.k from.changed → is_clustered conf.now.form ≡ false
        → OnOk result (IsDone mining from.k (S.said site.old) (S.said site.new) (files (S.told site.new))) }
    // Whatever it answers, a part of that was said.
    ensures part { (edges : List Edge) (l : ℕ) → let mining = mining_of S.gives conf.now edges in S.tells
        → AllKept mining (files (S.told site.old)) → IsAt mining from.k from.changed → is_clustered conf.now.form ≡ false
        → last_of mining ≡ Some l → AddsPart (S.said site.old) (S.said site.new) (console_after mining from.k l) }
    // Each acknowledged iteration is whole in each image from its say on.
    ensures acked { (entry : Told) (had : List Say) → S.tells
        → Acks had entry (S.told site.old) (S.says site.old)
        → Acks had entry (S.told site.new) (S.says site.new) }
    ensures cause { HasCause Stop.Disk (S.faults site.old) (S.faults site.new) result }
    ensures say_cause { HasCause Stop.Say (S.say_faults site.old) (S.say_faults site.new) result }
    ensures err { IfErr result IsOfMining }
    // A place that is named as bad isn't as it was made; and where what is there is kept, none is named.
    ensures stored { S.tells → is_clustered conf.now.form ≡ false
        → IsSure (matrix_for conf.now.form) (files (S.told site.old))
        → IfErr result (IfBadStore (IsNotAsMade conf.now (files (S.told site.new)))) }
    ensures none_bad { (edges : List Edge) → let mining = mining_of S.gives conf.now edges in S.tells
        → AllKept mining (files (S.told site.old)) → IsAt mining from.k from.changed → is_clustered conf.now.form ≡ false
        → IsSure (matrix_for conf.now.form) (files (S.told site.old)) → IsReadable mining → IfErr result IsNoBadStore }
    // Whatever was there, at Ok all that it read on its way was as it is made: the vectors behind that iteration up to the one
    // that the last line names, and the result, whose total it has.
    ensures read { S.tells → OnOk result (HasRead conf.now (from.k + 1) (S.said site.new) (files (S.told site.new))) }
{
    let last = run_iterations(alloc, site, conf, from)?;
    if !is_end(conf, last) {
        // The bound was refused where the last vector was counted, so no run comes here.
        return Err(Stop::NoMemory);
    }
    finish(alloc, site, conf, last)
}

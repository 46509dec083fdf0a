ghost use Rattle.std.specs.Prelude.{◌≡◌, [], ℕ, List, Option, Some, true, IfSome, OnOk, IsErrOf, IfErr};
ghost use Rattle.dir_disk.specs.Causes.{HasCause};
ghost use Rattle.dir_disk.specs.Moments.{Both, EachImage, Through, Told, files};
ghost use Rattle.dir_disk.specs.Streams.{AtEnd};
ghost use Rattle.edge_text.specs.Edges.{edges_of};
ghost use Rattle.graph.specs.declared.edges.Edge.{Edge};
ghost use Rattle.conf.specs.Commands.{is_mining};
ghost use Rattle.conf.specs.Limits.{IsWithinLimits};
ghost use Rattle.conf.specs.declared.commands.Form.TheVariants.{Base};
ghost use Rattle.mining.specs.declared.place.Place.TheVariants as At;
ghost use Rattle.mining.specs.Between.{AllFirm, IsSure};
ghost use Rattle.dir_disk.specs.Says.{Say};
ghost use Rattle.dir_disk.specs.Streams.{AddsPart};
ghost use Rattle.mining.specs.Acked.{Acks};
ghost use Rattle.mining.specs.Flow.{last_of, mining_of, most_of};
ghost use Rattle.mining.specs.Iterations.{console};
ghost use Rattle.mining.specs.Kept.{AllKept, Kept};
ghost use Rattle.mining.specs.Read.{HasRead};
ghost use Rattle.driver.specs.Opening.{HasRun, HasVectors, IsFrom, IsFromAny, IsFromThere, first_read};
ghost use Rattle.driver.specs.Opening.{KeepsFinished, StandsLater, StaysOne};
ghost use Rattle.mining.specs.Stops.{IsOfMining};
ghost use Rattle.driver.specs.Causes.{IsOpened, IsRefusal, MakesNone, outcome_of};
ghost use Rattle.mining.specs.Failures.{TellsOfAnswer};
ghost use Rattle.mining.specs.Jobs.{rank_after, rank_behind, rank_from, rank_of_base};
ghost use Rattle.job.specs.Failing.{gained};
ghost use Rattle.driver.specs.Logged.{LogsRun, RunsJobs};
ghost use Rattle.mining.specs.Stored.{IfBadStore, IsNotAsMade};

use crate::first::make_base;
use crate::opening::take_job;
use crate::resume::start;
use crate::settle::settle_all;
use conf::Conf;
use dir_disk::{Site, Source};
use mining::{Place, Stop, has, mine_on};
use std::alloc::Global;

/// Takes in the settings and the edges, and makes what stands before the iterations.
fn make_ready<E: Source, S: Site>(
    alloc: Global,
    site: &mut S,
    conf: &Conf,
    edges: &mut E,
) -> Result<(), Stop>
    requires limits { IsWithinLimits conf.now }
    requires mines { is_mining conf.now.command ≡ true }
    requires none_running { (S.seen site.old).running ≡ [] }
    requires firm { S.tells → AllFirm (files (S.told site.old)) }
    ensures none_running { (S.seen site.new).running ≡ [] }
    ensures jobs { RunsJobs S.tells S.gives conf.now rank_of_base (rank_after 0)
        (S.seen site.old) (S.seen site.new) (S.given site.old) (S.given site.new) (S.told site.new) result }
    ensures early { S.tells → IsSure (At.Vector 0) (files (S.told site.old))
        → RunsJobs S.tells S.gives conf.now rank_of_base (rank_from 0)
        (S.seen site.old) (S.seen site.new) (S.given site.old) (S.given site.new) (S.told site.new) result }
    ensures answers { TellsOfAnswer (gained (S.seen site.old).log (S.seen site.new).log) result }
    ensures firm { S.tells → OnOk result (AllFirm (files (S.told site.new))) }
    ensures sure { S.tells → OnOk result (IsSure (At.Vector 0) (files (S.told site.new))) }
    ensures kept { IfSome (E.left edges.old) (λ bytes. let mining = mining_of S.gives conf.now (edges_of conf.now.nodes bytes).edges in S.tells
        → AllKept mining (files (S.told site.old)) → conf.now.form ≡ Base
        → Through (EachImage (Kept mining)) (S.told site.old) (S.told site.new)) }
    ensures opened { IfSome (E.left edges.old)
        (λ bytes. S.tells → IsOpened conf.now (files (S.told site.old)) bytes (outcome_of result)) }
    ensures unmade { S.tells → IsRefusal (outcome_of result)
        → MakesNone (files (S.told site.old)) (files (S.told site.new)) }
    ensures unstarted { IsRefusal (outcome_of result) → S.seen site.new ≡ S.seen site.old }
    ensures end { OnOk result (AtEnd (E.left edges.new)) }
    ensures later { S.tells → StandsLater (files (S.told site.old)) (files (S.told site.new)) }
    ensures said { S.said site.new ≡ S.said site.old }
    ensures says { S.says site.new ≡ S.says site.old }
    ensures say_faults { S.say_faults site.new ≡ S.say_faults site.old }
    ensures cause { HasCause Stop.Disk (S.faults site.old) (S.faults site.new) result }
    ensures read { HasCause Stop.Read (E.faults edges.old) (E.faults edges.new) result }
    ensures no_say { ¬ IsErrOf result Stop.Say }
    ensures stays { S.tells
        → Through (Both (KeepsFinished (files (S.told site.old)))) (S.told site.old) (S.told site.new) }
    ensures matrix { S.tells → OnOk result (IsSure At.Matrix (files (S.told site.new))) }
    ensures stored { S.tells → conf.now.form ≡ Base
        → IfErr result (IfBadStore (IsNotAsMade conf.now (files (S.told site.new)))) }
{
    take_job(alloc, site, conf, edges)?;
    make_base(alloc, site, conf)
}

/// Says where the run begins or goes on, and goes on from there.
fn go_on<S: Site>(alloc: Global, site: &mut S, conf: &Conf, had_first: bool) -> Result<(), Stop>
    requires limits { IsWithinLimits conf.now }
    requires mines { is_mining conf.now.command ≡ true }
    requires none_running { (S.seen site.old).running ≡ [] }
    requires firm { S.tells → AllFirm (files (S.told site.old)) }
    requires sure { S.tells → IsSure (At.Vector 0) (files (S.told site.old)) }
    ensures none_running { (S.seen site.new).running ≡ [] }
    ensures jobs { RunsJobs S.tells S.gives conf.now (rank_after 0) rank_behind
        (S.seen site.old) (S.seen site.new) (S.given site.old) (S.given site.new) (S.told site.new) result }
    ensures past { (k : ℕ) → S.tells
        → IsFromThere had_first (most_of conf.now conf.now.command) (files (S.told site.old)) (Some k)
        → RunsJobs S.tells S.gives conf.now (rank_after k) rank_behind
        (S.seen site.old) (S.seen site.new) (S.given site.old) (S.given site.new) (S.told site.new) result }
    ensures answers { TellsOfAnswer (gained (S.seen site.old).log (S.seen site.new).log) result }
    ensures kept { (edges : List Edge) → let mining = mining_of S.gives conf.now edges in S.tells
        → AllKept mining (files (S.told site.old)) → conf.now.form ≡ Base
        → Through (EachImage (Kept mining)) (S.told site.old) (S.told site.new) }
    ensures acked { (entry : Told) (had : List Say) → S.tells
        → Acks had entry (S.told site.old) (S.says site.old)
        → Acks had entry (S.told site.new) (S.says site.new) }
    // What was said is a front of what a run from there says; at Ok it is all of that.
    ensures done { (edges : List Edge) (k : Option ℕ) → let mining = mining_of S.gives conf.now edges in S.tells
        → AllKept mining (files (S.told site.old)) → conf.now.form ≡ Base
        → IsFromThere had_first (most_of conf.now conf.now.command) (files (S.told site.old)) k
        → OnOk result (HasRun mining k (S.said site.old) (S.said site.new) (files (S.told site.new))) }
    ensures part { (edges : List Edge) (k : Option ℕ) (l : ℕ) → let mining = mining_of S.gives conf.now edges in S.tells
        → AllKept mining (files (S.told site.old)) → conf.now.form ≡ Base
        → IsFromThere had_first (most_of conf.now conf.now.command) (files (S.told site.old)) k
        → last_of mining ≡ Some l → AddsPart (S.said site.old) (S.said site.new) (console mining k l) }
    ensures cause { HasCause Stop.Disk (S.faults site.old) (S.faults site.new) result }
    ensures say_cause { HasCause Stop.Say (S.say_faults site.old) (S.say_faults site.new) result }
    ensures err { IfErr result IsOfMining }
    ensures stays { S.tells
        → Through (Both (KeepsFinished (files (S.told site.old)))) (S.told site.old) (S.told site.new) }
    ensures stored { S.tells → conf.now.form ≡ Base → IsSure At.Matrix (files (S.told site.old))
        → IfErr result (IfBadStore (IsNotAsMade conf.now (files (S.told site.new)))) }
    ensures read { (k : Option ℕ) → S.tells
        → IsFromThere had_first (most_of conf.now conf.now.command) (files (S.told site.old)) k
        → OnOk result
        (HasRead conf.now (first_read conf.now.command k) (S.said site.new) (files (S.told site.new))) }
{
    let from = start(alloc, site, conf, had_first)?;
    mine_on(alloc, site, conf, from)
}

/// Mines the edges that the source has left, in a work folder that was settled.
fn mine_settled<E: Source, S: Site>(
    alloc: Global,
    site: &mut S,
    conf: &Conf,
    edges: &mut E,
) -> Result<(), Stop>
    requires limits { IsWithinLimits conf.now }
    requires mines { is_mining conf.now.command ≡ true }
    requires none_running { (S.seen site.old).running ≡ [] }
    requires firm { S.tells → AllFirm (files (S.told site.old)) }
    ensures none_running { (S.seen site.new).running ≡ [] }
    ensures log { LogsRun S.tells S.gives conf.now (S.told site.old) (S.told site.new) (S.seen site.old)
        (S.seen site.new) (S.given site.old) (S.given site.new) (outcome_of result) }
    ensures answers { TellsOfAnswer (gained (S.seen site.old).log (S.seen site.new).log) result }
    ensures kept { IfSome (E.left edges.old) (λ bytes. let mining = mining_of S.gives conf.now (edges_of conf.now.nodes bytes).edges in S.tells
        → AllKept mining (files (S.told site.old)) → conf.now.form ≡ Base
        → Through (EachImage (Kept mining)) (S.told site.old) (S.told site.new)) }
    ensures acked { (entry : Told) (had : List Say) → S.tells
        → Acks had entry (S.told site.old) (S.says site.old)
        → Acks had entry (S.told site.new) (S.says site.new) }
    ensures done { IfSome (E.left edges.old) (λ bytes. let mining = mining_of S.gives conf.now (edges_of conf.now.nodes bytes).edges in
        (k : Option ℕ) → S.tells → AllKept mining (files (S.told site.old)) → conf.now.form ≡ Base
        → IsFrom (most_of conf.now conf.now.command) (files (S.told site.old)) k
        → OnOk result (HasRun mining k (S.said site.old) (S.said site.new) (files (S.told site.new)))) }
    ensures part { IfSome (E.left edges.old) (λ bytes. let mining = mining_of S.gives conf.now (edges_of conf.now.nodes bytes).edges in
        (k : Option ℕ) (l : ℕ) → S.tells → AllKept mining (files (S.told site.old)) → conf.now.form ≡ Base
        → IsFrom (most_of conf.now conf.now.command) (files (S.told site.old)) k → last_of mining ≡ Some l
        → AddsPart (S.said site.old) (S.said site.new) (console mining k l)) }
    ensures opened { IfSome (E.left edges.old)
        (λ bytes. S.tells → IsOpened conf.now (files (S.told site.old)) bytes (outcome_of result)) }
    ensures unmade { S.tells → IsRefusal (outcome_of result)
        → MakesNone (files (S.told site.old)) (files (S.told site.new)) }
    ensures unstarted { IsRefusal (outcome_of result) → S.seen site.new ≡ S.seen site.old }
    ensures end { OnOk result (AtEnd (E.left edges.new)) }
    ensures cause { HasCause Stop.Disk (S.faults site.old) (S.faults site.new) result }
    ensures say_cause { HasCause Stop.Say (S.say_faults site.old) (S.say_faults site.new) result }
    ensures read { HasCause Stop.Read (E.faults edges.old) (E.faults edges.new) result }
    ensures stays { S.tells
        → Through (Both (KeepsFinished (files (S.told site.old)))) (S.told site.old) (S.told site.new) }
    ensures stored { S.tells → conf.now.form ≡ Base
        → IfErr result (IfBadStore (IsNotAsMade conf.now (files (S.told site.new)))) }
    ensures good { (k : Option ℕ) → S.tells
        → IsFromAny (most_of conf.now conf.now.command) (files (S.told site.old)) k
        → OnOk result
        (HasRead conf.now (first_read conf.now.command k) (S.said site.new) (files (S.told site.new))) }
{
    let had_first = has(alloc, site, Place::Vector(0))?;
    make_ready(alloc, site, conf, edges)?;
    go_on(alloc, site, conf, had_first)
}

/// Mines the edges that the source has left.
pub fn mine<E: Source, S: Site>(
    alloc: Global,
    site: &mut S,
    conf: &Conf,
    edges: &mut E,
) -> Result<(), Stop>
    requires limits { IsWithinLimits conf.now }
    requires mines { is_mining conf.now.command ≡ true }
    requires none_running { (S.seen site.old).running ≡ [] }
    // No child runs.
    ensures none_running { (S.seen site.new).running ≡ [] }
    // The log gained what jobs of the table add, and tells of a task that failed.
    ensures log { LogsRun S.tells S.gives conf.now (S.told site.old) (S.told site.new) (S.seen site.old)
        (S.seen site.new) (S.given site.old) (S.given site.new) (outcome_of result) }
    ensures answers { TellsOfAnswer (gained (S.seen site.old).log (S.seen site.new).log) result }
    // Each image at each moment is kept, where each image at entry is.
    ensures kept { IfSome (E.left edges.old) (λ bytes. let mining = mining_of S.gives conf.now (edges_of conf.now.nodes bytes).edges in S.tells
        → AllKept mining (files (S.told site.old)) → conf.now.form ≡ Base
        → Through (EachImage (Kept mining)) (S.told site.old) (S.told site.new)) }
    // Each iteration is whole in each image from the line on that acknowledged it, and so is each that was whole in each
    // image at entry.
    ensures acked { (had : List Say) → S.tells → S.says site.old ≡ Some had
        → Acks had (S.told site.old) (S.told site.new) (S.says site.new) }
    ensures vectors { S.tells
        → Through (EachImage (HasVectors (files (S.told site.old)))) (S.told site.old) (S.told site.new) }
    ensures done { IfSome (E.left edges.old) (λ bytes. let mining = mining_of S.gives conf.now (edges_of conf.now.nodes bytes).edges in
        (k : Option ℕ) → S.tells → AllKept mining (files (S.told site.old)) → conf.now.form ≡ Base
        → IsFrom (most_of conf.now conf.now.command) (files (S.told site.old)) k
        → OnOk result (HasRun mining k (S.said site.old) (S.said site.new) (files (S.told site.new)))) }
    ensures part { IfSome (E.left edges.old) (λ bytes. let mining = mining_of S.gives conf.now (edges_of conf.now.nodes bytes).edges in
        (k : Option ℕ) (l : ℕ) → S.tells → AllKept mining (files (S.told site.old)) → conf.now.form ≡ Base
        → IsFrom (most_of conf.now conf.now.command) (files (S.told site.old)) k → last_of mining ≡ Some l
        → AddsPart (S.said site.old) (S.said site.new) (console mining k l)) }
    // Each refusal of the opening has its cause, and what comes later has none of them.
    ensures opened { IfSome (E.left edges.old)
        (λ bytes. S.tells → IsOpened conf.now (files (S.told site.old)) bytes (outcome_of result)) }
    ensures unmade { S.tells → IsRefusal (outcome_of result)
        → MakesNone (files (S.told site.old)) (files (S.told site.new)) }
    ensures unstarted { IsRefusal (outcome_of result) → S.seen site.new ≡ S.seen site.old }
    // At Ok the source was read to its end.
    ensures end { OnOk result (AtEnd (E.left edges.new)) }
    // Each fault has its cause.
    ensures cause { HasCause Stop.Disk (S.faults site.old) (S.faults site.new) result }
    ensures say_cause { HasCause Stop.Say (S.say_faults site.old) (S.say_faults site.new) result }
    ensures read { HasCause Stop.Read (E.faults edges.old) (E.faults edges.new) result }
    // What is whole with the same bytes in each image stays so.
    ensures stays { S.tells → StaysOne (files (S.told site.old)) (files (S.told site.new)) }
    // A place that is named as bad isn't as it was made.
    ensures stored { S.tells → conf.now.form ≡ Base
        → IfErr result (IfBadStore (IsNotAsMade conf.now (files (S.told site.new)))) }
    // At Ok all that it read of its vectors and of its result was as it is made.
    ensures good { (k : Option ℕ) → S.tells
        → IsFromAny (most_of conf.now conf.now.command) (files (S.told site.old)) k
        → OnOk result
        (HasRead conf.now (first_read conf.now.command k) (S.said site.new) (files (S.told site.new))) }
{
    settle_all(alloc, site)?;
    mine_settled(alloc, site, conf, edges)
}

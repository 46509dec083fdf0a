ghost use Rattle.std.specs.Prelude.{◌≡◌, ◌<◌, ◌≤◌, ◌^◌, ◌-◌, [], List, Some, IfOk, OnOk, IsErrOf, length, IfErr};
ghost use Rattle.dir_disk.specs.Causes.{HasCause};
ghost use Rattle.dir_disk.specs.Moments.{Both, EachImage, IsFresh, Through, Told, files};
ghost use Rattle.dir_disk.specs.Says.{Say};
ghost use Rattle.dir_disk.specs.Streams.{AddsPart, added};
ghost use Rattle.graph.specs.declared.edges.Edge.{Edge};
ghost use Rattle.conf.specs.Limits.{IsWithinLimits};
ghost use Rattle.job.specs.Inputs.{bytes_at_each};
ghost use Rattle.report.specs.Lines.{iteration_text};
ghost use Rattle.mining.specs.Places.{folder_of};
ghost use Rattle.mining.specs.Table.{matrix_for, part_paths};
ghost use Rattle.mining.specs.Flow.{Mining, changes_in, count_of, mining_of};
ghost use Rattle.mining.specs.Kept.{AllKept, Kept};
ghost use Rattle.mining.specs.Between.{AllFirm, IsSure, KeepsWhole};
ghost use Rattle.mining.specs.Making.{IsAsAt};
ghost use Rattle.mining.specs.Acked.{Acks};
ghost use Rattle.mining.specs.Iterations.{IsNext, line_at};
ghost use Rattle.mining.specs.Stops.{IsOfJobs, IsOfMining};
ghost use Rattle.mining.specs.Jobs.{FinishesWithin, GainsWithin, rank_after, rank_from};
ghost use Rattle.mining.specs.Failures.{IsOfNoTask, TellsOfAnswer};
ghost use Rattle.job.specs.Failing.{gained};
ghost use Rattle.mining.specs.Stored.{IfBadStore, IsNoBadStore, IsNotAsMade, NamesChange};
ghost use Rattle.mining.specs.Read.{IsStill, IsVectorRead};

use crate::make::ensure_folder;
use crate::place::Place;
use crate::says::say_iteration;
use crate::stop::Stop;
use committer::{drop_folder, part_path};
use conf::{Command, Conf};
use dir_disk::Site;
use peg_base::Path;
use std::alloc::Global;
use store::count_changes;

/// Makes the messages and the vector of iteration `k`, each unless it is whole.
fn make_vector<S: Site>(alloc: Global, site: &mut S, conf: &Conf, k: u32) -> Result<(), Stop>
    requires limits { IsWithinLimits conf.now }
    requires some { 1 ≤ k }
    requires few { k < 10 ^ 10 }
    requires none_running { (S.seen site.old).running ≡ [] }
    requires firm { S.tells → AllFirm (files (S.told site.old)) }
    ensures none_running { (S.seen site.new).running ≡ [] }
    ensures answers { TellsOfAnswer (gained (S.seen site.old).log (S.seen site.new).log) result }
    ensures log { GainsWithin S.tells S.gives conf.now (rank_from k) (rank_after k)
        (S.seen site.old) (S.seen site.new) (S.given site.old) (S.given site.new) (S.told site.new) }
    ensures logged { OnOk result (FinishesWithin S.tells S.gives conf.now (rank_from k) (rank_after k)
        (S.seen site.old) (S.seen site.new) (S.given site.old) (S.given site.new) (S.told site.new)) }
    ensures firm { S.tells → OnOk result (AllFirm (files (S.told site.new))) }
    ensures sure { S.tells → OnOk result (IsSure (Place.Vector k) (files (S.told site.new))) }
    ensures stays { S.tells
        → Through (Both (KeepsWhole (files (S.told site.old)))) (S.told site.old) (S.told site.new) }
    ensures kept { (edges : List Edge) → let mining = mining_of S.gives conf.now edges in S.tells
        → AllKept mining (files (S.told site.old)) → IsNext mining k (files (S.told site.old))
        → Through (EachImage (Kept mining)) (S.told site.old) (S.told site.new) }
    ensures said { S.said site.new ≡ S.said site.old }
    ensures says { S.says site.new ≡ S.says site.old }
    ensures say_faults { S.say_faults site.new ≡ S.say_faults site.old }
    ensures cause { HasCause Stop.Disk (S.faults site.old) (S.faults site.new) result }
    ensures err { IfErr result IsOfJobs }
    ensures stored { S.tells → IsSure (matrix_for conf.now.form) (files (S.told site.old))
        → IsSure (Place.Vector (k - 1)) (files (S.told site.old))
        → IfErr result (IfBadStore (IsNotAsMade conf.now (files (S.told site.new)))) }
{
    ensure_folder(alloc, site, conf, 0, Place::Messages(k))?;
    ensure_folder(alloc, site, conf, 0, Place::Vector(k))
}

/// Refuses a change in the last iteration that there can be of components: the first record that counts one.
fn check_bound(
    alloc: Global,
    conf: &Conf,
    k: u32,
    folder: &Path,
    first: Option<store::Place>,
) -> Result<(), Stop>
    requires short { length folder.now < 8 }
    ensures no_disk { ¬ IsErrOf result Stop.Disk }
    ensures no_task { IfErr result IsOfNoTask }
    ensures err { IfErr result IsOfJobs }
    ensures stored { IfErr result (IfBadStore (NamesChange conf.now k folder.now first)) }
    ensures still { OnOk result (IsStill conf.now k first) }
{
    match first {
        Some(place) if conf.command == Command::Hcc && k == conf.nodes => {
            let path = part_path(alloc, folder, place.part)?;
            Err(Stop::BadStore {
                path,
                line: place.line,
            })
        }
        _ => Ok(()),
    }
}

/// How many nodes changed in iteration `k`, by the lines of its vector.
pub fn count_changed<S: Site>(alloc: Global, site: &mut S, conf: &Conf, k: u32) -> Result<u64, Stop>
    requires limits { IsWithinLimits conf.now }
    requires none_running { (S.seen site.old).running ≡ [] }
    ensures seen { S.seen site.new ≡ S.seen site.old }
    ensures given { S.tells → S.given site.new ≡ S.given site.old }
    ensures no_task { IfErr result IsOfNoTask }
    ensures stands { S.tells
        → Through (Both (IsAsAt (files (S.told site.old)))) (S.told site.old) (S.told site.new) }
    ensures count { S.tells → IfOk result (λ changed. changes_in
        (bytes_at_each (files (S.told site.old)) (part_paths (Place.Vector k) conf.now.reducers)) ≡ Some changed) }
    // Its last step is a call of the directory, so what is said next has a moment of its own.
    ensures fresh { S.tells → OnOk result (IsFresh (S.told site.new)) }
    ensures said { S.said site.new ≡ S.said site.old }
    ensures says { S.says site.new ≡ S.says site.old }
    ensures say_faults { S.say_faults site.new ≡ S.say_faults site.old }
    ensures cause { HasCause Stop.Disk (S.faults site.old) (S.faults site.new) result }
    ensures err { IfErr result IsOfJobs }
    ensures stored { S.tells → k < 10 ^ 10 → IsSure (Place.Vector k) (files (S.told site.old))
        → IfErr result (IfBadStore (IsNotAsMade conf.now (files (S.told site.new)))) }
    ensures read { S.tells → IsSure (Place.Vector k) (files (S.told site.old))
        → OnOk result (IsVectorRead conf.now k (files (S.told site.new))) }
{
    let folder = Place::Vector(k).path(alloc)?;
    let changes = count_changes(alloc, site, &folder, conf.reducers)?;
    check_bound(alloc, conf, k, &folder, changes.first)?;
    Ok(changes.count)
}

/// Makes the vector of iteration `k`, and counts what changed in it.
fn new_vector<S: Site>(alloc: Global, site: &mut S, conf: &Conf, k: u32) -> Result<u64, Stop>
    requires limits { IsWithinLimits conf.now }
    requires some { 1 ≤ k }
    requires few { k < 10 ^ 10 }
    requires none_running { (S.seen site.old).running ≡ [] }
    requires firm { S.tells → AllFirm (files (S.told site.old)) }
    ensures none_running { (S.seen site.new).running ≡ [] }
    ensures answers { TellsOfAnswer (gained (S.seen site.old).log (S.seen site.new).log) result }
    ensures log { GainsWithin S.tells S.gives conf.now (rank_from k) (rank_after k)
        (S.seen site.old) (S.seen site.new) (S.given site.old) (S.given site.new) (S.told site.new) }
    ensures logged { OnOk result (FinishesWithin S.tells S.gives conf.now (rank_from k) (rank_after k)
        (S.seen site.old) (S.seen site.new) (S.given site.old) (S.given site.new) (S.told site.new)) }
    ensures firm { S.tells → OnOk result (AllFirm (files (S.told site.new))) }
    ensures sure { S.tells → OnOk result (IsSure (Place.Vector k) (files (S.told site.new))) }
    ensures fresh { S.tells → OnOk result (IsFresh (S.told site.new)) }
    ensures stays { S.tells
        → Through (Both (KeepsWhole (files (S.told site.old)))) (S.told site.old) (S.told site.new) }
    ensures kept { (edges : List Edge) → let mining = mining_of S.gives conf.now edges in S.tells
        → AllKept mining (files (S.told site.old)) → IsNext mining k (files (S.told site.old))
        → Through (EachImage (Kept mining)) (S.told site.old) (S.told site.new) }
    ensures count { (edges : List Edge) → let mining = mining_of S.gives conf.now edges in S.tells
        → AllKept mining (files (S.told site.old)) → IsNext mining k (files (S.told site.old))
        → IfOk result (λ changed. count_of mining k ≡ Some changed) }
    ensures said { S.said site.new ≡ S.said site.old }
    ensures says { S.says site.new ≡ S.says site.old }
    ensures say_faults { S.say_faults site.new ≡ S.say_faults site.old }
    ensures cause { HasCause Stop.Disk (S.faults site.old) (S.faults site.new) result }
    ensures err { IfErr result IsOfJobs }
    ensures stored { S.tells → IsSure (matrix_for conf.now.form) (files (S.told site.old))
        → IsSure (Place.Vector (k - 1)) (files (S.told site.old))
        → IfErr result (IfBadStore (IsNotAsMade conf.now (files (S.told site.new)))) }
    ensures read { S.tells → OnOk result (IsVectorRead conf.now k (files (S.told site.new))) }
{
    make_vector(alloc, site, conf, k)?;
    count_changed(alloc, site, conf, k)
}

/// Takes the messages of iteration `k` away.
pub fn drop_messages<S: Site>(alloc: Global, site: &mut S, k: u32) -> Result<(), Stop>
    requires some { 1 ≤ k }
    requires few { k < 10 ^ 10 }
    requires none_running { (S.seen site.old).running ≡ [] }
    requires firm { S.tells → AllFirm (files (S.told site.old)) }
    ensures none_running { (S.seen site.new).running ≡ [] }
    ensures seen { S.seen site.new ≡ S.seen site.old }
    ensures given { S.tells → S.given site.new ≡ S.given site.old }
    ensures no_task { IfErr result IsOfNoTask }
    ensures firm { S.tells → OnOk result (AllFirm (files (S.told site.new))) }
    ensures stays { S.tells
        → Through (Both (KeepsWhole (files (S.told site.old)))) (S.told site.old) (S.told site.new) }
    ensures kept { (mining : Mining) → S.tells
        → AllKept mining (files (S.told site.old)) → IsNext mining k (files (S.told site.old))
        → Through (EachImage (Kept mining)) (S.told site.old) (S.told site.new) }
    ensures said { S.said site.new ≡ S.said site.old }
    ensures says { S.says site.new ≡ S.says site.old }
    ensures say_faults { S.say_faults site.new ≡ S.say_faults site.old }
    ensures cause { HasCause Stop.Disk (S.faults site.old) (S.faults site.new) result }
    ensures err { IfErr result IsOfJobs }
    ensures no_store { IfErr result IsNoBadStore }
{
    let folder = Place::Messages(k).path(alloc)?;
    drop_folder(alloc, site, &folder)?;
    Ok(())
}

/// Says the line of iteration `k`, which is whole, and takes its messages away.
fn announce<S: Site>(alloc: Global, site: &mut S, k: u32, changed: u64) -> Result<(), Stop>
    requires some { 1 ≤ k }
    requires few { k < 10 ^ 10 }
    requires none_running { (S.seen site.old).running ≡ [] }
    requires firm { S.tells → AllFirm (files (S.told site.old)) }
    requires sure { S.tells → IsSure (Place.Vector k) (files (S.told site.old)) }
    requires fresh { S.tells → IsFresh (S.told site.old) }
    ensures none_running { (S.seen site.new).running ≡ [] }
    ensures seen { S.seen site.new ≡ S.seen site.old }
    ensures given { S.tells → S.given site.new ≡ S.given site.old }
    ensures no_task { IfErr result IsOfNoTask }
    ensures firm { S.tells → OnOk result (AllFirm (files (S.told site.new))) }
    ensures stays { S.tells
        → Through (Both (KeepsWhole (files (S.told site.old)))) (S.told site.old) (S.told site.new) }
    ensures kept { (mining : Mining) → S.tells
        → AllKept mining (files (S.told site.old)) → IsNext mining k (files (S.told site.old))
        → Through (EachImage (Kept mining)) (S.told site.old) (S.told site.new) }
    ensures ok { OnOk result (S.said site.new ≡ added (S.said site.old) (iteration_text k changed)) }
    ensures part { AddsPart (S.said site.old) (S.said site.new) (iteration_text k changed) }
    ensures acked { (entry : Told) (had : List Say) → S.tells
        → Acks had entry (S.told site.old) (S.says site.old)
        → Acks had entry (S.told site.new) (S.says site.new) }
    ensures cause { HasCause Stop.Disk (S.faults site.old) (S.faults site.new) result }
    ensures say_cause { HasCause Stop.Say (S.say_faults site.old) (S.say_faults site.new) result }
    ensures err { IfErr result IsOfMining }
    ensures no_store { IfErr result IsNoBadStore }
{
    say_iteration(alloc, site, k, changed)?;
    drop_messages(alloc, site, k)
}

/// Makes iteration `k`, says its line, and answers how many nodes changed.
pub fn next_iteration<S: Site>(
    alloc: Global,
    site: &mut S,
    conf: &Conf,
    k: u32,
) -> Result<u64, Stop>
    requires limits { IsWithinLimits conf.now }
    requires some { 1 ≤ k }
    requires few { k < 10 ^ 10 }
    requires none_running { (S.seen site.old).running ≡ [] }
    requires firm { S.tells → AllFirm (files (S.told site.old)) }
    // No child runs.
    ensures none_running { (S.seen site.new).running ≡ [] }
    ensures answers { TellsOfAnswer (gained (S.seen site.old).log (S.seen site.new).log) result }
    ensures log { GainsWithin S.tells S.gives conf.now (rank_from k) (rank_after k)
        (S.seen site.old) (S.seen site.new) (S.given site.old) (S.given site.new) (S.told site.new) }
    ensures logged { OnOk result (FinishesWithin S.tells S.gives conf.now (rank_from k) (rank_after k)
        (S.seen site.old) (S.seen site.new) (S.given site.old) (S.given site.new) (S.told site.new)) }
    ensures firm { S.tells → OnOk result (AllFirm (files (S.told site.new))) }
    ensures sure { S.tells → OnOk result (IsSure (Place.Vector k) (files (S.told site.new))) }
    // Whole folders stay as they are.
    ensures stays { S.tells
        → Through (Both (KeepsWhole (files (S.told site.old)))) (S.told site.old) (S.told site.new) }
    // Each image at each moment is kept.
    ensures kept { (edges : List Edge) → let mining = mining_of S.gives conf.now edges in S.tells
        → AllKept mining (files (S.told site.old)) → IsNext mining k (files (S.told site.old))
        → Through (EachImage (Kept mining)) (S.told site.old) (S.told site.new) }
    // What it answers is the flow's count.
    ensures count { (edges : List Edge) → let mining = mining_of S.gives conf.now edges in S.tells
        → AllKept mining (files (S.told site.old)) → IsNext mining k (files (S.told site.old))
        → IfOk result (λ changed. count_of mining k ≡ Some changed) }
    // It says the line, or a part of it.
    ensures ok { IfOk result (λ changed. S.said site.new ≡ added (S.said site.old) (iteration_text k changed)) }
    ensures part { (edges : List Edge) → let mining = mining_of S.gives conf.now edges in S.tells
        → AllKept mining (files (S.told site.old)) → IsNext mining k (files (S.told site.old))
        → AddsPart (S.said site.old) (S.said site.new) (line_at mining k) }
    // Each acknowledged iteration is whole from its say on.
    ensures acked { (entry : Told) (had : List Say) → S.tells
        → Acks had entry (S.told site.old) (S.says site.old)
        → Acks had entry (S.told site.new) (S.says site.new) }
    ensures cause { HasCause Stop.Disk (S.faults site.old) (S.faults site.new) result }
    ensures say_cause { HasCause Stop.Say (S.say_faults site.old) (S.say_faults site.new) result }
    ensures err { IfErr result IsOfMining }
    ensures stored { S.tells → IsSure (matrix_for conf.now.form) (files (S.told site.old))
        → IsSure (Place.Vector (k - 1)) (files (S.told site.old))
        → IfErr result (IfBadStore (IsNotAsMade conf.now (files (S.told site.new)))) }
    ensures read { S.tells → OnOk result (IsVectorRead conf.now k (files (S.told site.new))) }
{
    let changed = new_vector(alloc, site, conf, k)?;
    announce(alloc, site, k, changed)?;
    Ok(changed)
}

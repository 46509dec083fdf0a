ghost use Rattle.std.specs.Prelude.{◌≡◌, ◌+◌, ◌<◌, ◌≤◌, [], ℕ, List, None, Option, Some, false, true, IfOk, OnOk, IfErr, unwrap_or};
ghost use Rattle.dir_disk.specs.Causes.{HasCause};
ghost use Rattle.dir_disk.specs.Moments.{Both, EachImage, IsFresh, Through, Told, files};
ghost use Rattle.dir_disk.specs.Says.{Say};
ghost use Rattle.dir_disk.specs.Streams.{AddsPart, added};
ghost use Rattle.graph.specs.declared.edges.Edge.{Edge};
ghost use Rattle.committer.specs.Folders.{IsUnmarked};
ghost use Rattle.conf.specs.Commands.{is_mining};
ghost use Rattle.conf.specs.Limits.{IsWithinLimits};
ghost use Rattle.mining.specs.declared.place.Place.TheVariants as At;
ghost use Rattle.mining.specs.Places.{folder_of};
ghost use Rattle.mining.specs.Between.{AllFirm, IsSure, KeepsWhole};
ghost use Rattle.mining.specs.Flow.{ends_unchanged, mining_of, most_of};
ghost use Rattle.mining.specs.Read.{AreVectorsRead, IsVectorRead};
ghost use Rattle.mining.specs.Kept.{AllKept, Kept};
ghost use Rattle.report.specs.Lines.{resumed_text};
ghost use Rattle.mining.specs.Acked.{Acks};
ghost use Rattle.mining.specs.Making.{IsAsAt};
ghost use Rattle.mining.specs.Iterations.{IsAt, line_at};
ghost use Rattle.mining.specs.Stops.{IsOfJobs, IsOfMining};
ghost use Rattle.mining.specs.Failures.{IsOfNoTask};
ghost use Rattle.driver.specs.Opening.{IsFromThere, IsGreatest, first_read, from_text, mark_of};
ghost use Rattle.mining.specs.Stored.{IfBadStore, IsNoBadStore, IsNotAsMade};

use conf::{Command, Conf};
use dir_disk::Site;
use mining::{
    Place, Reached, Stop, count_changed, drop_messages, has, most_of, say_iteration, say_resumed,
};
use std::alloc::Global;

/// Whether the next iteration is whole too.
fn goes_further<S: Site>(alloc: Global, site: &mut S, k: u32, most: u32) -> Result<bool, Stop>
    requires few { most ≤ 1073741824 }
    requires none_running { (S.seen site.old).running ≡ [] }
    requires firm { S.tells → AllFirm (files (S.told site.old)) }
    ensures none_running { (S.seen site.new).running ≡ [] }
    ensures seen { S.seen site.new ≡ S.seen site.old }
    ensures given { S.tells → S.given site.new ≡ S.given site.old }
    ensures no_task { IfErr result IsOfNoTask }
    ensures stands { S.tells
        → Through (Both (λ state. state ≡ files (S.told site.old))) (S.told site.old) (S.told site.new) }
    ensures few { IfOk result (λ more. more ≡ true → k < most) }
    ensures firm { S.tells → AllFirm (files (S.told site.new)) }
    ensures yes { S.tells → IfOk result (λ more. more ≡ true → IsSure (At.Vector (k + 1)) (files (S.told site.new))) }
    ensures no { S.tells → IfOk result (λ more. more ≡ false → k < most
        → IsUnmarked (folder_of (At.Vector (k + 1))) (files (S.told site.new))) }
    ensures fresh { S.tells → (most ≤ k → IsFresh (S.told site.old)) → OnOk result (IsFresh (S.told site.new)) }
    ensures said { S.said site.new ≡ S.said site.old }
    ensures says { S.says site.new ≡ S.says site.old }
    ensures say_faults { S.say_faults site.new ≡ S.say_faults site.old }
    ensures cause { HasCause Stop.Disk (S.faults site.old) (S.faults site.new) result }
    ensures err { IfErr result IsOfJobs }
    ensures no_store { IfErr result IsNoBadStore }
{
    if k < most {
        has(alloc, site, Place::Vector(k + 1))
    } else {
        Ok(false)
    }
}

/// The greatest iteration up to which all are whole.
fn reached<S: Site>(alloc: Global, site: &mut S, most: u32) -> Result<u32, Stop>
    requires few { most ≤ 1073741824 }
    requires none_running { (S.seen site.old).running ≡ [] }
    requires firm { S.tells → AllFirm (files (S.told site.old)) }
    requires sure { S.tells → IsSure (At.Vector 0) (files (S.told site.old)) }
    ensures none_running { (S.seen site.new).running ≡ [] }
    ensures seen { S.seen site.new ≡ S.seen site.old }
    ensures given { S.tells → S.given site.new ≡ S.given site.old }
    ensures no_task { IfErr result IsOfNoTask }
    ensures stands { S.tells
        → Through (Both (λ state. state ≡ files (S.told site.old))) (S.told site.old) (S.told site.new) }
    ensures few { IfOk result (λ k. k ≤ most) }
    ensures firm { S.tells → AllFirm (files (S.told site.new)) }
    ensures sure { S.tells
        → IfOk result (λ k. (j : ℕ) → j ≤ k → IsSure (At.Vector j) (files (S.told site.new))) }
    ensures no_more { S.tells → IfOk result (λ k. k < most
        → IsUnmarked (folder_of (At.Vector (k + 1))) (files (S.told site.new))) }
    ensures fresh { S.tells → 1 ≤ most → OnOk result (IsFresh (S.told site.new)) }
    ensures said { S.said site.new ≡ S.said site.old }
    ensures says { S.says site.new ≡ S.says site.old }
    ensures say_faults { S.say_faults site.new ≡ S.say_faults site.old }
    ensures cause { HasCause Stop.Disk (S.faults site.old) (S.faults site.new) result }
    ensures err { IfErr result IsOfJobs }
    ensures no_store { IfErr result IsNoBadStore }
{
    let mut k = 0;
    while goes_further(alloc, site, k, most)? {
        k += 1;
    }
    Ok(k)
}

/// How many nodes changed in an iteration that an earlier run made, as far as that matters.
fn read_count<S: Site>(alloc: Global, site: &mut S, conf: &Conf, k: u32) -> Result<u64, Stop>
    requires limits { IsWithinLimits conf.now }
    requires few { k ≤ 1073741824 }
    requires none_running { (S.seen site.old).running ≡ [] }
    ensures none_running { (S.seen site.new).running ≡ [] }
    ensures seen { S.seen site.new ≡ S.seen site.old }
    ensures given { S.tells → S.given site.new ≡ S.given site.old }
    ensures no_task { IfErr result IsOfNoTask }
    ensures stands { S.tells
        → Through (Both (IsAsAt (files (S.told site.old)))) (S.told site.old) (S.told site.new) }
    ensures at { (edges : List Edge) → let mining = mining_of S.gives conf.now edges in S.tells
        → AllKept mining (files (S.told site.old)) → IsSure (At.Vector k) (files (S.told site.old))
        → IfOk result (λ changed. IsAt mining k changed) }
    ensures said { S.said site.new ≡ S.said site.old }
    ensures says { S.says site.new ≡ S.says site.old }
    ensures say_faults { S.say_faults site.new ≡ S.say_faults site.old }
    ensures cause { HasCause Stop.Disk (S.faults site.old) (S.faults site.new) result }
    ensures err { IfErr result IsOfJobs }
    ensures stored { S.tells → IsSure (At.Vector k) (files (S.told site.old))
        → IfErr result (IfBadStore (IsNotAsMade conf.now (files (S.told site.new)))) }
    ensures read { S.tells → IsSure (At.Vector k) (files (S.told site.old))
        → ends_unchanged conf.now.command ≡ true
        → OnOk result (IsVectorRead conf.now k (files (S.told site.new))) }
{
    match conf.command {
        Command::Plain | Command::PageRank => Ok(1),
        Command::Hcc | Command::Hadi => count_changed(alloc, site, conf, k),
    }
}

/// Takes up an iteration that an earlier run made: reads its count, and takes its messages away.
fn take_up<S: Site>(alloc: Global, site: &mut S, conf: &Conf, k: u32) -> Result<Reached, Stop>
    requires limits { IsWithinLimits conf.now }
    requires some { 1 ≤ k }
    requires few { k ≤ 1073741824 }
    requires none_running { (S.seen site.old).running ≡ [] }
    requires firm { S.tells → AllFirm (files (S.told site.old)) }
    ensures none_running { (S.seen site.new).running ≡ [] }
    ensures seen { S.seen site.new ≡ S.seen site.old }
    ensures given { S.tells → S.given site.new ≡ S.given site.old }
    ensures no_task { IfErr result IsOfNoTask }
    ensures is { IfOk result (λ reached. reached.k ≡ k) }
    ensures firm { S.tells → OnOk result (AllFirm (files (S.told site.new))) }
    ensures stays { S.tells
        → Through (Both (KeepsWhole (files (S.told site.old)))) (S.told site.old) (S.told site.new) }
    ensures kept { (edges : List Edge) → let mining = mining_of S.gives conf.now edges in S.tells
        → AllKept mining (files (S.told site.old)) → IsSure (At.Vector k) (files (S.told site.old))
        → Through (EachImage (Kept mining)) (S.told site.old) (S.told site.new) }
    ensures at { (edges : List Edge) → let mining = mining_of S.gives conf.now edges in S.tells
        → AllKept mining (files (S.told site.old)) → IsSure (At.Vector k) (files (S.told site.old))
        → IfOk result (λ reached. IsAt mining k reached.changed) }
    ensures said { S.said site.new ≡ S.said site.old }
    ensures says { S.says site.new ≡ S.says site.old }
    ensures say_faults { S.say_faults site.new ≡ S.say_faults site.old }
    ensures cause { HasCause Stop.Disk (S.faults site.old) (S.faults site.new) result }
    ensures err { IfErr result IsOfJobs }
    ensures stored { S.tells → IsSure (At.Vector k) (files (S.told site.old))
        → IfErr result (IfBadStore (IsNotAsMade conf.now (files (S.told site.new)))) }
    ensures read { S.tells → IsSure (At.Vector k) (files (S.told site.old))
        → ends_unchanged conf.now.command ≡ true
        → OnOk result (IsVectorRead conf.now k (files (S.told site.new))) }
{
    let changed = read_count(alloc, site, conf, k)?;
    drop_messages(alloc, site, k)?;
    Ok(Reached { k, changed })
}

/// Takes up an iteration, of which there is nothing to be read where it is the first one.
fn take_up_any<S: Site>(alloc: Global, site: &mut S, conf: &Conf, k: u32) -> Result<Reached, Stop>
    requires limits { IsWithinLimits conf.now }
    requires few { k ≤ 1073741824 }
    requires none_running { (S.seen site.old).running ≡ [] }
    requires firm { S.tells → AllFirm (files (S.told site.old)) }
    ensures none_running { (S.seen site.new).running ≡ [] }
    ensures seen { S.seen site.new ≡ S.seen site.old }
    ensures given { S.tells → S.given site.new ≡ S.given site.old }
    ensures no_task { IfErr result IsOfNoTask }
    ensures is { IfOk result (λ reached. reached.k ≡ k) }
    ensures firm { S.tells → OnOk result (AllFirm (files (S.told site.new))) }
    ensures stays { S.tells
        → Through (Both (KeepsWhole (files (S.told site.old)))) (S.told site.old) (S.told site.new) }
    ensures kept { (edges : List Edge) → let mining = mining_of S.gives conf.now edges in S.tells
        → AllKept mining (files (S.told site.old)) → IsSure (At.Vector k) (files (S.told site.old))
        → Through (EachImage (Kept mining)) (S.told site.old) (S.told site.new) }
    ensures at { (edges : List Edge) → let mining = mining_of S.gives conf.now edges in S.tells
        → AllKept mining (files (S.told site.old)) → IsSure (At.Vector k) (files (S.told site.old))
        → IfOk result (λ reached. IsAt mining k reached.changed) }
    ensures said { S.said site.new ≡ S.said site.old }
    ensures says { S.says site.new ≡ S.says site.old }
    ensures say_faults { S.say_faults site.new ≡ S.say_faults site.old }
    ensures cause { HasCause Stop.Disk (S.faults site.old) (S.faults site.new) result }
    ensures err { IfErr result IsOfJobs }
    ensures stored { S.tells → IsSure (At.Vector k) (files (S.told site.old))
        → IfErr result (IfBadStore (IsNotAsMade conf.now (files (S.told site.new)))) }
    ensures read { S.tells → IsSure (At.Vector k) (files (S.told site.old)) → 1 ≤ k
        → ends_unchanged conf.now.command ≡ true
        → OnOk result (IsVectorRead conf.now k (files (S.told site.new))) }
{
    if k == 0 {
        return Ok(Reached { k, changed: 1 });
    }
    take_up(alloc, site, conf, k)
}

/// Goes on after an iteration that an earlier run made.
fn resume<S: Site>(alloc: Global, site: &mut S, conf: &Conf, k: u32) -> Result<Reached, Stop>
    requires limits { IsWithinLimits conf.now }
    requires few { k ≤ 1073741824 }
    requires none_running { (S.seen site.old).running ≡ [] }
    requires firm { S.tells → AllFirm (files (S.told site.old)) }
    ensures none_running { (S.seen site.new).running ≡ [] }
    ensures seen { S.seen site.new ≡ S.seen site.old }
    ensures given { S.tells → S.given site.new ≡ S.given site.old }
    ensures no_task { IfErr result IsOfNoTask }
    ensures is { IfOk result (λ reached. reached.k ≡ k) }
    ensures firm { S.tells → OnOk result (AllFirm (files (S.told site.new))) }
    ensures stays { S.tells
        → Through (Both (KeepsWhole (files (S.told site.old)))) (S.told site.old) (S.told site.new) }
    ensures kept { (edges : List Edge) → let mining = mining_of S.gives conf.now edges in S.tells
        → AllKept mining (files (S.told site.old)) → IsSure (At.Vector k) (files (S.told site.old))
        → Through (EachImage (Kept mining)) (S.told site.old) (S.told site.new) }
    ensures at { (edges : List Edge) → let mining = mining_of S.gives conf.now edges in S.tells
        → AllKept mining (files (S.told site.old)) → IsSure (At.Vector k) (files (S.told site.old))
        → IfOk result (λ reached. IsAt mining k reached.changed) }
    ensures acked { (entry : Told) (had : List Say) → S.tells
        → ((j : ℕ) → j ≤ k → IsSure (At.Vector j) (files (S.told site.old))) → IsFresh (S.told site.old)
        → Acks had entry (S.told site.old) (S.says site.old)
        → Acks had entry (S.told site.new) (S.says site.new) }
    ensures ok { OnOk result (S.said site.new ≡ added (S.said site.old) (resumed_text k)) }
    ensures part { AddsPart (S.said site.old) (S.said site.new) (resumed_text k) }
    ensures cause { HasCause Stop.Disk (S.faults site.old) (S.faults site.new) result }
    ensures say_cause { HasCause Stop.Say (S.say_faults site.old) (S.say_faults site.new) result }
    ensures err { IfErr result IsOfMining }
    ensures stored { S.tells → IsSure (At.Vector k) (files (S.told site.old))
        → IfErr result (IfBadStore (IsNotAsMade conf.now (files (S.told site.new)))) }
    ensures read { S.tells → IsSure (At.Vector k) (files (S.told site.old)) → 1 ≤ k
        → ends_unchanged conf.now.command ≡ true
        → OnOk result (IsVectorRead conf.now k (files (S.told site.new))) }
{
    say_resumed(alloc, site, k)?;
    take_up_any(alloc, site, conf, k)
}

/// Says the line of iteration 0.
fn begin<S: Site>(alloc: Global, site: &mut S, conf: &Conf) -> Result<Reached, Stop>
    requires limits { IsWithinLimits conf.now }
    requires none_running { (S.seen site.old).running ≡ [] }
    requires firm { S.tells → AllFirm (files (S.told site.old)) }
    ensures none_running { (S.seen site.new).running ≡ [] }
    ensures seen { S.seen site.new ≡ S.seen site.old }
    ensures given { S.tells → S.given site.new ≡ S.given site.old }
    ensures no_task { IfErr result IsOfNoTask }
    ensures is { IfOk result (λ reached. reached.k ≡ 0) }
    ensures stands { S.tells
        → Through (Both (IsAsAt (files (S.told site.old)))) (S.told site.old) (S.told site.new) }
    ensures at { (edges : List Edge) → let mining = mining_of S.gives conf.now edges in IfOk result (λ reached. IsAt mining 0 reached.changed) }
    ensures acked { (entry : Told) (had : List Say) → S.tells → IsSure (At.Vector 0) (files (S.told site.old))
        → Acks had entry (S.told site.old) (S.says site.old)
        → Acks had entry (S.told site.new) (S.says site.new) }
    ensures part { (edges : List Edge) → let mining = mining_of S.gives conf.now edges in S.tells
        → AllKept mining (files (S.told site.old)) → IsSure (At.Vector 0) (files (S.told site.old))
        → AddsPart (S.said site.old) (S.said site.new) (line_at mining 0) }
    ensures ok { (edges : List Edge) → let mining = mining_of S.gives conf.now edges in S.tells
        → AllKept mining (files (S.told site.old)) → IsSure (At.Vector 0) (files (S.told site.old))
        → OnOk result (S.said site.new ≡ added (S.said site.old) (line_at mining 0)) }
    ensures cause { HasCause Stop.Disk (S.faults site.old) (S.faults site.new) result }
    ensures say_cause { HasCause Stop.Say (S.say_faults site.old) (S.say_faults site.new) result }
    ensures err { IfErr result IsOfMining }
    ensures stored { S.tells → IsSure (At.Vector 0) (files (S.told site.old))
        → IfErr result (IfBadStore (IsNotAsMade conf.now (files (S.told site.new)))) }
    ensures read { S.tells → IsSure (At.Vector 0) (files (S.told site.old))
        → OnOk result (IsVectorRead conf.now 0 (files (S.told site.new))) }
{
    let changed = count_changed(alloc, site, conf, 0)?;
    say_iteration(alloc, site, 0, changed)?;
    Ok(Reached { k: 0, changed })
}

/// The iteration that a run which has said iteration 0 goes on from: that one, but where later ones are whole already, which
/// only a stranger who took away iteration 0 can have brought about.
fn after_first<S: Site>(
    alloc: Global,
    site: &mut S,
    conf: &Conf,
    first: Reached,
) -> Result<Reached, Stop>
    requires limits { IsWithinLimits conf.now }
    requires mines { is_mining conf.now.command ≡ true }
    requires first { first.k ≡ 0 }
    requires none_running { (S.seen site.old).running ≡ [] }
    requires firm { S.tells → AllFirm (files (S.told site.old)) }
    requires sure { S.tells → IsSure (At.Vector 0) (files (S.told site.old)) }
    ensures none_running { (S.seen site.new).running ≡ [] }
    ensures seen { S.seen site.new ≡ S.seen site.old }
    ensures given { S.tells → S.given site.new ≡ S.given site.old }
    ensures no_task { IfErr result IsOfNoTask }
    ensures few { IfOk result (λ reached. reached.k ≤ most_of conf.now conf.now.command) }
    ensures firm { S.tells → OnOk result (AllFirm (files (S.told site.new))) }
    ensures sure { S.tells → IfOk result (λ reached. IsSure (At.Vector reached.k) (files (S.told site.new))) }
    ensures stays { S.tells
        → Through (Both (KeepsWhole (files (S.told site.old)))) (S.told site.old) (S.told site.new) }
    ensures kept { (edges : List Edge) → let mining = mining_of S.gives conf.now edges in S.tells
        → AllKept mining (files (S.told site.old))
        → Through (EachImage (Kept mining)) (S.told site.old) (S.told site.new) }
    ensures at { (edges : List Edge) → let mining = mining_of S.gives conf.now edges in S.tells
        → AllKept mining (files (S.told site.old)) → IsAt mining first.k first.changed
        → IfOk result (λ reached. IsAt mining reached.k reached.changed) }
    ensures is { S.tells → mark_of (At.Vector 1) (files (S.told site.old)) ≡ None → IfOk result (λ reached. reached.k ≡ 0) }
    ensures said { S.said site.new ≡ S.said site.old }
    ensures says { S.says site.new ≡ S.says site.old }
    ensures say_faults { S.say_faults site.new ≡ S.say_faults site.old }
    ensures cause { HasCause Stop.Disk (S.faults site.old) (S.faults site.new) result }
    ensures err { IfErr result IsOfJobs }
    ensures stored { S.tells
        → IfErr result (IfBadStore (IsNotAsMade conf.now (files (S.told site.new)))) }
{
    let k = reached(alloc, site, most_of(conf))?;
    if k == 0 {
        return Ok(first);
    }
    take_up(alloc, site, conf, k)
}

/// Says the line of iteration 0, and answers where the run goes on from.
fn start_afresh<S: Site>(alloc: Global, site: &mut S, conf: &Conf) -> Result<Reached, Stop>
    requires limits { IsWithinLimits conf.now }
    requires mines { is_mining conf.now.command ≡ true }
    requires none_running { (S.seen site.old).running ≡ [] }
    requires firm { S.tells → AllFirm (files (S.told site.old)) }
    requires sure { S.tells → IsSure (At.Vector 0) (files (S.told site.old)) }
    ensures none_running { (S.seen site.new).running ≡ [] }
    ensures seen { S.seen site.new ≡ S.seen site.old }
    ensures given { S.tells → S.given site.new ≡ S.given site.old }
    ensures no_task { IfErr result IsOfNoTask }
    ensures few { IfOk result (λ reached. reached.k ≤ most_of conf.now conf.now.command) }
    ensures firm { S.tells → OnOk result (AllFirm (files (S.told site.new))) }
    ensures sure { S.tells → IfOk result (λ reached. IsSure (At.Vector reached.k) (files (S.told site.new))) }
    ensures stays { S.tells
        → Through (Both (KeepsWhole (files (S.told site.old)))) (S.told site.old) (S.told site.new) }
    ensures kept { (edges : List Edge) → let mining = mining_of S.gives conf.now edges in S.tells
        → AllKept mining (files (S.told site.old))
        → Through (EachImage (Kept mining)) (S.told site.old) (S.told site.new) }
    ensures at { (edges : List Edge) → let mining = mining_of S.gives conf.now edges in S.tells
        → AllKept mining (files (S.told site.old))
        → IfOk result (λ reached. IsAt mining reached.k reached.changed) }
    ensures acked { (entry : Told) (had : List Say) → S.tells
        → Acks had entry (S.told site.old) (S.says site.old)
        → Acks had entry (S.told site.new) (S.says site.new) }
    ensures is { S.tells → mark_of (At.Vector 1) (files (S.told site.old)) ≡ None → IfOk result (λ reached. reached.k ≡ 0) }
    ensures ok { (edges : List Edge) → let mining = mining_of S.gives conf.now edges in S.tells
        → AllKept mining (files (S.told site.old))
        → OnOk result (S.said site.new ≡ added (S.said site.old) (line_at mining 0)) }
    ensures part { (edges : List Edge) → let mining = mining_of S.gives conf.now edges in S.tells
        → AllKept mining (files (S.told site.old))
        → AddsPart (S.said site.old) (S.said site.new) (line_at mining 0) }
    ensures cause { HasCause Stop.Disk (S.faults site.old) (S.faults site.new) result }
    ensures say_cause { HasCause Stop.Say (S.say_faults site.old) (S.say_faults site.new) result }
    ensures err { IfErr result IsOfMining }
    ensures stored { S.tells
        → IfErr result (IfBadStore (IsNotAsMade conf.now (files (S.told site.new)))) }
    ensures read { S.tells → mark_of (At.Vector 1) (files (S.told site.old)) ≡ None
        → IfOk result (λ reached. AreVectorsRead conf.now 0 reached.k (files (S.told site.new))) }
{
    let first = begin(alloc, site, conf)?;
    after_first(alloc, site, conf, first)
}

/// Says that the run goes on after the greatest iteration up to which all are whole, and takes that one up.
fn start_again<S: Site>(alloc: Global, site: &mut S, conf: &Conf) -> Result<Reached, Stop>
    requires limits { IsWithinLimits conf.now }
    requires mines { is_mining conf.now.command ≡ true }
    requires none_running { (S.seen site.old).running ≡ [] }
    requires firm { S.tells → AllFirm (files (S.told site.old)) }
    requires sure { S.tells → IsSure (At.Vector 0) (files (S.told site.old)) }
    ensures none_running { (S.seen site.new).running ≡ [] }
    ensures seen { S.seen site.new ≡ S.seen site.old }
    ensures given { S.tells → S.given site.new ≡ S.given site.old }
    ensures no_task { IfErr result IsOfNoTask }
    ensures few { IfOk result (λ reached. reached.k ≤ most_of conf.now conf.now.command) }
    ensures firm { S.tells → OnOk result (AllFirm (files (S.told site.new))) }
    ensures sure { S.tells → IfOk result (λ reached. IsSure (At.Vector reached.k) (files (S.told site.new))) }
    ensures stays { S.tells
        → Through (Both (KeepsWhole (files (S.told site.old)))) (S.told site.old) (S.told site.new) }
    ensures kept { (edges : List Edge) → let mining = mining_of S.gives conf.now edges in S.tells
        → AllKept mining (files (S.told site.old))
        → Through (EachImage (Kept mining)) (S.told site.old) (S.told site.new) }
    ensures at { (edges : List Edge) → let mining = mining_of S.gives conf.now edges in S.tells
        → AllKept mining (files (S.told site.old))
        → IfOk result (λ reached. IsAt mining reached.k reached.changed) }
    ensures acked { (entry : Told) (had : List Say) → S.tells
        → Acks had entry (S.told site.old) (S.says site.old)
        → Acks had entry (S.told site.new) (S.says site.new) }
    ensures is { (k : ℕ) → S.tells → IsGreatest (most_of conf.now conf.now.command) (files (S.told site.old)) k
        → IfOk result (λ reached. reached.k ≡ k) }
    ensures ok { (k : ℕ) → S.tells → IsGreatest (most_of conf.now conf.now.command) (files (S.told site.old)) k
        → OnOk result (S.said site.new ≡ added (S.said site.old) (resumed_text k)) }
    ensures part { (k : ℕ) → S.tells → IsGreatest (most_of conf.now conf.now.command) (files (S.told site.old)) k
        → AddsPart (S.said site.old) (S.said site.new) (resumed_text k) }
    ensures cause { HasCause Stop.Disk (S.faults site.old) (S.faults site.new) result }
    ensures say_cause { HasCause Stop.Say (S.say_faults site.old) (S.say_faults site.new) result }
    ensures err { IfErr result IsOfMining }
    ensures stored { S.tells
        → IfErr result (IfBadStore (IsNotAsMade conf.now (files (S.told site.new)))) }
    ensures read { (k : ℕ) → S.tells → IsGreatest (most_of conf.now conf.now.command) (files (S.told site.old)) k
        → IfOk result (λ reached.
        AreVectorsRead conf.now (first_read conf.now.command (Some k)) reached.k (files (S.told site.new))) }
{
    let k = reached(alloc, site, most_of(conf))?;
    resume(alloc, site, conf, k)
}

/// Says where the run begins or goes on: after an iteration of an earlier run, where iteration 0 was there at entry.
pub fn start<S: Site>(
    alloc: Global,
    site: &mut S,
    conf: &Conf,
    had_first: bool,
) -> Result<Reached, Stop>
    requires limits { IsWithinLimits conf.now }
    requires mines { is_mining conf.now.command ≡ true }
    requires none_running { (S.seen site.old).running ≡ [] }
    requires firm { S.tells → AllFirm (files (S.told site.old)) }
    requires sure { S.tells → IsSure (At.Vector 0) (files (S.told site.old)) }
    ensures none_running { (S.seen site.new).running ≡ [] }
    ensures seen { S.seen site.new ≡ S.seen site.old }
    ensures given { S.tells → S.given site.new ≡ S.given site.old }
    ensures no_task { IfErr result IsOfNoTask }
    ensures few { IfOk result (λ reached. reached.k ≤ most_of conf.now conf.now.command) }
    ensures firm { S.tells → OnOk result (AllFirm (files (S.told site.new))) }
    ensures sure { S.tells → IfOk result (λ reached. IsSure (At.Vector reached.k) (files (S.told site.new))) }
    ensures stays { S.tells
        → Through (Both (KeepsWhole (files (S.told site.old)))) (S.told site.old) (S.told site.new) }
    ensures kept { (edges : List Edge) → let mining = mining_of S.gives conf.now edges in S.tells
        → AllKept mining (files (S.told site.old))
        → Through (EachImage (Kept mining)) (S.told site.old) (S.told site.new) }
    ensures at { (edges : List Edge) → let mining = mining_of S.gives conf.now edges in S.tells
        → AllKept mining (files (S.told site.old))
        → IfOk result (λ reached. IsAt mining reached.k reached.changed) }
    ensures acked { (entry : Told) (had : List Say) → S.tells
        → Acks had entry (S.told site.old) (S.says site.old)
        → Acks had entry (S.told site.new) (S.says site.new) }
    // It goes on after the greatest iteration up to which all are whole, and says so, or the line of the first one.
    ensures is { (k : Option ℕ) → S.tells
        → IsFromThere had_first (most_of conf.now conf.now.command) (files (S.told site.old)) k
        → IfOk result (λ reached. reached.k ≡ unwrap_or k 0) }
    ensures ok { (edges : List Edge) (k : Option ℕ) → let mining = mining_of S.gives conf.now edges in S.tells
        → AllKept mining (files (S.told site.old))
        → IsFromThere had_first (most_of conf.now conf.now.command) (files (S.told site.old)) k
        → OnOk result (S.said site.new ≡ added (S.said site.old) (from_text mining k)) }
    ensures part { (edges : List Edge) (k : Option ℕ) → let mining = mining_of S.gives conf.now edges in S.tells
        → AllKept mining (files (S.told site.old))
        → IsFromThere had_first (most_of conf.now conf.now.command) (files (S.told site.old)) k
        → AddsPart (S.said site.old) (S.said site.new) (from_text mining k) }
    ensures cause { HasCause Stop.Disk (S.faults site.old) (S.faults site.new) result }
    ensures say_cause { HasCause Stop.Say (S.say_faults site.old) (S.say_faults site.new) result }
    ensures err { IfErr result IsOfMining }
    ensures stored { S.tells
        → IfErr result (IfBadStore (IsNotAsMade conf.now (files (S.told site.new)))) }
    // The vector that it goes on after is read where its count matters, and the first one where it begins.
    ensures read { (k : Option ℕ) → S.tells
        → IsFromThere had_first (most_of conf.now conf.now.command) (files (S.told site.old)) k
        → IfOk result (λ reached.
        AreVectorsRead conf.now (first_read conf.now.command k) reached.k (files (S.told site.new))) }
{
    if had_first {
        start_again(alloc, site, conf)
    } else {
        start_afresh(alloc, site, conf)
    }
}

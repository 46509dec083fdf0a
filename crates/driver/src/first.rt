ghost use Rattle.std.specs.Prelude.{◌≡◌, [], List, OnOk, IsErrOf, IfErr};
ghost use Rattle.dir_disk.specs.Causes.{HasCause};
ghost use Rattle.dir_disk.specs.Moments.{Both, EachImage, Through, files};
ghost use Rattle.graph.specs.declared.edges.Edge.{Edge};
ghost use Rattle.committer.specs.Folders.{IsUnmarked};
ghost use Rattle.conf.specs.declared.commands.Form.TheVariants.{Base};
ghost use Rattle.conf.specs.Limits.{IsWithinLimits};
ghost use Rattle.mining.specs.declared.place.Place.TheVariants as At;
ghost use Rattle.mining.specs.Places.{folder_of};
ghost use Rattle.mining.specs.Between.{AllFirm, IsSure, KeepsWhole};
ghost use Rattle.mining.specs.Flow.{mining_of};
ghost use Rattle.mining.specs.Kept.{AllKept, Kept};
ghost use Rattle.store.specs.Sealed.{IsMade, Makes, nodes_text};
ghost use Rattle.mining.specs.Stops.{IsOfJobs};
ghost use Rattle.mining.specs.Failures.{IsOfNoTask, TellsOfAnswer};
ghost use Rattle.mining.specs.Jobs.{rank_after, rank_from, rank_of_base};
ghost use Rattle.job.specs.Failing.{gained};
ghost use Rattle.driver.specs.Logged.{RunsJobs};
ghost use Rattle.driver.specs.Opening.{StandsLater};
ghost use Rattle.mining.specs.Stored.{IfBadStore, IsNoBadStore, IsNotAsMade};

use conf::Conf;
use dir_disk::Site;
use mining::{Place, Stop, ensure_folder, has};
use std::alloc::Global;
use store::write_nodes;

/// Writes the nodes.
fn begin_nodes<S: Site>(alloc: Global, site: &mut S, conf: &Conf) -> Result<(), Stop>
    requires none_running { (S.seen site.old).running ≡ [] }
    requires unmarked { S.tells → IsUnmarked (folder_of At.Nodes) (files (S.told site.old)) }
    ensures none_running { (S.seen site.new).running ≡ [] }
    ensures seen { S.seen site.new ≡ S.seen site.old }
    ensures given { S.tells → S.given site.new ≡ S.given site.old }
    ensures no_task { IfErr result IsOfNoTask }
    ensures made { S.tells
        → OnOk result (IsMade (folder_of At.Nodes) (nodes_text conf.now.nodes) (files (S.told site.new))) }
    ensures steps { S.tells
        → Through (Makes (folder_of At.Nodes) (nodes_text conf.now.nodes) (files (S.told site.old))) (S.told site.old) (S.told site.new) }
    ensures said { S.said site.new ≡ S.said site.old }
    ensures says { S.says site.new ≡ S.says site.old }
    ensures say_faults { S.say_faults site.new ≡ S.say_faults site.old }
    ensures cause { HasCause Stop.Disk (S.faults site.old) (S.faults site.new) result }
    ensures err { IfErr result IsOfJobs }
    ensures no_store { IfErr result IsNoBadStore }
{
    let folder = Place::Nodes.path(alloc)?;
    write_nodes(alloc, site, &folder, conf.nodes)?;
    Ok(())
}

/// Writes the nodes, unless they are there.
fn make_nodes<S: Site>(alloc: Global, site: &mut S, conf: &Conf) -> Result<(), Stop>
    requires none_running { (S.seen site.old).running ≡ [] }
    requires firm { S.tells → AllFirm (files (S.told site.old)) }
    ensures none_running { (S.seen site.new).running ≡ [] }
    ensures seen { S.seen site.new ≡ S.seen site.old }
    ensures given { S.tells → S.given site.new ≡ S.given site.old }
    ensures no_task { IfErr result IsOfNoTask }
    ensures firm { S.tells → OnOk result (AllFirm (files (S.told site.new))) }
    ensures sure { S.tells → OnOk result (IsSure At.Nodes (files (S.told site.new))) }
    ensures stays { S.tells
        → Through (Both (KeepsWhole (files (S.told site.old)))) (S.told site.old) (S.told site.new) }
    ensures kept { (edges : List Edge) → let mining = mining_of S.gives conf.now edges in S.tells
        → AllKept mining (files (S.told site.old)) → IsSure At.Edges (files (S.told site.old))
        → Through (EachImage (Kept mining)) (S.told site.old) (S.told site.new) }
    ensures later { S.tells → StandsLater (files (S.told site.old)) (files (S.told site.new)) }
    ensures said { S.said site.new ≡ S.said site.old }
    ensures says { S.says site.new ≡ S.says site.old }
    ensures say_faults { S.say_faults site.new ≡ S.say_faults site.old }
    ensures cause { HasCause Stop.Disk (S.faults site.old) (S.faults site.new) result }
    ensures err { IfErr result IsOfJobs }
    ensures no_store { IfErr result IsNoBadStore }
{
    if has(alloc, site, Place::Nodes)? {
        return Ok(());
    }
    begin_nodes(alloc, site, conf)
}

/// Makes the nodes and the matrix, each unless it is whole.
fn make_matrix<S: Site>(alloc: Global, site: &mut S, conf: &Conf) -> Result<(), Stop>
    requires limits { IsWithinLimits conf.now }
    requires none_running { (S.seen site.old).running ≡ [] }
    requires firm { S.tells → AllFirm (files (S.told site.old)) }
    ensures none_running { (S.seen site.new).running ≡ [] }
    ensures jobs { RunsJobs S.tells S.gives conf.now rank_of_base (rank_from 0)
        (S.seen site.old) (S.seen site.new) (S.given site.old) (S.given site.new) (S.told site.new) result }
    ensures answers { TellsOfAnswer (gained (S.seen site.old).log (S.seen site.new).log) result }
    ensures firm { S.tells → OnOk result (AllFirm (files (S.told site.new))) }
    ensures sure { S.tells → OnOk result (IsSure At.Matrix (files (S.told site.new))) }
    ensures stays { S.tells
        → Through (Both (KeepsWhole (files (S.told site.old)))) (S.told site.old) (S.told site.new) }
    ensures kept { (edges : List Edge) → let mining = mining_of S.gives conf.now edges in S.tells
        → AllKept mining (files (S.told site.old)) → IsSure At.Edges (files (S.told site.old)) → conf.now.form ≡ Base
        → Through (EachImage (Kept mining)) (S.told site.old) (S.told site.new) }
    ensures later { S.tells → StandsLater (files (S.told site.old)) (files (S.told site.new)) }
    ensures said { S.said site.new ≡ S.said site.old }
    ensures says { S.says site.new ≡ S.says site.old }
    ensures say_faults { S.say_faults site.new ≡ S.say_faults site.old }
    ensures cause { HasCause Stop.Disk (S.faults site.old) (S.faults site.new) result }
    ensures err { IfErr result IsOfJobs }
    ensures nodes { S.tells → OnOk result (IsSure At.Nodes (files (S.told site.new))) }
    ensures stored { S.tells → conf.now.form ≡ Base → IsSure At.Edges (files (S.told site.old))
        → IfErr result (IfBadStore (IsNotAsMade conf.now (files (S.told site.new)))) }
{
    make_nodes(alloc, site, conf)?;
    ensure_folder(alloc, site, conf, 0, Place::Matrix)
}

/// Makes what stands before the iterations, each folder unless it is whole.
pub fn make_base<S: Site>(alloc: Global, site: &mut S, conf: &Conf) -> Result<(), Stop>
    requires limits { IsWithinLimits conf.now }
    requires none_running { (S.seen site.old).running ≡ [] }
    requires firm { S.tells → AllFirm (files (S.told site.old)) }
    ensures none_running { (S.seen site.new).running ≡ [] }
    ensures jobs { RunsJobs S.tells S.gives conf.now rank_of_base (rank_after 0)
        (S.seen site.old) (S.seen site.new) (S.given site.old) (S.given site.new) (S.told site.new) result }
    // Where the first vector is whole, no job of it is carried out.
    ensures early { S.tells → IsSure (At.Vector 0) (files (S.told site.old))
        → RunsJobs S.tells S.gives conf.now rank_of_base (rank_from 0)
        (S.seen site.old) (S.seen site.new) (S.given site.old) (S.given site.new) (S.told site.new) result }
    ensures answers { TellsOfAnswer (gained (S.seen site.old).log (S.seen site.new).log) result }
    ensures firm { S.tells → OnOk result (AllFirm (files (S.told site.new))) }
    ensures sure { S.tells → OnOk result (IsSure (At.Vector 0) (files (S.told site.new))) }
    ensures stays { S.tells
        → Through (Both (KeepsWhole (files (S.told site.old)))) (S.told site.old) (S.told site.new) }
    ensures kept { (edges : List Edge) → let mining = mining_of S.gives conf.now edges in S.tells
        → AllKept mining (files (S.told site.old)) → IsSure At.Edges (files (S.told site.old)) → conf.now.form ≡ Base
        → Through (EachImage (Kept mining)) (S.told site.old) (S.told site.new) }
    ensures later { S.tells → StandsLater (files (S.told site.old)) (files (S.told site.new)) }
    ensures said { S.said site.new ≡ S.said site.old }
    ensures says { S.says site.new ≡ S.says site.old }
    ensures say_faults { S.say_faults site.new ≡ S.say_faults site.old }
    ensures cause { HasCause Stop.Disk (S.faults site.old) (S.faults site.new) result }
    ensures err { IfErr result IsOfJobs }
    ensures matrix { S.tells → OnOk result (IsSure At.Matrix (files (S.told site.new))) }
    ensures stored { S.tells → conf.now.form ≡ Base → IsSure At.Edges (files (S.told site.old))
        → IfErr result (IfBadStore (IsNotAsMade conf.now (files (S.told site.new)))) }
{
    make_matrix(alloc, site, conf)?;
    ensure_folder(alloc, site, conf, 0, Place::Vector(0))
}

ghost use Rattle.std.specs.Prelude.{◌≡◌, true, [], ◌∷◌, None, Some, IfSome, OnOk, IsErrOf, IfErr};
ghost use Rattle.dir_disk.specs.Causes.{HasCause};
ghost use Rattle.dir_disk.specs.Moments.{Both, EachImage, Through, files};
ghost use Rattle.dir_disk.specs.State.{StandsOutside};
ghost use Rattle.dir_disk.specs.Streams.{AtEnd};
ghost use Rattle.edge_text.specs.Edges.{edges_of, text_of as edges_text};
ghost use Rattle.committer.specs.Folders.{IsUnmarked, fixed};
ghost use Rattle.committer.specs.Paths.{success_of};
ghost use Rattle.conf.specs.Commands.{is_mining};
ghost use Rattle.conf.specs.Texts.{text_of};
ghost use Rattle.mining.specs.declared.place.Place.TheVariants as At;
ghost use Rattle.mining.specs.Places.{folder_of};
ghost use Rattle.mining.specs.Between.{AllFirm, IsSure};
ghost use Rattle.mining.specs.Flow.{mining_of};
ghost use Rattle.mining.specs.Kept.{AllKept, Kept};
ghost use Rattle.store.specs.Sealed.{IsMade, Makes};
ghost use Rattle.driver.specs.Opening.{KeepsFinished, StandsLater};
ghost use Rattle.mining.specs.Stops.{IsOfDisk, IsOfJobs};
ghost use Rattle.mining.specs.Failures.{IsOfNoTask};
ghost use Rattle.driver.specs.Causes.{IsOpened, IsRefusal, MakesNone, outcome_of};
ghost use Rattle.driver.specs.Opening.{mark_of};
ghost use Rattle.dir_disk.specs.State.{State};
ghost use Rattle.mining.specs.Stored.{IfBadStore, IsNoBadStore, IsNotAsMade};

use crate::comparing::check_job;
use committer::drop_folder;
use conf::{Conf, conf_text};
use dir_disk::{Site, Source};
use mining::{Place, Stop, has};
use peg_base::Path;
use std::alloc::Global;
use store::{write_edges, write_text};

/// Writes the folder of the settings anew.
fn write_conf<S: Site>(alloc: Global, site: &mut S, folder: &Path, text: &[u8]) -> Result<(), Stop>
    requires folder { folder.now ≡ folder_of At.Conf }
    requires none_running { (S.seen site.old).running ≡ [] }
    ensures none_running { (S.seen site.new).running ≡ [] }
    ensures seen { S.seen site.new ≡ S.seen site.old }
    ensures given { S.tells → S.given site.new ≡ S.given site.old }
    ensures no_task { IfErr result IsOfNoTask }
    ensures outside { S.tells
        → Through (Both (StandsOutside (folder_of At.Conf) (files (S.told site.old)))) (S.told site.old) (S.told site.new) }
    ensures made { S.tells → OnOk result (IsMade (folder_of At.Conf) text.now (files (S.told site.new))) }
    ensures said { S.said site.new ≡ S.said site.old }
    ensures says { S.says site.new ≡ S.says site.old }
    ensures say_faults { S.say_faults site.new ≡ S.say_faults site.old }
    ensures cause { HasCause Stop.Disk (S.faults site.old) (S.faults site.new) result }
    ensures err { IfErr result IsOfJobs }
    ensures of_disk { IfErr result IsOfDisk }
{
    drop_folder(alloc, site, folder)?;
    write_text(alloc, site, folder, text)?;
    Ok(())
}

/// Writes the settings.
fn make_conf<S: Site>(alloc: Global, site: &mut S, conf: &Conf) -> Result<(), Stop>
    requires mines { is_mining conf.now.command ≡ true }
    requires none_running { (S.seen site.old).running ≡ [] }
    ensures none_running { (S.seen site.new).running ≡ [] }
    ensures seen { S.seen site.new ≡ S.seen site.old }
    ensures given { S.tells → S.given site.new ≡ S.given site.old }
    ensures no_task { IfErr result IsOfNoTask }
    ensures outside { S.tells
        → Through (Both (StandsOutside (folder_of At.Conf) (files (S.told site.old)))) (S.told site.old) (S.told site.new) }
    ensures made { S.tells
        → OnOk result (IsMade (folder_of At.Conf) (text_of conf.now) (files (S.told site.new))) }
    ensures said { S.said site.new ≡ S.said site.old }
    ensures says { S.says site.new ≡ S.says site.old }
    ensures say_faults { S.say_faults site.new ≡ S.say_faults site.old }
    ensures cause { HasCause Stop.Disk (S.faults site.old) (S.faults site.new) result }
    ensures err { IfErr result IsOfJobs }
    ensures of_disk { IfErr result IsOfDisk }
{
    let folder = Place::Conf.path(alloc)?;
    let text = conf_text(alloc, conf)?;
    write_conf(alloc, site, &folder, &text)
}

/// Writes the edges that the source has left.
fn make_edges<E: Source, S: Site>(
    alloc: Global,
    site: &mut S,
    conf: &Conf,
    edges: &mut E,
) -> Result<(), Stop>
    requires none_running { (S.seen site.old).running ≡ [] }
    requires unmarked { S.tells → IsUnmarked (folder_of At.Edges) (files (S.told site.old)) }
    ensures none_running { (S.seen site.new).running ≡ [] }
    ensures seen { S.seen site.new ≡ S.seen site.old }
    ensures given { S.tells → S.given site.new ≡ S.given site.old }
    ensures no_task { IfErr result IsOfNoTask }
    ensures made { S.tells → IfSome (E.left edges.old)
        (λ bytes. OnOk result (IsMade (folder_of At.Edges) (edges_text (edges_of conf.now.nodes bytes).edges) (files (S.told site.new)))) }
    ensures steps { S.tells → IfSome (E.left edges.old)
        (λ bytes. Through (Makes (folder_of At.Edges) (edges_text (edges_of conf.now.nodes bytes).edges) (files (S.told site.old))) (S.told site.old) (S.told site.new)) }
    // Whatever the source tells, nothing else changes, and at Ok the folder is whole in each image.
    ensures outside { S.tells
        → Through (Both (StandsOutside (folder_of At.Edges) (files (S.told site.old)))) (S.told site.old) (S.told site.new) }
    ensures whole { S.tells
        → OnOk result (files (S.told site.new) (success_of (folder_of At.Edges)) ≡ fixed (Some [])) }
    ensures opened { IfSome (E.left edges.old) (λ bytes. (state : State) → mark_of At.Edges state ≡ None
        → IsOpened conf.now state bytes (outcome_of result)) }
    ensures unmade { S.tells → IsRefusal (outcome_of result)
        → IsUnmarked (folder_of At.Edges) (files (S.told site.new)) }
    ensures end { OnOk result (AtEnd (E.left edges.new)) }
    ensures said { S.said site.new ≡ S.said site.old }
    ensures says { S.says site.new ≡ S.says site.old }
    ensures say_faults { S.say_faults site.new ≡ S.say_faults site.old }
    ensures cause { HasCause Stop.Disk (S.faults site.old) (S.faults site.new) result }
    ensures read { HasCause Stop.Read (E.faults edges.old) (E.faults edges.new) result }
    ensures no_say { ¬ IsErrOf result Stop.Say }
    ensures no_store { IfErr result IsNoBadStore }
{
    let folder = Place::Edges.path(alloc)?;
    write_edges(alloc, conf.nodes, edges, site, &folder)?;
    Ok(())
}

/// Writes the settings and the edges that the source has left.
fn begin_job<E: Source, S: Site>(
    alloc: Global,
    site: &mut S,
    conf: &Conf,
    edges: &mut E,
) -> Result<(), Stop>
    requires mines { is_mining conf.now.command ≡ true }
    requires none_running { (S.seen site.old).running ≡ [] }
    requires firm { S.tells → AllFirm (files (S.told site.old)) }
    requires unmarked { S.tells → IsUnmarked (folder_of At.Edges) (files (S.told site.old)) }
    ensures none_running { (S.seen site.new).running ≡ [] }
    ensures seen { S.seen site.new ≡ S.seen site.old }
    ensures given { S.tells → S.given site.new ≡ S.given site.old }
    ensures no_task { IfErr result IsOfNoTask }
    ensures firm { S.tells → OnOk result (AllFirm (files (S.told site.new))) }
    ensures sure { S.tells → OnOk result (IsSure At.Edges (files (S.told site.new))) }
    ensures kept { IfSome (E.left edges.old) (λ bytes. let mining = mining_of S.gives conf.now (edges_of conf.now.nodes bytes).edges in S.tells
        → AllKept mining (files (S.told site.old))
        → Through (EachImage (Kept mining)) (S.told site.old) (S.told site.new)) }
    ensures opened { IfSome (E.left edges.old)
        (λ bytes. S.tells → IsOpened conf.now (files (S.told site.old)) bytes (outcome_of result)) }
    ensures unmade { S.tells → IsRefusal (outcome_of result)
        → MakesNone (files (S.told site.old)) (files (S.told site.new)) }
    ensures end { OnOk result (AtEnd (E.left edges.new)) }
    ensures later { S.tells → StandsLater (files (S.told site.old)) (files (S.told site.new)) }
    ensures said { S.said site.new ≡ S.said site.old }
    ensures says { S.says site.new ≡ S.says site.old }
    ensures say_faults { S.say_faults site.new ≡ S.say_faults site.old }
    ensures cause { HasCause Stop.Disk (S.faults site.old) (S.faults site.new) result }
    ensures read { HasCause Stop.Read (E.faults edges.old) (E.faults edges.new) result }
    ensures no_say { ¬ IsErrOf result Stop.Say }
    ensures stays { S.tells
        → Through (Both (KeepsFinished (files (S.told site.old)))) (S.told site.old) (S.told site.new) }
    ensures no_store { IfErr result IsNoBadStore }
{
    make_conf(alloc, site, conf)?;
    make_edges(alloc, site, conf, edges)
}

/// Takes in the settings and the edges.
pub fn take_job<E: Source, S: Site>(
    alloc: Global,
    site: &mut S,
    conf: &Conf,
    edges: &mut E,
) -> Result<(), Stop>
    requires mines { is_mining conf.now.command ≡ true }
    requires none_running { (S.seen site.old).running ≡ [] }
    requires firm { S.tells → AllFirm (files (S.told site.old)) }
    ensures none_running { (S.seen site.new).running ≡ [] }
    ensures seen { S.seen site.new ≡ S.seen site.old }
    ensures given { S.tells → S.given site.new ≡ S.given site.old }
    ensures no_task { IfErr result IsOfNoTask }
    ensures firm { S.tells → OnOk result (AllFirm (files (S.told site.new))) }
    ensures sure { S.tells → OnOk result (IsSure At.Edges (files (S.told site.new))) }
    ensures kept { IfSome (E.left edges.old) (λ bytes. let mining = mining_of S.gives conf.now (edges_of conf.now.nodes bytes).edges in S.tells
        → AllKept mining (files (S.told site.old))
        → Through (EachImage (Kept mining)) (S.told site.old) (S.told site.new)) }
    ensures opened { IfSome (E.left edges.old)
        (λ bytes. S.tells → IsOpened conf.now (files (S.told site.old)) bytes (outcome_of result)) }
    ensures unmade { S.tells → IsRefusal (outcome_of result)
        → MakesNone (files (S.told site.old)) (files (S.told site.new)) }
    ensures end { OnOk result (AtEnd (E.left edges.new)) }
    ensures later { S.tells → StandsLater (files (S.told site.old)) (files (S.told site.new)) }
    ensures said { S.said site.new ≡ S.said site.old }
    ensures says { S.says site.new ≡ S.says site.old }
    ensures say_faults { S.say_faults site.new ≡ S.say_faults site.old }
    ensures cause { HasCause Stop.Disk (S.faults site.old) (S.faults site.new) result }
    ensures read { HasCause Stop.Read (E.faults edges.old) (E.faults edges.new) result }
    ensures no_say { ¬ IsErrOf result Stop.Say }
    ensures stays { S.tells
        → Through (Both (KeepsFinished (files (S.told site.old)))) (S.told site.old) (S.told site.new) }
    ensures stored { S.tells
        → IfErr result (IfBadStore (IsNotAsMade conf.now (files (S.told site.new)))) }
{
    if has(alloc, site, Place::Edges)? {
        check_job(alloc, site, conf, edges)
    } else {
        begin_job(alloc, site, conf, edges)
    }
}

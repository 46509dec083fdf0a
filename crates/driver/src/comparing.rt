ghost use Rattle.std.specs.Prelude.{◌≡◌, true, [], ◌<◌, IfSome, IsSome, Some, IsErrOf, OnOk, length, IfErr};
ghost use Rattle.dir_disk.specs.Causes.{HasCause};
ghost use Rattle.dir_disk.specs.Moments.{Both, Through, files};
ghost use Rattle.dir_disk.specs.Streams.{AtEnd};
ghost use Rattle.committer.specs.Paths.{part_of};
ghost use Rattle.conf.specs.Commands.{is_mining};
ghost use Rattle.conf.specs.Texts.{text_of};
ghost use Rattle.mining.specs.declared.place.Place.TheVariants as At;
ghost use Rattle.mining.specs.Places.{folder_of};
ghost use Rattle.mining.specs.Failures.{IsOfNoTask};
ghost use Rattle.driver.specs.Opening.{IsJudgedJob, mark_of};
ghost use Rattle.driver.specs.Causes.{IsOpened, found_in, outcome_of};
ghost use Rattle.mining.specs.Between.{IsSure};
ghost use Rattle.mining.specs.Stored.{IfBadStore, IsNotAsMade};

use committer::part_path;
use conf::{Conf, conf_text};
use dir_disk::{Site, Source};
use mining::{Place, Stop};
use peg_base::Path;
use std::alloc::Global;
use store::{check_edges, compare_text, missing_part};

/// Compares a text with a file.
fn check_text<S: Site>(alloc: Global, site: &mut S, path: &Path, text: &[u8]) -> Result<(), Stop>
    requires none_running { (S.seen site.old).running ≡ [] }
    ensures none_running { (S.seen site.new).running ≡ [] }
    ensures seen { S.seen site.new ≡ S.seen site.old }
    ensures given { S.tells → S.given site.new ≡ S.given site.old }
    ensures no_task { IfErr result IsOfNoTask }
    ensures stands { S.tells
        → Through (Both (λ state. state ≡ files (S.told site.old))) (S.told site.old) (S.told site.new) }
    ensures judged { S.tells → IsJudgedJob (files (S.told site.old) path.now).now text.now result }
    ensures said { S.said site.new ≡ S.said site.old }
    ensures says { S.says site.new ≡ S.says site.old }
    ensures say_faults { S.say_faults site.new ≡ S.say_faults site.old }
    ensures cause { HasCause Stop.Disk (S.faults site.old) (S.faults site.new) result }
    ensures no_say { ¬ IsErrOf result Stop.Say }
    ensures no_read { ¬ IsErrOf result Stop.Read }
{
    match compare_text(alloc, site, path, text)? {
        None => Ok(()),
        Some(line) => Err(Stop::OtherJob { line }),
    }
}

/// Compares the settings with those of the work folder.
pub fn check_conf<S: Site>(alloc: Global, site: &mut S, conf: &Conf) -> Result<(), Stop>
    requires mines { is_mining conf.now.command ≡ true }
    requires none_running { (S.seen site.old).running ≡ [] }
    ensures none_running { (S.seen site.new).running ≡ [] }
    ensures seen { S.seen site.new ≡ S.seen site.old }
    ensures given { S.tells → S.given site.new ≡ S.given site.old }
    ensures no_task { IfErr result IsOfNoTask }
    ensures stands { S.tells
        → Through (Both (λ state. state ≡ files (S.told site.old))) (S.told site.old) (S.told site.new) }
    ensures judged { S.tells
        → IsJudgedJob (files (S.told site.old) (part_of (folder_of At.Conf) 0)).now (text_of conf.now) result }
    ensures said { S.said site.new ≡ S.said site.old }
    ensures says { S.says site.new ≡ S.says site.old }
    ensures say_faults { S.say_faults site.new ≡ S.say_faults site.old }
    ensures cause { HasCause Stop.Disk (S.faults site.old) (S.faults site.new) result }
    ensures no_say { ¬ IsErrOf result Stop.Say }
    ensures no_read { ¬ IsErrOf result Stop.Read }
{
    let folder = Place::Conf.path(alloc)?;
    let text = conf_text(alloc, conf)?;
    let part = part_path(alloc, &folder, 0)?;
    check_text(alloc, site, &part, &text)
}

/// Compares the edges that the source has left with those of the work folder.
pub fn check_source<E: Source, S: Site>(
    alloc: Global,
    site: &mut S,
    conf: &Conf,
    edges: &mut E,
) -> Result<(), Stop>
    requires none_running { (S.seen site.old).running ≡ [] }
    ensures none_running { (S.seen site.new).running ≡ [] }
    ensures seen { S.seen site.new ≡ S.seen site.old }
    ensures given { S.tells → S.given site.new ≡ S.given site.old }
    ensures no_task { IfErr result IsOfNoTask }
    ensures stands { S.tells
        → Through (Both (λ state. state ≡ files (S.told site.old))) (S.told site.old) (S.told site.new) }
    ensures opened { IfSome (E.left edges.old) (λ bytes. let found = found_in (files (S.told site.old)) in S.tells
        → IsSome found.mark → found.conf ≡ Some (text_of conf.now)
        → IsOpened conf.now (files (S.told site.old)) bytes (outcome_of result)) }
    ensures end { OnOk result (AtEnd (E.left edges.new)) }
    ensures said { S.said site.new ≡ S.said site.old }
    ensures says { S.says site.new ≡ S.says site.old }
    ensures say_faults { S.say_faults site.new ≡ S.say_faults site.old }
    ensures cause { HasCause Stop.Disk (S.faults site.old) (S.faults site.new) result }
    ensures read { HasCause Stop.Read (E.faults edges.old) (E.faults edges.new) result }
    ensures no_say { ¬ IsErrOf result Stop.Say }
    ensures stored { S.tells → IsSure At.Edges (files (S.told site.old))
        → IfErr result (IfBadStore (IsNotAsMade conf.now (files (S.told site.new)))) }
{
    let folder = Place::Edges.path(alloc)?;
    if let Some(path) = missing_part(alloc, site, &folder, 1)? {
        return Err(Stop::BadStore { path, line: 0 });
    }
    let part = part_path(alloc, &folder, 0)?;
    check_edges(alloc, conf.nodes, edges, site, &part)?;
    Ok(())
}

/// Compares the settings and the edges that the source has left with those of the work folder.
pub fn check_job<E: Source, S: Site>(
    alloc: Global,
    site: &mut S,
    conf: &Conf,
    edges: &mut E,
) -> Result<(), Stop>
    requires mines { is_mining conf.now.command ≡ true }
    requires none_running { (S.seen site.old).running ≡ [] }
    ensures none_running { (S.seen site.new).running ≡ [] }
    ensures seen { S.seen site.new ≡ S.seen site.old }
    ensures given { S.tells → S.given site.new ≡ S.given site.old }
    ensures no_task { IfErr result IsOfNoTask }
    ensures stands { S.tells
        → Through (Both (λ state. state ≡ files (S.told site.old))) (S.told site.old) (S.told site.new) }
    ensures opened { IfSome (E.left edges.old) (λ bytes. S.tells → IsSome (mark_of At.Edges (files (S.told site.old)))
        → IsOpened conf.now (files (S.told site.old)) bytes (outcome_of result)) }
    ensures end { OnOk result (AtEnd (E.left edges.new)) }
    ensures said { S.said site.new ≡ S.said site.old }
    ensures says { S.says site.new ≡ S.says site.old }
    ensures say_faults { S.say_faults site.new ≡ S.say_faults site.old }
    ensures cause { HasCause Stop.Disk (S.faults site.old) (S.faults site.new) result }
    ensures read { HasCause Stop.Read (E.faults edges.old) (E.faults edges.new) result }
    ensures no_say { ¬ IsErrOf result Stop.Say }
    ensures stored { S.tells → IsSure At.Edges (files (S.told site.old))
        → IfErr result (IfBadStore (IsNotAsMade conf.now (files (S.told site.new)))) }
{
    check_conf(alloc, site, conf)?;
    check_source(alloc, site, conf, edges)
}

ghost use Rattle.std.specs.Prelude.{◌≡◌, ◌<◌, ◌^◌, [], List, false, OnOk, IsErrOf, IfErr, true, ◌+◌};
ghost use Rattle.dir_disk.specs.Causes.{HasCause};
ghost use Rattle.dir_disk.specs.Moments.{Both, EachImage, Through, files};
ghost use Rattle.dir_disk.specs.State.{StandsOutside};
ghost use Rattle.graph.specs.declared.edges.Edge.{Edge};
ghost use Rattle.committer.specs.Folders.{IsUnmarked};
ghost use Rattle.conf.specs.Limits.{IsWithinLimits};
ghost use Rattle.job.specs.Logged.{JobLog, TellsOfJob};
ghost use Rattle.job.specs.Output.{job_parts};
ghost use Rattle.job.specs.Whole.{CanBegin, IsFinished, IsInLimits, Makes, plan_of};
ghost use Rattle.mining.specs.Places.{folder_of, IsInTable, is_sealed, is_made, rank_of};
ghost use Rattle.mining.specs.Flow.{mining_of};
ghost use Rattle.mining.specs.Kept.{AllKept, Kept};
ghost use Rattle.mining.specs.Between.{AllFirm, CanRead, IsDue, IsSure, KeepsWhole};
ghost use Rattle.mining.specs.Making.{parts_from};
ghost use Rattle.mining.specs.Stops.{IsOfJobs};
ghost use Rattle.mining.specs.Jobs.{FinishesWithin, GainsWithin, rule_of};
ghost use Rattle.mining.specs.Failures.{TellsOfAnswer};
ghost use Rattle.job.specs.Failing.{gained};
ghost use Rattle.mining.specs.Stored.{IfBadStore, LacksFile};
ghost use Rattle.mining.specs.Table.{paths_read};

use crate::check::check_parts;
use crate::place::Place;
use crate::spec::job_spec;
use crate::stop::Stop;
use committer::is_whole;
use conf::Conf;
use dir_disk::Site;
use job::{JobFault, JobReport, JobSpec, run_job};
use spec_job::run_job_twice;
use std::alloc::Global;

/// Runs a job, with two attempts of a task at once where the settings ask for them. What it leaves and what it answers is
/// promised alike for both; the log alone tells which it was.
fn run_by_settings<S: Site>(
    alloc: Global,
    site: &mut S,
    conf: &Conf,
    spec: &JobSpec,
) -> Result<JobReport, JobFault>
    requires limits { IsInLimits spec.now }
    requires none_running { (S.seen site.old).running ≡ [] }
    requires can { S.tells → CanBegin spec.now (files (S.told site.old)) }
    ensures none_running { (S.seen site.new).running ≡ [] }
    ensures steps { let plan = plan_of spec.now (files (S.told site.old)) in S.tells
        → Through (Makes spec.now.folder (job_parts S.gives plan) (files (S.told site.old)))
        (S.told site.old) (S.told site.new) }
    ensures finished { let plan = plan_of spec.now (files (S.told site.old)) in S.tells
        → OnOk result (IsFinished spec.now.folder (job_parts S.gives plan) (files (S.told site.new))) }
    ensures log { let plan = plan_of spec.now (files (S.told site.old)) in
        JobLog (rule_of conf.now) S.tells S.gives spec.now.folder plan spec.now.slots
        (S.seen site.old) (S.seen site.new) (S.given site.old) (S.given site.new) (S.told site.new) result }
    ensures tells { TellsOfJob spec.now.folder (gained (S.seen site.old).log (S.seen site.new).log) result }
    ensures said { S.said site.new ≡ S.said site.old }
    ensures says { S.says site.new ≡ S.says site.old }
    ensures say_faults { S.say_faults site.new ≡ S.say_faults site.old }
    ensures cause { HasCause JobFault.Disk (S.faults site.old) (S.faults site.new) result }
{
    if conf.backup {
        return run_job_twice(alloc, site, spec);
    }
    run_job(alloc, site, spec)
}

/// Makes a folder, which is whole in no image, by its job.
pub fn make_folder<S: Site>(
    alloc: Global,
    site: &mut S,
    conf: &Conf,
    last: u32,
    place: Place,
) -> Result<(), Stop>
    requires limits { IsWithinLimits conf.now }
    requires last { last < 10 ^ 10 }
    requires job { is_sealed place ≡ false }
    requires is_there { IsInTable place }
    requires none_running { (S.seen site.old).running ≡ [] }
    requires unmarked { S.tells → IsUnmarked (folder_of place) (files (S.told site.old)) }
    ensures none_running { (S.seen site.new).running ≡ [] }
    ensures answers { TellsOfAnswer (gained (S.seen site.old).log (S.seen site.new).log) result }
    ensures log { is_made conf.now.form place ≡ true
        → GainsWithin S.tells S.gives conf.now (rank_of place) (rank_of place + 1)
        (S.seen site.old) (S.seen site.new) (S.given site.old) (S.given site.new) (S.told site.new) }
    ensures logged { is_made conf.now.form place ≡ true
        → OnOk result (FinishesWithin S.tells S.gives conf.now (rank_of place) (rank_of place + 1)
        (S.seen site.old) (S.seen site.new) (S.given site.old) (S.given site.new) (S.told site.new)) }
    ensures steps { let parts = parts_from S.gives conf.now last place (files (S.told site.old)) in S.tells
        → Through (Makes (folder_of place) parts (files (S.told site.old))) (S.told site.old) (S.told site.new) }
    ensures finished { let parts = parts_from S.gives conf.now last place (files (S.told site.old)) in S.tells
        → OnOk result (IsFinished (folder_of place) parts (files (S.told site.new))) }
    ensures said { S.said site.new ≡ S.said site.old }
    ensures says { S.says site.new ≡ S.says site.old }
    ensures say_faults { S.say_faults site.new ≡ S.say_faults site.old }
    ensures cause { HasCause Stop.Disk (S.faults site.old) (S.faults site.new) result }
    ensures err { IfErr result IsOfJobs }
    ensures stored { S.tells
        → IfErr result (IfBadStore (LacksFile (paths_read conf.now last place) (files (S.told site.new)))) }
{
    let spec = job_spec(alloc, conf, last, place)?;
    check_parts(alloc, site, &spec.inputs)?;
    run_by_settings(alloc, site, conf, &spec)?;
    Ok(())
}

/// Makes a folder by its job, unless it is whole.
pub fn ensure_folder<S: Site>(
    alloc: Global,
    site: &mut S,
    conf: &Conf,
    last: u32,
    place: Place,
) -> Result<(), Stop>
    requires limits { IsWithinLimits conf.now }
    requires last { last < 10 ^ 10 }
    requires job { is_sealed place ≡ false }
    requires is_there { IsInTable place }
    requires none_running { (S.seen site.old).running ≡ [] }
    requires firm { S.tells → AllFirm (files (S.told site.old)) }
    ensures none_running { (S.seen site.new).running ≡ [] }
    ensures answers { TellsOfAnswer (gained (S.seen site.old).log (S.seen site.new).log) result }
    ensures log { is_made conf.now.form place ≡ true
        → GainsWithin S.tells S.gives conf.now (rank_of place) (rank_of place + 1)
        (S.seen site.old) (S.seen site.new) (S.given site.old) (S.given site.new) (S.told site.new) }
    ensures logged { is_made conf.now.form place ≡ true
        → OnOk result (FinishesWithin S.tells S.gives conf.now (rank_of place) (rank_of place + 1)
        (S.seen site.old) (S.seen site.new) (S.given site.old) (S.given site.new) (S.told site.new)) }
    ensures idle { S.tells → IsSure place (files (S.told site.old))
        → (S.seen site.new ≡ S.seen site.old) × (S.given site.new ≡ S.given site.old) }
    ensures firm { S.tells → OnOk result (AllFirm (files (S.told site.new))) }
    ensures sure { S.tells → OnOk result (IsSure place (files (S.told site.new))) }
    // Whole folders stay as they are, and in the end nothing else has changed.
    ensures stays { S.tells
        → Through (Both (KeepsWhole (files (S.told site.old)))) (S.told site.old) (S.told site.new) }
    ensures outside { S.tells
        → StandsOutside (folder_of place) (files (S.told site.old)) (files (S.told site.new)) }
    // Each image is kept, where the folder is due.
    ensures kept { (edges : List Edge) → let mining = mining_of S.gives conf.now edges in S.tells
        → AllKept mining (files (S.told site.old)) → IsDue mining place (files (S.told site.old))
        → CanRead mining last place (files (S.told site.old))
        → Through (EachImage (Kept mining)) (S.told site.old) (S.told site.new) }
    ensures said { S.said site.new ≡ S.said site.old }
    ensures says { S.says site.new ≡ S.says site.old }
    ensures say_faults { S.say_faults site.new ≡ S.say_faults site.old }
    ensures cause { HasCause Stop.Disk (S.faults site.old) (S.faults site.new) result }
    ensures err { IfErr result IsOfJobs }
    ensures stored { S.tells
        → IfErr result (IfBadStore (LacksFile (paths_read conf.now last place) (files (S.told site.new)))) }
{
    let folder = place.path(alloc)?;
    if is_whole(alloc, site, &folder)? {
        return Ok(());
    }
    make_folder(alloc, site, conf, last, place)
}

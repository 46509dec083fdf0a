ghost use Rattle.std.specs.Prelude.{◌≡◌, [], length, IfOk, OnOk};
ghost use Rattle.dir_disk.specs.Causes.{HasCause};
ghost use Rattle.dir_disk.specs.Moments.{Through, files};
ghost use Rattle.committer.specs.Paths.{shuffle_of};
ghost use Rattle.job.specs.Chunks.{chunks_of};
ghost use Rattle.job.specs.Failing.{gained};
ghost use Rattle.job.specs.Logged.{IsLeftBy, JobLog, TellsOfJob};
ghost use Rattle.job.specs.Shuffled.{HasJustRuns};
ghost use Rattle.job.specs.Output.{job_parts, map_inputs, map_outputs, pairs_among};
ghost use Rattle.job.specs.Whole.{CanBegin, IsFinished, IsInLimits, Makes, Once, plan_of};
ghost use Rattle.twins.specs.Rules.{MayStartTwin};

use crate::twice::Twice;
use dir_disk::Site;
use job::{JobFault, JobReport, JobSpec, run_job_over};
use std::alloc::Global;

/// Runs a whole job as `run_job` does, with two attempts of a task at once where a slot would stay free else.
///
/// A second attempt of the least task of which one runs is started where no task waits for an attempt. The output of the
/// first attempt of a task that ends with status 0 is committed, and that of another one never; no child is killed, so
/// each phase still waits for the slower one. A task whose attempts failed four times is dead. After a refusal the folder
/// is not whole, whatever a stop leaves; but where the commit itself was refused it may be whole, with all its parts. No
/// file outside the folder changes.
pub fn run_job_twice<S: Site>(
    alloc: Global,
    site: &mut S,
    spec: &JobSpec,
) -> Result<JobReport, JobFault>
    requires limits { IsInLimits spec.now }
    requires none_running { (S.seen site.old).running ≡ [] }
    requires can { S.tells → CanBegin spec.now (files (S.told site.old)) }
    // No child runs.
    ensures none_running { (S.seen site.new).running ≡ [] }
    // At every moment each image has the folder not whole, or whole with its parts and no other file, and all outside it is
    // as at entry.
    ensures steps { let plan = plan_of spec.now (files (S.told site.old)) in S.tells
        → Through (Makes spec.now.folder (job_parts S.gives plan) (files (S.told site.old)))
        (S.told site.old) (S.told site.new) }
    // The folder is whole in every image, with its parts and no other file.
    ensures finished { let plan = plan_of spec.now (files (S.told site.old)) in S.tells
        → OnOk result (IsFinished spec.now.folder (job_parts S.gives plan) (files (S.told site.new))) }
    // After a refusal no image has the folder whole, but where the commit itself was refused.
    ensures left { S.tells → IsLeftBy spec.now.folder spec.now.reducers
        (gained (S.seen site.old).log (S.seen site.new).log) (files (S.told site.new)) result }
    // The reducers got what was merged: at some moment the shuffle's folder had the runs of just these chunks.
    ensures merged { let plan = plan_of spec.now (files (S.told site.old)) in S.tells
        → OnOk result (Once (HasJustRuns (shuffle_of spec.now.folder) spec.now.reducers
        (chunks_of spec.now.spill (pairs_among (map_outputs S.gives plan)))) (S.told site.old) (S.told site.new)) }
    // The log gained a run of the machine for each phase, and the children were given their words and texts. After a dead
    // task no call of the directory was made.
    ensures log { let plan = plan_of spec.now (files (S.told site.old)) in
        JobLog MayStartTwin S.tells S.gives spec.now.folder plan spec.now.slots
        (S.seen site.old) (S.seen site.new) (S.given site.old) (S.given site.new) (S.told site.new) result }
    // The entries of the log tell the answer by themselves.
    ensures tells { TellsOfJob spec.now.folder (gained (S.seen site.old).log (S.seen site.new).log) result }
    // The report has the numbers of map tasks, of reduce tasks and of pairs.
    ensures maps { let plan = plan_of spec.now (files (S.told site.old)) in S.tells
        → IfOk result (λ report. report.maps ≡ length (map_inputs plan)) }
    ensures reduces { IfOk result (λ report. report.reduces ≡ spec.now.reducers) }
    ensures pairs { let plan = plan_of spec.now (files (S.told site.old)) in S.tells
        → IfOk result (λ report. report.pairs ≡ length (pairs_among (map_outputs S.gives plan))) }
    ensures said { S.said site.new ≡ S.said site.old }
    ensures says { S.says site.new ≡ S.says site.old }
    ensures say_faults { S.say_faults site.new ≡ S.say_faults site.old }
    ensures cause { HasCause JobFault.Disk (S.faults site.old) (S.faults site.new) result }
{
    run_job_over(alloc, site, &Twice, spec)
}

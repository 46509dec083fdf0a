ghost use Rattle.std.specs.Prelude.{◌≡◌, ◌≤◌, [], length, map, IfErr, IfOk, OnOk};
ghost use Rattle.std.specs.List.{range_with_len};
ghost use Rattle.peg_base.specs.declared.tasks.Phase.TheVariants.{Map, Reduce};
ghost use Rattle.dir_disk.specs.Causes.{HasCause};
ghost use Rattle.dir_disk.specs.Moments.{Through, files};
ghost use Rattle.committer.specs.Folders.{Writes};
ghost use Rattle.committer.specs.Paths.{shuffle_of, task_output_of};
ghost use Rattle.job.specs.Chunks.{chunks_of};
ghost use Rattle.job.specs.Failing.{gained};
ghost use Rattle.job.specs.Logged.{IsLeftBy, JobLog, MapLog, NamesNoTask, NoneTwice, PhaseLog, TellsOfJob, reduced_attempts};
ghost use Rattle.job.specs.Shuffled.{HasJustRuns};
ghost use Rattle.job.specs.Output.{job_parts, map_inputs, map_outputs, pairs_among, reduce_inputs};
ghost use Rattle.job.specs.Whole.{CanBegin, IsFinished, IsInLimits, IsMapped, IsReduced, IsShuffled, Makes, Once, plan_of};
ghost use Rattle.job.specs.Work.{work_of};
ghost use Rattle.task_core.specs.Board.{MayStart};

use crate::fault::JobFault;
use crate::inputs::write_inputs;
use crate::phase::{Alone, Phases};
use crate::shuffling::shuffle;
use crate::spec::{JobReport, JobSpec};
use committer::{commit_job, open_folder, task_output};
use dir_disk::Site;
use peg_base::{Path, Phase};
use peg_text::NoMemory;
use std::alloc::Global;

/// What the map tasks of a job came to.
#[derive(Clone, Copy)]
struct Mapped {
    /// The number of tasks.
    tasks: u32,
    /// How many children were started, or could not be started.
    attempts: u32,
}

/// What the reduce tasks of a job came to.
#[derive(Clone, Copy)]
struct Reduced {
    /// How many pairs they read.
    pairs: u64,
    /// How many children were started, or could not be started.
    attempts: u32,
}

/// Empties the job's folder, writes the splits of its inputs, and runs the map tasks.
fn map_stage<S: Site, P: Phases>(
    alloc: Global,
    site: &mut S,
    phases: &P,
    spec: &JobSpec,
) -> Result<Mapped, JobFault>
    requires limits { IsInLimits spec.now }
    requires none_running { (S.seen site.old).running ≡ [] }
    requires can { S.tells → CanBegin spec.now (files (S.told site.old)) }
    ensures none_running { (S.seen site.new).running ≡ [] }
    ensures few { IfOk result (λ mapped. mapped.tasks ≤ 524288) }
    ensures few_attempts { IfOk result (λ mapped. mapped.attempts ≤ 2097152) }
    ensures steps { S.tells → Through (Writes spec.now.folder (files (S.told site.old)))
        (S.told site.old) (S.told site.new) }
    ensures mapped { let plan = plan_of spec.now (files (S.told site.old)) in S.tells
        → OnOk result (IsMapped spec.now.folder (map_outputs S.gives plan) (files (S.told site.new))) }
    ensures log { let plan = plan_of spec.now (files (S.told site.old)) in
        MapLog P.may S.tells spec.now.folder plan spec.now.slots
        (S.seen site.old) (S.seen site.new) (S.given site.old) (S.given site.new) (S.told site.new) result }
    ensures said { S.said site.new ≡ S.said site.old }
    ensures says { S.says site.new ≡ S.says site.old }
    ensures say_faults { S.say_faults site.new ≡ S.say_faults site.old }
    ensures cause { HasCause JobFault.Disk (S.faults site.old) (S.faults site.new) result }
{
    open_folder(alloc, site, &spec.folder)?;
    let tasks = write_inputs(alloc, site, &spec.folder, &spec.inputs, spec.split)?;
    let attempts = phases.run(
        alloc,
        site,
        &spec.folder,
        Phase::Map,
        &spec.map,
        tasks,
        spec.slots,
    )?;
    Ok(Mapped { tasks, attempts })
}

/// Where the map tasks have left their outputs, in the order of the tasks.
fn output_paths(alloc: Global, folder: &Path, tasks: u32) -> Result<Vec<Path>, NoMemory>
    requires { length folder.now ≤ 4 }
    ensures { IfOk result (λ paths. paths.items ≡ map (task_output_of folder.now Map) (range_with_len 0 tasks)) }
{
    let mut paths = Vec::new(alloc);
    for task in 0..tasks {
        paths.push(task_output(alloc, folder, Phase::Map, task)?)?;
    }
    Ok(paths)
}

/// Sorts the pairs that the map tasks wrote, merges them for each part, and answers how many there are.
fn shuffle_outputs<S: Site>(
    alloc: Global,
    site: &mut S,
    spec: &JobSpec,
    tasks: u32,
) -> Result<u64, JobFault>
    requires limits { IsInLimits spec.now }
    requires few { tasks ≤ 524288 }
    requires none_running { (S.seen site.old).running ≡ [] }
    requires count { S.tells → tasks ≡ length (map_inputs (plan_of spec.now (files (S.told site.old)))) }
    requires mapped { let plan = plan_of spec.now (files (S.told site.old)) in S.tells
        → IsMapped spec.now.folder (map_outputs S.gives plan) (files (S.told site.old)) }
    ensures no_task { IfErr result NamesNoTask }
    ensures seen { S.seen site.new ≡ S.seen site.old }
    ensures given { S.tells → S.given site.new ≡ S.given site.old }
    ensures pairs { let plan = plan_of spec.now (files (S.told site.old)) in S.tells
        → IfOk result (λ pairs. pairs ≡ length (pairs_among (map_outputs S.gives plan))) }
    ensures steps { S.tells → Through (Writes spec.now.folder (files (S.told site.old)))
        (S.told site.old) (S.told site.new) }
    ensures shuffled { let plan = plan_of spec.now (files (S.told site.old)) in S.tells
        → OnOk result (IsShuffled spec.now.folder tasks (reduce_inputs S.gives plan) (files (S.told site.new))) }
    ensures runs { let plan = plan_of spec.now (files (S.told site.old)) in S.tells
        → OnOk result (HasJustRuns (shuffle_of spec.now.folder) spec.now.reducers
        (chunks_of spec.now.spill (pairs_among (map_outputs S.gives plan))) (files (S.told site.new))) }
    ensures said { S.said site.new ≡ S.said site.old }
    ensures says { S.says site.new ≡ S.says site.old }
    ensures say_faults { S.say_faults site.new ≡ S.say_faults site.old }
    ensures cause { HasCause JobFault.Disk (S.faults site.old) (S.faults site.new) result }
{
    let outputs = output_paths(alloc, &spec.folder, tasks)?;
    let pairs = shuffle(
        alloc,
        site,
        &spec.folder,
        &outputs,
        spec.reducers,
        spec.spill,
    )?;
    Ok(pairs)
}

/// Shuffles what the map tasks wrote, and runs the reduce tasks.
fn reduce_stage<S: Site, P: Phases>(
    alloc: Global,
    site: &mut S,
    phases: &P,
    spec: &JobSpec,
    tasks: u32,
) -> Result<Reduced, JobFault>
    requires limits { IsInLimits spec.now }
    requires few { tasks ≤ 524288 }
    requires none_running { (S.seen site.old).running ≡ [] }
    requires count { S.tells → tasks ≡ length (map_inputs (plan_of spec.now (files (S.told site.old)))) }
    requires mapped { let plan = plan_of spec.now (files (S.told site.old)) in S.tells
        → IsMapped spec.now.folder (map_outputs S.gives plan) (files (S.told site.old)) }
    ensures none_running { (S.seen site.new).running ≡ [] }
    ensures few_attempts { IfOk result (λ reduced. reduced.attempts ≤ 256) }
    ensures pairs { let plan = plan_of spec.now (files (S.told site.old)) in S.tells
        → IfOk result (λ reduced. reduced.pairs ≡ length (pairs_among (map_outputs S.gives plan))) }
    ensures steps { S.tells → Through (Writes spec.now.folder (files (S.told site.old)))
        (S.told site.old) (S.told site.new) }
    ensures reduced { let plan = plan_of spec.now (files (S.told site.old)) in S.tells
        → OnOk result (IsReduced spec.now.folder (job_parts S.gives plan) (files (S.told site.new))) }
    ensures merged { let plan = plan_of spec.now (files (S.told site.old)) in S.tells
        → OnOk result (Once (HasJustRuns (shuffle_of spec.now.folder) spec.now.reducers
        (chunks_of spec.now.spill (pairs_among (map_outputs S.gives plan)))) (S.told site.old) (S.told site.new)) }
    ensures log { let plan = plan_of spec.now (files (S.told site.old)) in
        PhaseLog P.may S.tells (work_of spec.now.folder Reduce spec.now.reduce spec.now.reducers) spec.now.slots
        (reduce_inputs S.gives plan) (S.seen site.old) (S.seen site.new) (S.given site.old) (S.given site.new)
        (S.told site.new) (reduced_attempts result) }
    ensures said { S.said site.new ≡ S.said site.old }
    ensures says { S.says site.new ≡ S.says site.old }
    ensures say_faults { S.say_faults site.new ≡ S.say_faults site.old }
    ensures cause { HasCause JobFault.Disk (S.faults site.old) (S.faults site.new) result }
{
    let pairs = shuffle_outputs(alloc, site, spec, tasks)?;
    let attempts = phases.run(
        alloc,
        site,
        &spec.folder,
        Phase::Reduce,
        &spec.reduce,
        spec.reducers,
        spec.slots,
    )?;
    Ok(Reduced { pairs, attempts })
}

/// Runs a whole job, its phases as they are handed in.
pub fn run_job_over<S: Site, P: Phases>(
    alloc: Global,
    site: &mut S,
    phases: &P,
    spec: &JobSpec,
) -> Result<JobReport, JobFault>
    requires limits { IsInLimits spec.now }
    requires none_running { (S.seen site.old).running ≡ [] }
    requires can { S.tells → CanBegin spec.now (files (S.told site.old)) }
    // No child runs.
    ensures none_running { (S.seen site.new).running ≡ [] }
    // At every moment each image has the folder not whole, or whole with its parts and no other file, and all outside it is
    // as at entry.
    ensures steps { let plan = plan_of spec.now (files (S.told site.old)) in S.tells
        → Through (Makes spec.now.folder (job_parts S.gives plan) (files (S.told site.old)))
        (S.told site.old) (S.told site.new) }
    // The folder is whole in every image, with its parts and no other file.
    ensures finished { let plan = plan_of spec.now (files (S.told site.old)) in S.tells
        → OnOk result (IsFinished spec.now.folder (job_parts S.gives plan) (files (S.told site.new))) }
    // After a refusal no image has the folder whole, but where the commit itself was refused.
    ensures left { S.tells → IsLeftBy spec.now.folder spec.now.reducers
        (gained (S.seen site.old).log (S.seen site.new).log) (files (S.told site.new)) result }
    // The reducers got what was merged: at some moment the shuffle's folder had the runs of just these chunks.
    ensures merged { let plan = plan_of spec.now (files (S.told site.old)) in S.tells
        → OnOk result (Once (HasJustRuns (shuffle_of spec.now.folder) spec.now.reducers
        (chunks_of spec.now.spill (pairs_among (map_outputs S.gives plan)))) (S.told site.old) (S.told site.new)) }
    // The log gained a run of the machine for each phase, and the children were given their words and texts. After a dead
    // task no call of the directory was made.
    ensures log { let plan = plan_of spec.now (files (S.told site.old)) in
        JobLog P.may S.tells S.gives spec.now.folder plan spec.now.slots
        (S.seen site.old) (S.seen site.new) (S.given site.old) (S.given site.new) (S.told site.new) result }
    // The entries of the log tell the answer by themselves.
    ensures tells { TellsOfJob spec.now.folder (gained (S.seen site.old).log (S.seen site.new).log) result }
    // The report has the numbers of map tasks, of reduce tasks and of pairs.
    ensures maps { let plan = plan_of spec.now (files (S.told site.old)) in S.tells
        → IfOk result (λ report. report.maps ≡ length (map_inputs plan)) }
    ensures reduces { IfOk result (λ report. report.reduces ≡ spec.now.reducers) }
    ensures pairs { let plan = plan_of spec.now (files (S.told site.old)) in S.tells
        → IfOk result (λ report. report.pairs ≡ length (pairs_among (map_outputs S.gives plan))) }
    ensures said { S.said site.new ≡ S.said site.old }
    ensures says { S.says site.new ≡ S.says site.old }
    ensures say_faults { S.say_faults site.new ≡ S.say_faults site.old }
    ensures cause { HasCause JobFault.Disk (S.faults site.old) (S.faults site.new) result }
{
    let mapped = map_stage(alloc, site, phases, spec)?;
    let reduced = reduce_stage(alloc, site, phases, spec, mapped.tasks)?;
    commit_job(alloc, site, &spec.folder, spec.reducers)?;
    Ok(JobReport {
        maps: mapped.tasks,
        reduces: spec.reducers,
        attempts: mapped.attempts + reduced.attempts,
        pairs: reduced.pairs,
    })
}

/// Runs a whole job: its folder is emptied, its inputs are cut into splits, a child maps each split, the pairs that the
/// mappers wrote are sorted and merged for each part, a child reduces each part, and then the folder is made whole.
///
/// After a refusal the folder is not whole, whatever a stop leaves; but where the commit itself was refused it may be
/// whole, with all its parts. No file outside the folder changes.
pub fn run_job<S: Site>(alloc: Global, site: &mut S, spec: &JobSpec) -> Result<JobReport, JobFault>
    requires limits { IsInLimits spec.now }
    requires none_running { (S.seen site.old).running ≡ [] }
    requires can { S.tells → CanBegin spec.now (files (S.told site.old)) }
    // No child runs.
    ensures none_running { (S.seen site.new).running ≡ [] }
    // At every moment each image has the folder not whole, or whole with its parts and no other file, and all outside it is
    // as at entry.
    ensures steps { let plan = plan_of spec.now (files (S.told site.old)) in S.tells
        → Through (Makes spec.now.folder (job_parts S.gives plan) (files (S.told site.old)))
        (S.told site.old) (S.told site.new) }
    // The folder is whole in every image, with its parts and no other file.
    ensures finished { let plan = plan_of spec.now (files (S.told site.old)) in S.tells
        → OnOk result (IsFinished spec.now.folder (job_parts S.gives plan) (files (S.told site.new))) }
    // After a refusal no image has the folder whole, but where the commit itself was refused.
    ensures left { S.tells → IsLeftBy spec.now.folder spec.now.reducers
        (gained (S.seen site.old).log (S.seen site.new).log) (files (S.told site.new)) result }
    // The reducers got what was merged: at some moment the shuffle's folder had the runs of just these chunks.
    ensures merged { let plan = plan_of spec.now (files (S.told site.old)) in S.tells
        → OnOk result (Once (HasJustRuns (shuffle_of spec.now.folder) spec.now.reducers
        (chunks_of spec.now.spill (pairs_among (map_outputs S.gives plan)))) (S.told site.old) (S.told site.new)) }
    // The log gained a run of the machine for each phase, and the children were given their words and texts. After a dead
    // task no call of the directory was made.
    ensures log { let plan = plan_of spec.now (files (S.told site.old)) in
        JobLog MayStart S.tells S.gives spec.now.folder plan spec.now.slots
        (S.seen site.old) (S.seen site.new) (S.given site.old) (S.given site.new) (S.told site.new) result }
    // The entries of the log tell the answer by themselves.
    ensures tells { TellsOfJob spec.now.folder (gained (S.seen site.old).log (S.seen site.new).log) result }
    // No task has succeeded twice.
    ensures once { NoneTwice spec.now.folder (gained (S.seen site.old).log (S.seen site.new).log) }
    // The report has the numbers of map tasks, of reduce tasks and of pairs.
    ensures maps { let plan = plan_of spec.now (files (S.told site.old)) in S.tells
        → IfOk result (λ report. report.maps ≡ length (map_inputs plan)) }
    ensures reduces { IfOk result (λ report. report.reduces ≡ spec.now.reducers) }
    ensures pairs { let plan = plan_of spec.now (files (S.told site.old)) in S.tells
        → IfOk result (λ report. report.pairs ≡ length (pairs_among (map_outputs S.gives plan))) }
    ensures said { S.said site.new ≡ S.said site.old }
    ensures says { S.says site.new ≡ S.says site.old }
    ensures say_faults { S.say_faults site.new ≡ S.say_faults site.old }
    ensures cause { HasCause JobFault.Disk (S.faults site.old) (S.faults site.new) result }
{
    run_job_over(alloc, site, &Alone, spec)
}

use crate::directory::{rest, word};
use crate::reading::path_of;
use crate::settings::{check_settings, command_in, number_in, paths_in, small_in, text_in};
use crate::trouble::Trouble;
use crate::world::World;
use crate::writing::{add, add_number, add_task};
use job::{JobFault, JobReport, JobSpec, run_job};
use spec_job::run_job_twice;
use std::alloc::Global;

/// How many attempts of a task may run at once.
#[derive(Clone, Copy)]
enum Attempts {
    One,
    Two,
}

/// The job that the words tell.
fn spec_of(alloc: Global, folder: &[u8], settings: &[Vec<u8>]) -> Result<JobSpec, Trouble> {
    check_settings(
        settings,
        &[
            b"from", b"parts", b"split", b"slots", b"spill", b"backup", b"map", b"reduce",
        ],
    )?;
    Ok(JobSpec {
        folder: path_of(alloc, folder)?,
        inputs: paths_in(alloc, settings, b"from")?,
        map: command_in(alloc, settings, b"map")?,
        reduce: command_in(alloc, settings, b"reduce")?,
        reducers: small_in(settings, b"parts", 1)?,
        split: number_in(settings, b"split", 1 << 20)?,
        slots: small_in(settings, b"slots", 2)?,
        spill: number_in(settings, b"spill", 1024)?,
    })
}

/// Two where the words say `backup yes`.
fn attempts_in(settings: &[Vec<u8>]) -> Result<Attempts, Trouble> {
    match text_in(settings, b"backup")? {
        b"" | b"no" => Ok(Attempts::One),
        b"yes" => Ok(Attempts::Two),
        _ => Err(Trouble::Misread),
    }
}

/// Runs a job that is within its limits, where no child runs.
fn run_tried(
    alloc: Global,
    world: &mut World,
    attempts: Attempts,
    spec: &JobSpec,
) -> Result<Result<JobReport, JobFault>, Trouble> {
    if spec.folder.names().is_empty() || spec.folder.names().len() > 4 || spec.inputs.len() > 128 {
        return Err(Trouble::Misread);
    }
    if spec.map.len() == 0 || spec.reduce.len() == 0 {
        return Err(Trouble::Misread);
    }
    if spec.reducers == 0 || spec.reducers > 64 || spec.slots == 0 {
        return Err(Trouble::Misread);
    }
    if spec.split == 0 || spec.split > 1 << 60 || world.site.site.running() != 0 {
        return Err(Trouble::Misread);
    }
    match attempts {
        Attempts::One => Ok(run_job(alloc, &mut world.site, spec)),
        Attempts::Two => Ok(run_job_twice(alloc, &mut world.site, spec)),
    }
}

fn of_report(alloc: Global, report: &JobReport) -> Result<Vec<u8>, Trouble> {
    let mut out = Vec::new(alloc);
    add(&mut out, b"maps ")?;
    add_number(alloc, &mut out, u64::from(report.maps))?;
    add(&mut out, b" reduces ")?;
    add_number(alloc, &mut out, u64::from(report.reduces))?;
    add(&mut out, b" attempts ")?;
    add_number(alloc, &mut out, u64::from(report.attempts))?;
    add(&mut out, b" pairs ")?;
    add_number(alloc, &mut out, report.pairs)?;
    Ok(out)
}

fn of_fault(alloc: Global, fault: &JobFault) -> Result<Vec<u8>, Trouble> {
    let mut out = Vec::new(alloc);
    match fault {
        JobFault::TaskFailed { task } => {
            add(&mut out, b"failed ")?;
            add_task(alloc, &mut out, task)?;
        }
        JobFault::Disk => add(&mut out, b"disk")?,
        JobFault::NoMemory => add(&mut out, b"memory")?,
    }
    Ok(out)
}

/// `FOLDER from INPUT .. parts N split N slots N spill N backup yes map WORD .. reduce WORD ..`
pub(crate) fn run(alloc: Global, world: &mut World, args: &[Vec<u8>]) -> Result<Vec<u8>, Trouble> {
    let settings = rest(args, 1);
    let attempts = attempts_in(settings)?;
    let spec = spec_of(alloc, word(args, 0), settings)?;
    match &run_tried(alloc, world, attempts, &spec)? {
        Ok(report) => of_report(alloc, report),
        Err(fault) => of_fault(alloc, fault),
    }
}

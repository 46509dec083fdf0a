use dir_disk::Site;
use job::{JobFault, Phases, run_phase_over};
use peg_base::{Path, Phase, Words};
use std::alloc::Global;
use twins::Twins;

/// Two attempts of a task at once, where a slot would stay free else.
#[derive(Clone, Copy)]
pub struct Twice;

impl Phases for Twice {
    ghost use Rattle.twins.specs.Rules.{MayStartTwin, rule_twin};

    ghost may = { MayStartTwin };

    ghost rule = { rule_twin };

    fn run<S: Site>(
        &self,
        alloc: Global,
        site: &mut S,
        folder: &Path,
        phase: Phase,
        words: &Words,
        tasks: u32,
        slots: u32,
    ) -> Result<u32, JobFault> {
        let mut attempts = Twins::new(alloc, tasks, slots)?;
        run_phase_over(
            alloc,
            site,
            folder,
            phase,
            words,
            tasks,
            slots,
            &mut attempts,
        )
    }
}

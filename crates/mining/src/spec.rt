ghost use Rattle.std.specs.Prelude.{IfOk};
ghost use Rattle.mining.specs.Making.{IsJobOf};

use crate::child_words::{map_words, reduce_words};
use crate::paths::input_paths;
use crate::place::Place;
use conf::Conf;
use job::JobSpec;
use peg_text::NoMemory;
use std::alloc::Global;

/// The job that makes a folder, where this is the last iteration.
pub fn job_spec(alloc: Global, conf: &Conf, last: u32, place: Place) -> Result<JobSpec, NoMemory>
    ensures { IfOk result (λ spec. IsJobOf conf.now last place spec) }
{
    Ok(JobSpec {
        folder: place.path(alloc)?,
        inputs: input_paths(alloc, conf, last, place)?,
        map: map_words(alloc, conf, place)?,
        reduce: reduce_words(alloc, conf, place)?,
        reducers: conf.reducers,
        split: conf.split,
        slots: conf.slots,
        spill: conf.spill,
    })
}

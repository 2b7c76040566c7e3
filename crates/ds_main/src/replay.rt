//! The job `replay`: runs the module of the input, and reports the run.

ghost use Rattle.std.specs.Prelude.{◌≡◌};
ghost use Rattle.ds_main.specs.Ending.{reading, writing, ReplayEnds};

use crate::input::accepted_module;
use crate::refuse::stop;
use crate::run::run_and_report;
use ds_core::Ended;
use ds_io::{Sink, Source};
use ds_map::Limits;
use std::alloc::Global;

/// Reads a module, runs it with its notes by the schedule of a seed within these limits, and reports the run.
pub fn replay<S: Source, K: Sink>(
    alloc: Global,
    seed: u64,
    limits: &Limits,
    source: &mut S,
    sink: &mut K,
) -> Ended
    ensures { ReplayEnds seed limits.now (reading S.left S.faults source.old source.new)
        (writing K.taken K.faults sink.old sink.new) result }
{
    match accepted_module(alloc, source) {
        Ok(module) => run_and_report(alloc, seed, limits, sink, &module),
        Err(why) => stop(alloc, sink, &why),
    }
}

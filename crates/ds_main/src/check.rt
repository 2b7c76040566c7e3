//! The job `check`: tells that the module of the input is accepted, and how much it has.

ghost use Rattle.std.specs.Prelude.{◌≡◌};
ghost use Rattle.ds_main.specs.Text.{accepted_text};
ghost use Rattle.ds_main.specs.Ending.{reading, writing, AnswerEnds};

use crate::accepted::accepted_line;
use crate::deliver::{DONE, deliver};
use crate::input::accepted_module;
use crate::refuse::{out_of_memory, stop};
use ds_core::{Ended, RunRecord};
use ds_io::{Sink, Source};
use std::alloc::Global;

/// Reads a module and writes that it is accepted.
pub fn check<S: Source, K: Sink>(alloc: Global, source: &mut S, sink: &mut K) -> Ended
    ensures { AnswerEnds accepted_text (reading S.left S.faults source.old source.new)
        (writing K.taken K.faults sink.old sink.new) result }
{
    let module = match accepted_module(alloc, source) {
        Ok(module) => module,
        Err(why) => return stop(alloc, sink, &why),
    };
    match accepted_line(alloc, &module) {
        Ok(line) => Ended {
            status: deliver(sink, line.as_slice(), DONE),
            run: RunRecord::empty(alloc),
        },
        Err(_) => out_of_memory(alloc),
    }
}

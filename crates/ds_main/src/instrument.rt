//! The job `instrument`: writes the accepted module of the input with its notes.

ghost use Rattle.std.specs.Prelude.{◌≡◌, IfOk};
ghost use Rattle.ds_main.specs.Ending.{reading, writing, AnswerEnds};
ghost use Rattle.ds_main.specs.Text.{instrumented_text};

use crate::deliver::{DONE, deliver};
use crate::input::accepted_module;
use crate::refuse::{out_of_memory, stop};
use ds_ast::{Bytes, Module};
use ds_core::{Ended, RunRecord};
use ds_io::{Sink, Source};
use ds_print::print;
use std::alloc::{AllocError, Global};

/// The text of a module with its notes.
fn instrumented(alloc: Global, module: &Module) -> Result<Bytes, AllocError>
    ensures { IfOk result (λ text. text ≡ instrumented_text «module».now) }
{
    let noted = ds_pass::instrument(alloc, module)?;
    print(alloc, &noted)
}

/// Reads a module, and writes it with a note behind each store of a pointer.
pub fn instrument<S: Source, K: Sink>(alloc: Global, source: &mut S, sink: &mut K) -> Ended
    ensures { AnswerEnds instrumented_text (reading S.left S.faults source.old source.new)
        (writing K.taken K.faults sink.old sink.new) result }
{
    let module = match accepted_module(alloc, source) {
        Ok(module) => module,
        Err(why) => return stop(alloc, sink, &why),
    };
    match instrumented(alloc, &module) {
        Ok(text) => Ended {
            status: deliver(sink, text.as_slice(), DONE),
            run: RunRecord::empty(alloc),
        },
        Err(_) => out_of_memory(alloc),
    }
}

//! Runs a module and reports the run.

ghost use Rattle.std.specs.Prelude.{◌≡◌, false, length, IfOk};
ghost use Rattle.ds_shape.specs.Accepted.{HasLayout, Accepted};
ghost use Rattle.ds_plain.specs.Explained.{HasEnded, stop_in};
ghost use Rattle.ds_report.specs.Report.{IsReport};
ghost use Rattle.ds_main.specs.Input.{function_names};
ghost use Rattle.ds_main.specs.Run.{IsRunOfModule};
ghost use Rattle.ds_main.specs.Ending.{writing, RunEnds};

use crate::accept::names_of;
use crate::deliver::{OUT_OF_MEMORY, deliver};
use crate::refuse::out_of_memory;
use crate::status::status_by;
use ds_ast::Module;
use ds_core::{Ended, RunRecord, Schedule, replay};
use ds_fuel_laws::fuel_is_exact;
use ds_io::Sink;
use ds_log_laws::{full_entries_are_used, full_logs_are_drawn};
use ds_lower::lower;
use ds_map::Limits;
use ds_pass::instrument;
use ds_pass_laws::{noted_code_means, notes_keep_layout};
use ds_plain_laws::legal_runs_are_plain;
use ds_report::render;
use ds_row_laws::accepted_modules_ask_rows;
use ds_safe_laws::accepted_means;
use ds_shape::{ShapeFault, Shapes, layout, words_are_counted};
use std::alloc::{AllocError, Global};

/// The layout of a module that has one.
fn layout_of<'a>(alloc: Global, module: &'a Module) -> Result<Shapes<'a>, AllocError>
    requires { HasLayout «module».now }
    ensures { IfOk result (λ shapes. shapes ≡ «module».now.structs) }
{
    match layout(alloc, module) {
        Ok(shapes) => Ok(shapes),
        Err(ShapeFault::Memory) => Err(AllocError),
        Err(_) => unreachable!(),
    }
}

/// Adds its notes to an accepted module, lowers it and runs it by a schedule.
pub fn run(
    alloc: Global,
    schedule: &Schedule,
    limits: &Limits,
    module: &Module,
) -> Result<RunRecord, AllocError>
    requires { Accepted «module».now }
    ensures { IfOk result (IsRunOfModule schedule.now.cues schedule.now.seed limits.now «module».now) }
{
    legal_runs_are_plain();
    full_logs_are_drawn();
    full_entries_are_used();
    fuel_is_exact();
    accepted_means();
    accepted_modules_ask_rows();
    words_are_counted();
    notes_keep_layout();
    noted_code_means();
    let _fuel = limits.fuel();
    let noted = instrument(alloc, module)?;
    let shapes = layout_of(alloc, &noted)?;
    let code = lower(alloc, &noted, &shapes)?;
    let record = replay(alloc, &code, limits, schedule)?;
    Ok(record)
}

/// The report of a run of a module.
pub fn report_of(alloc: Global, module: &Module, run: &RunRecord) -> Result<Vec<u8>, AllocError>
    requires stops { length run.now.stops ≡ 16 }
    requires ended { HasEnded (stop_in run.now.stops 0) }
    ensures { IfOk result (λ text.
        IsReport (function_names «module».now) run.now.stops run.now.traces false text.items) }
{
    let names = names_of(alloc, module)?;
    render(alloc, names.as_slice(), run, false)
}

/// Runs an accepted module by the schedule of a seed, and writes the report of the run.
pub fn run_and_report<K: Sink>(
    alloc: Global,
    seed: u64,
    limits: &Limits,
    sink: &mut K,
    module: &Module,
) -> Ended
    requires { Accepted «module».now }
    ensures { RunEnds seed limits.now «module».now (writing K.taken K.faults sink.old sink.new) result }
{
    let schedule = Schedule::seeded(alloc, seed);
    let Ok(record) = run(alloc, &schedule, limits, module) else {
        return out_of_memory(alloc);
    };
    match report_of(alloc, module, &record) {
        Ok(text) => Ended {
            status: deliver(sink, text.as_slice(), status_by(record.stops.as_slice())),
            run: record,
        },
        Err(_) => Ended {
            status: OUT_OF_MEMORY,
            run: record,
        },
    }
}

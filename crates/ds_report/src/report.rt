//! The report of a run.

ghost use Rattle.std.specs.Prelude.{◌≡◌, ◌++◌, [], length, if◌then◌else◌, OnOk, IfOk, codes};
ghost use Rattle.std.specs.List.{flat_map};
ghost use Rattle.ds_plain.specs.Explained.{HasEnded, stop_in};
ghost use Rattle.ds_report.specs.Trace.{trace_lines};
ghost use Rattle.ds_report.specs.Stop.{how_text};
ghost use Rattle.ds_report.specs.Counts.{count_of};
ghost use Rattle.ds_report.specs.Report.{value_line, count_text, summary_line, IsReport};

use crate::counts::counts_of;
use crate::prints::{Print, in_order};
use crate::stop::{push_how, push_stop_lines, trap_count};
use crate::text::{push, push_number, push_signed};
use crate::trace::push_trace_lines;
use ds_ast::Name;
use ds_core::{RunRecord, Steps};
use ds_plain::Stop;
use itoa::Integer;
use std::alloc::{AllocError, Global};

/// Adds a line for each print: its value as a signed decimal number.
fn push_print_lines(text: &mut Vec<u8>, prints: &[Print]) -> Result<(), AllocError>
    ensures { OnOk result
        (text.new.items ≡ text.old.items ++ flat_map (λ print. value_line print.value) prints.now) }
{
    for print in prints {
        push_signed(text, print.value)?;
        push(text, b"\n")?;
    }
    Ok(())
}

/// Adds the trace, where it is asked for.
fn push_trace(
    alloc: Global,
    text: &mut Vec<u8>,
    traces: &[Steps],
    trace: bool,
) -> Result<(), AllocError>
    ensures { OnOk result
        (text.new.items ≡ text.old.items ++ (if trace then trace_lines traces.now else [])) }
{
    if !trace {
        return Ok(());
    }
    push_trace_lines(alloc, text, traces)
}

/// Adds how main ended.
fn push_main(text: &mut Vec<u8>, main: Stop) -> Result<(), AllocError>
    ensures { OnOk result (text.new.items ≡ text.old.items ++ (codes "main " ++ how_text main ++ codes ";")) }
{
    push(text, b"main ")?;
    push_how(text, main)?;
    push(text, b";")
}

/// Adds a number, and before it what there are so many of.
fn push_count<I: Integer>(text: &mut Vec<u8>, what: &[u8], count: I) -> Result<(), AllocError>
    ensures { OnOk result (text.new.items ≡ text.old.items ++ (codes " " ++ what.now ++ codes " " ++ I.text count)) }
{
    push(text, b" ")?;
    push(text, what)?;
    push(text, b" ")?;
    push_number(text, count)
}

/// Adds the last line: how main ended, and the counts.
fn push_summary(
    text: &mut Vec<u8>,
    main: Stop,
    prints: usize,
    traces: &[Steps],
    traps: usize,
) -> Result<(), AllocError>
    ensures { OnOk result
        (text.new.items ≡ text.old.items ++ summary_line main prints (count_of traces.now) traps) }
{
    let counts = counts_of(traces);
    push_main(text, main)?;
    push_count(text, b"prints", prints)?;
    push_count(text, b"mallocs", counts.mallocs)?;
    push_count(text, b"frees", counts.frees)?;
    push_count(text, b"notes", counts.notes)?;
    push_count(text, b"marks", counts.marks)?;
    push_count(text, b"traps", traps)?;
    push(text, b"\n")
}

/// The report of a run in which main has ended: what was printed, in order; where `trace` is true, what each
/// thread did; a line for each thread that did not come to the end of its function; and the summary.
///
/// `names` are those of all functions of the module that was run, declared ones too, in the order of the text.
pub fn render(
    alloc: Global,
    names: &[Name],
    run: &RunRecord,
    trace: bool,
) -> Result<Vec<u8>, AllocError>
    requires stops { length run.now.stops ≡ 16 }
    requires ended { HasEnded (stop_in run.now.stops 0) }
    ensures { IfOk result (λ text. IsReport names.now run.now.stops run.now.traces trace text.items) }
{
    let traces = run.traces.as_slice();
    let stops = run.stops.as_slice();
    let prints = in_order(alloc, traces)?;
    let mut text = Vec::new(alloc);
    push_print_lines(&mut text, prints.as_slice())?;
    push_trace(alloc, &mut text, traces, trace)?;
    push_stop_lines(alloc, &mut text, names, stops)?;
    push_summary(&mut text, stops[0], prints.len(), traces, trap_count(stops))?;
    Ok(text)
}

//! The prints of a run, in the order of their numbers.

ghost use Rattle.std.specs.Prelude.{◌≡◌, ◌++◌, OnOk, IfOk};
ghost use Rattle.ds_report.specs.Prints.{prints_by, prints_in, all_prints, IsInOrder};

use ds_core::Steps;
use ds_step::{Event, Step};
use std::alloc::{AllocError, Global};

/// One print: its number over all threads, and the 64 bits of the signed value.
#[derive(Clone, Copy, Debug, PartialEq, Eq)]
pub struct Print {
    pub number: u64,
    pub value: u64,
}

/// Adds the print that an event is, if it is one.
fn push_print(prints: &mut Vec<Print>, event: Event) -> Result<(), AllocError>
    ensures { OnOk result (prints.new.items ≡ prints.old.items ++ prints_by event) }
{
    if let Event::Print { number, value } = event {
        prints.push(Print { number, value })?;
    }
    Ok(())
}

/// Adds the prints of one trace.
fn push_prints(prints: &mut Vec<Print>, steps: &[Step]) -> Result<(), AllocError>
    ensures { OnOk result (prints.new.items ≡ prints.old.items ++ prints_in steps.now) }
{
    for step in steps {
        push_print(prints, step.event)?;
    }
    Ok(())
}

/// The prints of all traces, thread by thread.
fn gathered(alloc: Global, traces: &[Steps]) -> Result<Vec<Print>, AllocError>
    ensures { IfOk result (λ prints. prints.items ≡ all_prints traces.now) }
{
    let mut prints = Vec::new(alloc);
    for steps in traces {
        push_prints(&mut prints, steps.as_slice())?;
    }
    Ok(prints)
}

/// The prints of all traces, in the order of their numbers.
pub fn in_order(alloc: Global, traces: &[Steps]) -> Result<Vec<Print>, AllocError>
    ensures { IfOk result (λ prints. IsInOrder (all_prints traces.now) prints.items) }
{
    let mut prints = gathered(alloc, traces)?;
    prints.sort_unstable_by_key(|print| print.number);
    Ok(prints)
}

//! The trace of a run: what each thread did, in its own order.

ghost use Rattle.std.specs.Prelude.{◌≡◌, ◌++◌, OnOk, codes, decimal};
ghost use Rattle.ds_report.specs.Trace.{full_text, word_text, life_text, pair_text, event_text, event_line};
ghost use Rattle.ds_report.specs.Trace.{thread_lines, trace_lines};
ghost use Rattle.ds_report.specs.Text.{signed_text};

use crate::text::{push, push_counted, push_hex, push_number, push_signed, push_word};
use ds_core::Steps;
use ds_map::address;
use ds_step::{Event, FullWhat, Step};
use std::alloc::{AllocError, Global};

/// Adds which room is full.
pub fn push_full(text: &mut Vec<u8>, what: FullWhat) -> Result<(), AllocError>
    ensures { OnOk result (text.new.items ≡ text.old.items ++ full_text what) }
{
    match what {
        FullWhat::Logs => push(text, b"logs"),
        FullWhat::Hash => push(text, b"hash"),
    }
}

/// Adds what an event did to a word: its address, and what it holds afterwards.
fn push_access(
    alloc: Global,
    text: &mut Vec<u8>,
    what: &[u8],
    loc: u32,
    value: u64,
) -> Result<(), AllocError>
    ensures { OnOk result (text.new.items ≡ text.old.items ++ word_text what.now loc value) }
{
    push(text, what)?;
    push_hex(alloc, text, address(loc))?;
    push(text, b" ")?;
    push_hex(alloc, text, value)
}

/// Adds an address and a life.
fn push_life(
    alloc: Global,
    text: &mut Vec<u8>,
    what: &[u8],
    address: u64,
    life: u32,
) -> Result<(), AllocError>
    ensures { OnOk result (text.new.items ≡ text.old.items ++ life_text what.now address life) }
{
    push(text, what)?;
    push_hex(alloc, text, address)?;
    push(text, b" ")?;
    push_number(text, life)
}

/// Adds two numbers.
fn push_pair(text: &mut Vec<u8>, what: &[u8], m: u32, n: u32) -> Result<(), AllocError>
    ensures { OnOk result (text.new.items ≡ text.old.items ++ pair_text what.now m n) }
{
    push(text, what)?;
    push_number(text, m)?;
    push(text, b" ")?;
    push_number(text, n)
}

/// Adds the text of a print.
fn push_print(text: &mut Vec<u8>, value: u64) -> Result<(), AllocError>
    ensures { OnOk result (text.new.items ≡ text.old.items ++ (codes "print " ++ signed_text value)) }
{
    push(text, b"print ")?;
    push_signed(text, value)
}

/// Adds the text of the end of a thread at a full table.
fn push_full_event(text: &mut Vec<u8>, what: FullWhat) -> Result<(), AllocError>
    ensures { OnOk result (text.new.items ≡ text.old.items ++ (codes "full " ++ full_text what)) }
{
    push(text, b"full ")?;
    push_full(text, what)
}

/// Adds the text of an event. Those of the machine's own records have none.
fn push_event(alloc: Global, text: &mut Vec<u8>, event: Event) -> Result<(), AllocError>
    ensures { OnOk result (text.new.items ≡ text.old.items ++ event_text event) }
{
    match event {
        Event::Begin => push(text, b"begin"),
        Event::Spawn { n, .. } => push_counted(text, b"spawn ", n),
        Event::SpawnRefused => push(text, b"spawn refused"),
        Event::Join { n } => push_counted(text, b"join ", n),
        Event::End => push(text, b"end"),
        Event::Print { value, .. } => push_print(text, value),
        Event::Load { loc, value } => push_access(alloc, text, b"load ", loc, value),
        Event::Store { loc, value } => push_access(alloc, text, b"store ", loc, value),
        Event::Exchange { loc, value } => push_access(alloc, text, b"exchange ", loc, value),
        Event::Assign { page, class } => push_pair(text, b"assign ", page, u32::from(class)),
        Event::Taken { place } => push_counted(text, b"taken ", place),
        Event::TakenPage { page } => push_counted(text, b"taken page ", page),
        Event::Block { start, life, .. } => push_life(alloc, text, b"block ", start, life),
        Event::Found { start, life, .. } => push_life(alloc, text, b"found ", start, life),
        Event::Skip => push(text, b"skip"),
        Event::Noted { life, loc, .. } => push_life(alloc, text, b"noted ", address(loc), life),
        Event::BeginFree { place, life } => push_pair(text, b"begin free ", place, life),
        Event::Mark { loc } => push_word(alloc, text, b"mark ", address(loc)),
        Event::Seen { loc } => push_word(alloc, text, b"seen ", address(loc)),
        Event::EndFree { place } => push_counted(text, b"end free ", place),
        Event::Trap => push(text, b"trap"),
        Event::Full { what } => push_full_event(text, what),
        Event::Log => Ok(()),
    }
}

/// Adds the line of an event that is none of the machine's own records.
fn push_shown(
    alloc: Global,
    text: &mut Vec<u8>,
    thread: usize,
    event: Event,
) -> Result<(), AllocError>
    ensures { OnOk result (text.new.items ≡ text.old.items
        ++ (decimal thread ++ codes " " ++ event_text event ++ codes "\n")) }
{
    push_number(text, thread)?;
    push(text, b" ")?;
    push_event(alloc, text, event)?;
    push(text, b"\n")
}

/// Adds the line of an event of a thread.
fn push_event_line(
    alloc: Global,
    text: &mut Vec<u8>,
    thread: usize,
    event: Event,
) -> Result<(), AllocError>
    ensures { OnOk result (text.new.items ≡ text.old.items ++ event_line thread event) }
{
    if let Event::Log = event {
        return Ok(());
    }
    push_shown(alloc, text, thread, event)
}

/// Adds the lines of a thread.
fn push_thread_lines(
    alloc: Global,
    text: &mut Vec<u8>,
    thread: usize,
    steps: &[Step],
) -> Result<(), AllocError>
    ensures { OnOk result (text.new.items ≡ text.old.items ++ thread_lines thread steps.now) }
{
    for step in steps {
        push_event_line(alloc, text, thread, step.event)?;
    }
    Ok(())
}

/// Adds the lines of all threads, in number order.
pub fn push_trace_lines(
    alloc: Global,
    text: &mut Vec<u8>,
    traces: &[Steps],
) -> Result<(), AllocError>
    ensures { OnOk result (text.new.items ≡ text.old.items ++ trace_lines traces.now) }
{
    for (thread, steps) in traces.iter().enumerate() {
        push_thread_lines(alloc, text, thread, steps.as_slice())?;
    }
    Ok(())
}

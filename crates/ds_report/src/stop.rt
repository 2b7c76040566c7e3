//! How the threads of a run stopped.

ghost use Rattle.std.specs.Prelude.{◌≡◌, ◌++◌, count_by, OnOk, codes, decimal};
ghost use Rattle.ds_report.specs.Text.{hex_text};
ghost use Rattle.ds_report.specs.Trace.{full_text};
ghost use Rattle.ds_report.specs.Stop.{trap_text, stopped_at, stop_line, stop_lines, how_text, is_trap};

use crate::text::{push, push_counted, push_function, push_hex, push_number, push_word};
use crate::trace::push_full;
use ds_ast::Name;
use ds_plain::{Place, Stop, Trap, TrapKind};
use ds_step::FullWhat;
use std::alloc::{AllocError, Global};

/// Adds why an instruction could not free a block that is not live.
fn push_double_free(
    alloc: Global,
    text: &mut Vec<u8>,
    address: u64,
    seen: u64,
) -> Result<(), AllocError>
    ensures { OnOk result (text.new.items ≡ text.old.items
        ++ (codes "double free of " ++ hex_text address ++ codes ", seen " ++ hex_text seen)) }
{
    push(text, b"double free of ")?;
    push_hex(alloc, text, address)?;
    push(text, b", seen ")?;
    push_hex(alloc, text, seen)
}

/// Adds why an instruction could not be carried out.
fn push_kind(alloc: Global, text: &mut Vec<u8>, kind: TrapKind) -> Result<(), AllocError>
    ensures { OnOk result (text.new.items ≡ text.old.items ++ trap_text kind) }
{
    match kind {
        TrapKind::UseAfterFree { address } => push_word(
            alloc,
            text,
            b"use after free at ",
            address,
        ),
        TrapKind::BadAddress { address } => push_word(alloc, text, b"bad address ", address),
        TrapKind::DoubleFree { address, seen } => push_double_free(alloc, text, address, seen),
        TrapKind::BadFree { address } => push_word(alloc, text, b"bad free of ", address),
        TrapKind::MarkedFree { address } => push_word(alloc, text, b"free of marked ", address),
        TrapKind::DivZero => push(text, b"division by zero"),
        TrapKind::DivOverflow => push(text, b"division overflow"),
        TrapKind::StackLimit => push(text, b"stack limit"),
        TrapKind::Unreachable => push(text, b"unreachable"),
        TrapKind::BadJoin { number } => push_counted(text, b"bad join of ", number),
    }
}

/// Adds at which instruction a thread was stopped, by the names of all functions.
fn push_stopped_at(
    text: &mut Vec<u8>,
    names: &[Name],
    what: &[u8],
    thread: usize,
    place: Place,
) -> Result<(), AllocError>
    ensures { OnOk result (text.new.items ≡ text.old.items ++ stopped_at names.now what.now thread place) }
{
    push(text, what)?;
    push(text, b" thread ")?;
    push_number(text, thread)?;
    push_function(text, names, place.function)?;
    push(text, b" instruction ")?;
    push_number(text, place.instruction)?;
    push(text, b": ")?;
    Ok(())
}

/// Adds the line of a thread that trapped.
fn push_trap(
    alloc: Global,
    text: &mut Vec<u8>,
    names: &[Name],
    thread: usize,
    trap: Trap,
) -> Result<(), AllocError>
    ensures { OnOk result (text.new.items ≡ text.old.items
        ++ (stopped_at names.now (codes "trap") thread trap.place ++ trap_text trap.kind ++ codes "\n")) }
{
    push_stopped_at(text, names, b"trap", thread, trap.place)?;
    push_kind(alloc, text, trap.kind)?;
    push(text, b"\n")
}

/// Adds the line of a thread that stopped at a full table.
fn push_at_full(
    text: &mut Vec<u8>,
    names: &[Name],
    thread: usize,
    place: Place,
    what: FullWhat,
) -> Result<(), AllocError>
    ensures { OnOk result (text.new.items ≡ text.old.items
        ++ (stopped_at names.now (codes "full") thread place ++ full_text what ++ codes "\n")) }
{
    push_stopped_at(text, names, b"full", thread, place)?;
    push_full(text, what)?;
    push(text, b"\n")
}

/// Adds the line of a thread whose fuel ran out.
fn push_fuel(text: &mut Vec<u8>, thread: usize) -> Result<(), AllocError>
    ensures { OnOk result (text.new.items ≡ text.old.items
        ++ (codes "fuel thread " ++ decimal thread ++ codes "\n")) }
{
    push(text, b"fuel thread ")?;
    push_number(text, thread)?;
    push(text, b"\n")?;
    Ok(())
}

/// Adds the line of a thread that did not come to the end of its function.
fn push_stop_line(
    alloc: Global,
    text: &mut Vec<u8>,
    names: &[Name],
    thread: usize,
    stop: Stop,
) -> Result<(), AllocError>
    ensures { OnOk result (text.new.items ≡ text.old.items ++ stop_line names.now thread stop) }
{
    match stop {
        Stop::Idle | Stop::Running | Stop::Returned(_) => Ok(()),
        Stop::Trap(trap) => push_trap(alloc, text, names, thread, trap),
        Stop::Full(place, what) => push_at_full(text, names, thread, place, what),
        Stop::Fuel => push_fuel(text, thread),
    }
}

/// Adds the stop lines of all threads, in number order.
pub fn push_stop_lines(
    alloc: Global,
    text: &mut Vec<u8>,
    names: &[Name],
    stops: &[Stop],
) -> Result<(), AllocError>
    ensures { OnOk result (text.new.items ≡ text.old.items ++ stop_lines names.now stops.now) }
{
    for (thread, stop) in stops.iter().enumerate() {
        push_stop_line(alloc, text, names, thread, *stop)?;
    }
    Ok(())
}

/// Adds how main ended.
pub fn push_how(text: &mut Vec<u8>, stop: Stop) -> Result<(), AllocError>
    ensures { OnOk result (text.new.items ≡ text.old.items ++ how_text stop) }
{
    match stop {
        Stop::Idle | Stop::Running => Ok(()),
        Stop::Returned(None) => push(text, b"returned"),
        Stop::Returned(Some(value)) => push_counted(text, b"returned ", value.cast_signed()),
        Stop::Trap(_) => push(text, b"trapped"),
        Stop::Full(_, _) => push(text, b"stopped at a full table"),
        Stop::Fuel => push(text, b"out of fuel"),
    }
}

/// Whether a stop is a trap.
fn is_trap(stop: Stop) -> bool
    ensures { result ≡ is_trap stop }
{
    matches!(stop, Stop::Trap(_))
}

/// How many threads trapped.
pub fn trap_count(stops: &[Stop]) -> usize
    ensures { result ≡ count_by is_trap stops.now }
{
    stops.iter().filter(|stop| is_trap(**stop)).count()
}

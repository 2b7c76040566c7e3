//! What a call of a name calls.
ghost use Rattle.std.specs.Prelude.{◌≡◌};
ghost use Rattle.ds_meaning.specs.Callees as meaning;
ghost use Rattle.ds_code.specs.Callees.{called_as};
ghost use Rattle.ds_lower_parts.specs.Callees.{is_called, memory_or, print_or, join_or};

use crate::scope::Scope;
use ds_ast::{Function, Name};
use ds_code::{Called, Known};

/// Whether a name is this text.
fn is_called(name: &Name, text: &[u8]) -> bool
    ensures { result ≡ is_called text.now name.now }
{
    match name {
        Name::Number(_) => false,
        Name::Text(bytes) => text == bytes.as_slice(),
    }
}

/// The external of a name among those of memory, or else another.
fn memory_or(name: &Name, other: Called) -> Called
    ensures { result ≡ memory_or name.now other }
{
    if is_called(name, b"malloc".as_slice()) {
        return Called::Declared(Known::Malloc);
    }
    if is_called(name, b"free".as_slice()) {
        return Called::Declared(Known::Free);
    }
    other
}

/// Among the print and the start of a thread.
fn print_or(name: &Name, other: Called) -> Called
    ensures { result ≡ print_or name.now other }
{
    if is_called(name, b"print_i64".as_slice()) {
        return Called::Declared(Known::Print);
    }
    if is_called(name, b"pthread_create".as_slice()) {
        return Called::Declared(Known::Create);
    }
    other
}

/// Among the join and the note.
fn join_or(name: &Name, other: Called) -> Called
    ensures { result ≡ join_or name.now other }
{
    if is_called(name, b"pthread_join".as_slice()) {
        return Called::Declared(Known::Join);
    }
    if is_called(name, b"ds_note".as_slice()) {
        return Called::Declared(Known::Note);
    }
    other
}

/// The external of a name.
#[tactic(auto, using(crate::proofs::Externals::external_same))]
fn external_named(name: &Name) -> Called
    ensures { result ≡ called_as (meaning.external_among meaning.externals name.now) }
{
    memory_or(name, print_or(name, join_or(name, Called::Unknown)))
}

/// What a function is to its callers: defined where it has blocks.
fn callee_by(number: u32, function: &Function) -> Called
    ensures { result ≡ called_as (meaning.callee_by number function.now function.now.blocks) }
{
    match function.blocks.as_slice() {
        [] => external_named(&function.name),
        _ => Called::Defined(number),
    }
}

/// What a call of a name calls.
pub fn callee_of(scope: &Scope, name: &Name) -> Called
    ensures { result ≡ called_as (meaning.callee_of scope.now name.now) }
{
    match scope.function_number(name) {
        Some(number) => match scope.whole().functions.get(number as usize) {
            Some(function) => callee_by(number, function),
            None => Called::Unknown,
        },
        None => Called::Unknown,
    }
}

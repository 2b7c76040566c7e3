//! Calls.
ghost use Rattle.std.specs.Prelude.{◌≡◌, IfOk};
ghost use Rattle.ds_code.specs.Cells.{cells_for};
ghost use Rattle.ds_code.specs.Lowering as lowering;
ghost use Rattle.ds_meaning.specs.Callees as meaning;
ghost use Rattle.ds_code.specs.Callees.{called_as};
ghost use Rattle.ds_code.specs.declared.callees.Known.TheVariants as known;

use crate::local::Local;
use crate::values::{operand_of, source_of};
use ds_ast::{List, Name, Operand, Value};
use ds_code::{Called, CodeOp, Copying, ExternalOp, Known};
use ds_lower_parts::{Scope, callee_of, small};
use std::alloc::{AllocError, Global};

/// The values that parameters take.
fn arguments_of(
    alloc: Global,
    scope: &Scope,
    local: &Local,
    args: &[Operand],
) -> Result<List<Copying>, AllocError>
    ensures { IfOk result (λ made. made ≡ lowering.arguments_of scope.now (cells_for local.now) 0 args.now) }
{
    let mut made = List::new(alloc);
    for n in 0..args.len() {
        let to = small(n)?;
        made.push(Copying {
            to,
            value: operand_of(scope, local, &args[n]),
        })?;
    }
    Ok(made)
}

/// The number of the function that a value names.
fn function_named(scope: &Scope, value: &Value) -> Option<u32>
    ensures { result ≡ lowering.function_named scope.now value.now }
{
    match value {
        Value::Int(_) => None,
        Value::Null => None,
        Value::Undef => None,
        Value::Local(_) => None,
        Value::Global(name) => scope.function_number(name),
    }
}

/// The start of a thread on the function that a value names.
fn spawn_of(
    scope: &Scope,
    local: &Local,
    at: &Operand,
    function: &Operand,
    argument: &Operand,
) -> CodeOp
    ensures { result ≡ lowering.spawn_of scope.now (cells_for local.now) at.now argument.now
        (lowering.function_named scope.now function.now.value) }
{
    match function_named(scope, &function.value) {
        Some(number) => CodeOp::External(ExternalOp::Spawn {
            at: operand_of(scope, local, at),
            function: number,
            argument: operand_of(scope, local, argument),
        }),
        None => CodeOp::Unknown,
    }
}

/// `malloc`.
fn malloc_of(scope: &Scope, local: &Local, args: &[Operand]) -> CodeOp
    ensures { result ≡ lowering.external_of scope.now (cells_for local.now) args.now known.Malloc }
{
    match args {
        [bytes] => CodeOp::External(ExternalOp::Malloc {
            bytes: operand_of(scope, local, bytes),
        }),
        _ => CodeOp::Unknown,
    }
}

/// `free`.
fn free_of(scope: &Scope, local: &Local, args: &[Operand]) -> CodeOp
    ensures { result ≡ lowering.external_of scope.now (cells_for local.now) args.now known.Free }
{
    match args {
        [at] => CodeOp::External(ExternalOp::Free {
            at: operand_of(scope, local, at),
        }),
        _ => CodeOp::Unknown,
    }
}

/// `print_i64`.
fn print_of(scope: &Scope, local: &Local, args: &[Operand]) -> CodeOp
    ensures { result ≡ lowering.external_of scope.now (cells_for local.now) args.now known.Print }
{
    match args {
        [value] => CodeOp::External(ExternalOp::Print {
            value: operand_of(scope, local, value),
        }),
        _ => CodeOp::Unknown,
    }
}

/// `pthread_create`.
fn create_of(scope: &Scope, local: &Local, args: &[Operand]) -> CodeOp
    ensures { result ≡ lowering.external_of scope.now (cells_for local.now) args.now known.Create }
{
    match args {
        [at, _attributes, function, argument] => spawn_of(scope, local, at, function, argument),
        _ => CodeOp::Unknown,
    }
}

/// `pthread_join`.
fn join_of(scope: &Scope, local: &Local, args: &[Operand]) -> CodeOp
    ensures { result ≡ lowering.external_of scope.now (cells_for local.now) args.now known.Join }
{
    match args {
        [thread, _value] => CodeOp::External(ExternalOp::Join {
            thread: operand_of(scope, local, thread),
        }),
        _ => CodeOp::Unknown,
    }
}

/// `ds_note`.
fn note_of(scope: &Scope, local: &Local, args: &[Operand]) -> CodeOp
    ensures { result ≡ lowering.external_of scope.now (cells_for local.now) args.now known.Note }
{
    match args {
        [at, value] => CodeOp::External(ExternalOp::Note {
            at: source_of(scope, local, &at.value),
            value: source_of(scope, local, &value.value),
        }),
        _ => CodeOp::Unknown,
    }
}

/// A call of a function that the module declares.
fn external_of(scope: &Scope, local: &Local, args: &[Operand], external: Known) -> CodeOp
    ensures { result ≡ lowering.external_of scope.now (cells_for local.now) args.now external }
{
    match external {
        Known::Malloc => malloc_of(scope, local, args),
        Known::Free => free_of(scope, local, args),
        Known::Print => print_of(scope, local, args),
        Known::Create => create_of(scope, local, args),
        Known::Join => join_of(scope, local, args),
        Known::Note => note_of(scope, local, args),
    }
}

/// A call.
pub fn call_of(
    alloc: Global,
    scope: &Scope,
    local: &Local,
    callee: &Name,
    args: &[Operand],
) -> Result<CodeOp, AllocError>
    ensures { IfOk result (λ made. made ≡ lowering.call_of scope.now (cells_for local.now) args.now
        (called_as (meaning.callee_of scope.now callee.now))) }
{
    let called = callee_of(scope, callee);
    match called {
        Called::Defined(function) => {
            let arguments = arguments_of(alloc, scope, local, args)?;
            Ok(CodeOp::Call {
                function,
                arguments,
            })
        }
        Called::Declared(external) => Ok(external_of(scope, local, args, external)),
        Called::Unknown => Ok(CodeOp::Unknown),
    }
}

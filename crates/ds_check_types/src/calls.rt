//! The rules of calls.
ghost use Rattle.std.specs.Prelude.{◌≡◌, ◌↔◌, [], ◌∷◌, IsTrue};
ghost use Rattle.ds_ast.specs.declared.ty.Scalar.TheVariants.{Ptr};
ghost use Rattle.ds_ast.specs.declared.value.Value.TheVariants.{Global, Null};
ghost use Rattle.ds_ast.specs.declared.instr.Op.TheVariants.{Call};
ghost use Rattle.ds_shape.specs.Externals.{parameter_types, IsExternal, IsThreadFunction, TakesFunction, TakesNull};
ghost use Rattle.ds_shape.specs.Types.{IsThreadStart, KeepsRule, IsPassedAs, ArePassed};
ghost use Rattle.std.specs.List.{AllZip};

use crate::values::is_typed_operand;
use ds_ast::{Function, Name, Operand, Param, Scalar, Ty, Value};
use ds_check_names::{Entities, Locals, is_called};

/// Whether a function is declared, with this name.
fn is_external(function: &Function, name: &[u8]) -> bool
    ensures { IsTrue result ↔ IsExternal name.now function.now }
{
    is_called(&function.name, name) && function.blocks.is_empty()
}

/// Whether the argument behind so many others is null: the second of `pthread_create` and of `pthread_join`.
fn takes_null(function: &Function, n: usize) -> bool
    ensures { IsTrue result ↔ TakesNull function.now n }
{
    n == 1
        && (is_external(function, b"pthread_create".as_slice())
            || is_external(function, b"pthread_join".as_slice()))
}

/// Whether the argument behind so many others is the name of the function that a thread runs: the third of
/// `pthread_create`.
fn takes_function(function: &Function, n: usize) -> bool
    ensures { IsTrue result ↔ TakesFunction function.now n }
{
    n == 2 && is_external(function, b"pthread_create".as_slice())
}

/// Whether a function takes an address alone.
fn takes_one_address(function: &Function) -> bool
    ensures { IsTrue result ↔ (parameter_types function.now ≡ Ptr ∷ []) }
{
    match function.params.as_slice() {
        [param] => param.ty == Scalar::Ptr,
        _ => false,
    }
}

/// Whether a function is one that `pthread_create` starts: it is defined, takes an address and gives one.
fn is_thread_function(function: &Function) -> bool
    ensures { IsTrue result ↔ IsThreadFunction function.now }
{
    if function.blocks.is_empty() {
        return false;
    }
    if function.result == Ty::One(Scalar::Ptr) {
        return takes_one_address(function);
    }
    false
}

/// Whether a name is that of a function that `pthread_create` starts.
fn starts(entities: &Entities, name: &Name) -> bool
    ensures { IsTrue result ↔ IsThreadStart entities.now (Global name.now) }
{
    match entities.function(name) {
        Some(function) => is_thread_function(function),
        None => false,
    }
}

/// Whether a value is the name of a function that `pthread_create` starts.
fn is_thread_start(entities: &Entities, value: &Value) -> bool
    ensures { IsTrue result ↔ IsThreadStart entities.now value.now }
{
    match value {
        Value::Int(_) => false,
        Value::Null => false,
        Value::Undef => false,
        Value::Local(_) => false,
        Value::Global(name) => starts(entities, name),
    }
}

/// Whether a value is `null`.
fn is_null(value: &Value) -> bool
    ensures { IsTrue result ↔ (value.now ≡ Null) }
{
    matches!(value, Value::Null)
}

/// Whether a value is null where the function takes null.
fn is_null_where_taken(function: &Function, n: usize, value: &Value) -> bool
    ensures { IsTrue result ↔ (TakesNull function.now n → value.now ≡ Null) }
{
    if takes_null(function, n) {
        return is_null(value);
    }
    true
}

/// Whether the argument behind so many others is what the function takes there.
#[tactic(auto, using(crate::proofs::Passed::function_passed, crate::proofs::Passed::no_null, crate::proofs::Passed::operand_passed))]
fn is_passed_as(
    entities: &Entities,
    locals: &Locals,
    function: &Function,
    n: usize,
    argument: &Operand,
) -> bool
    ensures { IsTrue result ↔ IsPassedAs entities.now locals.now function.now n argument.now }
{
    if takes_function(function, n) {
        return is_thread_start(entities, &argument.value);
    }
    if !is_null_where_taken(function, n, &argument.value) {
        return false;
    }
    is_typed_operand(entities, locals, argument)
}

/// Whether the argument behind so many others has the type of its parameter, and is what the function takes there.
fn is_argument(
    entities: &Entities,
    locals: &Locals,
    function: &Function,
    n: usize,
    argument: &Operand,
    param: &Param,
) -> bool
    ensures { IsTrue result ↔ (argument.now.ty ≡ param.now.ty)
        × IsPassedAs entities.now locals.now function.now n argument.now }
{
    argument.ty == param.ty && is_passed_as(entities, locals, function, n, argument)
}

/// Whether a function is passed what it takes.
fn are_passed(
    entities: &Entities,
    locals: &Locals,
    function: &Function,
    arguments: &[Operand],
    params: &[Param],
) -> bool
    requires { params.now ≡ function.now.params }
    ensures { IsTrue result ↔ ArePassed entities.now locals.now function.now arguments.now }
{
    if arguments.len() != params.len() {
        return false;
    }
    for i in 0..arguments.len() {
        if !is_argument(entities, locals, function, i, &arguments[i], &params[i]) {
            return false;
        }
    }
    true
}

/// Whether a call keeps its rule.
pub fn is_typed_call(
    entities: &Entities,
    locals: &Locals,
    result_type: &Ty,
    callee: &Name,
    arguments: &[Operand],
) -> bool
    ensures { IsTrue result ↔ KeepsRule entities.now locals.now (Call result_type.now callee.now arguments.now) }
{
    match entities.function(callee) {
        Some(function) => {
            if *result_type == function.result {
                return are_passed(
                    entities,
                    locals,
                    function,
                    arguments,
                    function.params.as_slice(),
                );
            }
            false
        }
        None => false,
    }
}

//! Operands.
ghost use Rattle.std.specs.Prelude.{◌≡◌};
ghost use Rattle.std.specs.Option.{option_map};
ghost use Rattle.ds_code.specs.Cells.{cells_for};
ghost use Rattle.ds_code.specs.Lowering as lowering;

use crate::local::Local;
use ds_ast::{Operand, Scalar, Value};
use ds_code::{Input, Source};
use ds_lower_parts::Scope;

/// Where the code takes a value from.
pub fn source_of(scope: &Scope, local: &Local, value: &Value) -> Source
    ensures { result ≡ lowering.source_of scope.now (cells_for local.now) value.now }
{
    match value {
        Value::Int(number) => Source::Constant(*number),
        Value::Null => Source::Constant(0),
        Value::Undef => Source::Constant(0),
        Value::Local(name) => Source::Cell(local.cell_of(name, 0)),
        Value::Global(name) => Source::Constant(scope.address_of(name)),
    }
}

/// A value of a type.
pub fn input_of(scope: &Scope, local: &Local, ty: Scalar, value: &Value) -> Input
    ensures { result ≡ lowering.input_of scope.now (cells_for local.now) ty value.now }
{
    Input {
        ty,
        from: source_of(scope, local, value),
    }
}

/// An operand with its type.
pub fn operand_of(scope: &Scope, local: &Local, operand: &Operand) -> Input
    ensures { result ≡ lowering.operand_of scope.now (cells_for local.now) operand.now }
{
    input_of(scope, local, operand.ty, &operand.value)
}

/// What is returned, where there is anything.
pub fn returned_of(scope: &Scope, local: &Local, value: &Option<Operand>) -> Option<Input>
    ensures { result ≡ option_map (lowering.operand_of scope.now (cells_for local.now)) value.now }
{
    match value {
        Some(operand) => Some(operand_of(scope, local, operand)),
        None => None,
    }
}

/// How many elements: one where no number is written.
pub fn count_of(scope: &Scope, local: &Local, count: &Option<Operand>) -> Input
    ensures { result ≡ lowering.count_of scope.now (cells_for local.now) count.now }
{
    match count {
        Some(operand) => operand_of(scope, local, operand),
        None => Input {
            ty: Scalar::I64,
            from: Source::Constant(1),
        },
    }
}

//! Numbers, the words of types, and values.
ghost use Rattle.std.specs.Prelude.{◌≡◌, ◌++◌, ◌^◌, ◌-◌, [], ◌∷◌, OnOk};
ghost use Rattle.ds_lex.specs.Written.{written};
ghost use Rattle.ds_ast.specs.Bounds.{width};
ghost use Rattle.ds_print.specs.Names as spec;
ghost use Rattle.ds_print.specs.Names.{scalar, integer, integer_operand, signed, truth, punct, space};
ghost use Rattle.ds_print.specs.Canonical.{typed, operand_pieces};

use crate::names::{push_global, push_local};
use crate::text::{push, push_number};
use ds_ast::{Operand, Scalar, Value};
use std::alloc::AllocError;

/// Adds the word of a type.
pub fn push_scalar(text: &mut Vec<u8>, ty: Scalar) -> Result<(), AllocError>
    ensures { OnOk result (text.new.items ≡ text.old.items ++ written (scalar ty ∷ [])) }
{
    match ty {
        Scalar::I1 => push(text, b"i1"),
        Scalar::I8 => push(text, b"i8"),
        Scalar::I16 => push(text, b"i16"),
        Scalar::I32 => push(text, b"i32"),
        Scalar::I64 => push(text, b"i64"),
        Scalar::Ptr => push(text, b"ptr"),
    }
}

/// How many numbers a type has.
fn numbers_of(ty: Scalar) -> u128
    ensures { result ≡ 2 ^ width ty }
{
    match ty {
        Scalar::I1 => 0x2,
        Scalar::I8 => 0x100,
        Scalar::I16 => 0x1_0000,
        Scalar::I32 => 0x1_0000_0000,
        Scalar::I64 | Scalar::Ptr => 0x1_0000_0000_0000_0000,
    }
}

/// The least number of a type that stands for a negative one.
fn first_negative(ty: Scalar) -> u128
    ensures { result ≡ 2 ^ (width ty - 1) }
{
    match ty {
        Scalar::I1 => 0x1,
        Scalar::I8 => 0x80,
        Scalar::I16 => 0x8000,
        Scalar::I32 => 0x8000_0000,
        Scalar::I64 | Scalar::Ptr => 0x8000_0000_0000_0000,
    }
}

/// Adds a number of a type as a signed one in decimal.
#[tactic(auto, unfolding(crate::specs::Names::signed))]
pub fn push_integer(text: &mut Vec<u8>, ty: Scalar, number: u64) -> Result<(), AllocError>
    ensures { OnOk result (text.new.items ≡ text.old.items ++ written (integer ty number ∷ [])) }
{
    let bits = u128::from(number);
    if bits < first_negative(ty) {
        push_number(text, bits)
    } else {
        push(text, b"-")?;
        push_number(text, numbers_of(ty).saturating_sub(bits))
    }
}

/// Adds a truth value as a word.
fn push_truth(text: &mut Vec<u8>, value: bool) -> Result<(), AllocError>
    ensures { OnOk result (text.new.items ≡ text.old.items ++ written (truth value ∷ [])) }
{
    if value {
        push(text, b"true")
    } else {
        push(text, b"false")
    }
}

/// Adds an integer of a type: a truth value as a word, and another in decimal.
fn push_literal(text: &mut Vec<u8>, ty: Scalar, number: u64) -> Result<(), AllocError>
    ensures { OnOk result (text.new.items ≡ text.old.items ++ written (integer_operand ty number ∷ [])) }
{
    match ty {
        Scalar::I1 => push_truth(text, number != 0),
        Scalar::I8 | Scalar::I16 | Scalar::I32 | Scalar::I64 | Scalar::Ptr => {
            push_integer(text, ty, number)
        }
    }
}

/// Adds a value of a type.
pub fn push_value(text: &mut Vec<u8>, ty: Scalar, value: &Value) -> Result<(), AllocError>
    ensures { OnOk result (text.new.items ≡ text.old.items ++ written (spec.value ty value.now ∷ [])) }
{
    match value {
        Value::Int(number) => push_literal(text, ty, *number),
        Value::Null => push(text, b"null"),
        Value::Undef => push(text, b"undef"),
        Value::Local(name) => push_local(text, name),
        Value::Global(name) => push_global(text, name),
    }
}

/// Adds a type and a value of it.
pub fn push_typed(text: &mut Vec<u8>, ty: Scalar, value: &Value) -> Result<(), AllocError>
    ensures { OnOk result (text.new.items ≡ text.old.items ++ written (typed ty value.now)) }
{
    push_scalar(text, ty)?;
    push(text, b" ")?;
    push_value(text, ty, value)
}

/// Adds a value behind a comma and a space.
pub fn push_more_value(text: &mut Vec<u8>, ty: Scalar, value: &Value) -> Result<(), AllocError>
    ensures { OnOk result
        (text.new.items ≡ text.old.items ++ written (punct "," ∷ space ∷ spec.value ty value.now ∷ [])) }
{
    push(text, b", ")?;
    push_value(text, ty, value)
}

/// Adds a type and a value of it behind a comma and a space.
pub fn push_more_typed(text: &mut Vec<u8>, ty: Scalar, value: &Value) -> Result<(), AllocError>
    ensures { OnOk result (text.new.items ≡ text.old.items ++ written (punct "," ∷ space ∷ typed ty value.now)) }
{
    push(text, b", ")?;
    push_typed(text, ty, value)
}

/// Adds an operand: its type and its value.
pub fn push_operand(text: &mut Vec<u8>, operand: &Operand) -> Result<(), AllocError>
    ensures { OnOk result (text.new.items ≡ text.old.items ++ written (operand_pieces operand.now)) }
{
    push_typed(text, operand.ty, &operand.value)
}

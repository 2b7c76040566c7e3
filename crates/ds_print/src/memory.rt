//! Instructions that make, read or write memory, or compute an address.
ghost use Rattle.std.specs.Prelude.{◌≡◌, ◌++◌, map, IsTrue, OnOk, Option};
ghost use Rattle.ds_lex.specs.Written.{written};
ghost use Rattle.ds_ast.specs.Groups.{is_memory};
ghost use Rattle.ds_ast.specs.declared.instr.Op.TheVariants.{Alloca, Load, Store, Gep};
ghost use Rattle.ds_print.specs.Canonical.{more_listed, operand_pieces, optional_operand, op_pieces};

use crate::text::push;
use crate::types::push_type;
use crate::values::{push_more_typed, push_operand, push_scalar, push_typed};
use ds_ast::{Op, Operand, Scalar, Ty, Value};
use std::alloc::AllocError;

/// Adds an operand behind a comma and a space, if there is one.
fn push_optional_operand(text: &mut Vec<u8>, operand: &Option<Operand>) -> Result<(), AllocError>
    ensures { OnOk result (text.new.items ≡ text.old.items ++ written (optional_operand operand.now)) }
{
    match operand {
        None => Ok(()),
        Some(operand) => push_more_typed(text, operand.ty, &operand.value),
    }
}

/// Adds memory on the stack.
fn push_alloca(text: &mut Vec<u8>, ty: &Ty, count: &Option<Operand>) -> Result<(), AllocError>
    ensures { OnOk result (text.new.items ≡ text.old.items ++ written (op_pieces (Alloca ty.now count.now))) }
{
    push(text, b"alloca ")?;
    push_type(text, ty)?;
    push_optional_operand(text, count)?;
    Ok(())
}

/// Adds a load.
fn push_load(text: &mut Vec<u8>, ty: Scalar, at: &Value) -> Result<(), AllocError>
    ensures { OnOk result (text.new.items ≡ text.old.items ++ written (op_pieces (Load ty at.now))) }
{
    push(text, b"load ")?;
    push_scalar(text, ty)?;
    push_more_typed(text, Scalar::Ptr, at)?;
    Ok(())
}

/// Adds a store.
fn push_store(text: &mut Vec<u8>, ty: Scalar, value: &Value, at: &Value) -> Result<(), AllocError>
    ensures { OnOk result (text.new.items ≡ text.old.items ++ written (op_pieces (Store ty value.now at.now))) }
{
    push(text, b"store ")?;
    push_typed(text, ty, value)?;
    push_more_typed(text, Scalar::Ptr, at)?;
    Ok(())
}

/// Adds operands, each behind a comma and a space.
fn push_more_operands(text: &mut Vec<u8>, operands: &[Operand]) -> Result<(), AllocError>
    ensures { OnOk result
        (text.new.items ≡ text.old.items ++ written (more_listed (map operand_pieces operands.now))) }
{
    for operand in operands {
        push(text, b", ")?;
        push_operand(text, operand)?;
    }
    Ok(())
}

/// Adds the address of a part.
fn push_gep(
    text: &mut Vec<u8>,
    ty: &Ty,
    base: &Value,
    indices: &[Operand],
) -> Result<(), AllocError>
    ensures { OnOk result (text.new.items ≡ text.old.items ++ written (op_pieces (Gep ty.now base.now indices.now))) }
{
    push(text, b"getelementptr ")?;
    push_type(text, ty)?;
    push_more_typed(text, Scalar::Ptr, base)?;
    push_more_operands(text, indices)?;
    Ok(())
}

/// Adds an instruction that makes, reads or writes memory, or computes an address.
pub fn push_memory(text: &mut Vec<u8>, op: &Op) -> Result<(), AllocError>
    requires { IsTrue (is_memory op.now) }
    ensures { OnOk result (text.new.items ≡ text.old.items ++ written (op_pieces op.now)) }
{
    match op {
        Op::Alloca { ty, count } => push_alloca(text, ty, count),
        Op::Load { ty, at } => push_load(text, *ty, at),
        Op::Store { ty, value, at } => push_store(text, *ty, value, at),
        Op::Gep { ty, base, indices } => push_gep(text, ty, base, indices.as_slice()),
        _ => unreachable!(),
    }
}

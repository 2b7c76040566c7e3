//! Instructions that take one of the values that they name.
ghost use Rattle.std.specs.Prelude.{◌≡◌, ◌++◌, map, IsTrue, OnOk};
ghost use Rattle.ds_lex.specs.Written.{written};
ghost use Rattle.ds_ast.specs.Groups.{is_selection};
ghost use Rattle.ds_ast.specs.declared.instr.Op.TheVariants.{Select, Phi, Extract};
ghost use Rattle.ds_print.specs.Canonical.{arm_pieces, listed, op_pieces};

use crate::names::push_local;
use crate::text::{push, push_comma, push_count};
use crate::values::{push_more_typed, push_scalar, push_typed, push_value};
use ds_ast::{Arm, Name, Op, Scalar, Value};
use std::alloc::AllocError;

/// Adds the choice between two values.
fn push_select(
    text: &mut Vec<u8>,
    c: &Value,
    ty: Scalar,
    a: &Value,
    b: &Value,
) -> Result<(), AllocError>
    ensures { OnOk result (text.new.items ≡ text.old.items ++ written (op_pieces (Select c.now ty a.now b.now))) }
{
    push(text, b"select ")?;
    push_typed(text, Scalar::I1, c)?;
    push_more_typed(text, ty, a)?;
    push_more_typed(text, ty, b)?;
    Ok(())
}

/// Adds a value of a phi and the block that it belongs to.
fn push_arm(text: &mut Vec<u8>, ty: Scalar, arm: &Arm) -> Result<(), AllocError>
    ensures { OnOk result (text.new.items ≡ text.old.items ++ written (arm_pieces ty arm.now)) }
{
    push(text, b"[ ")?;
    push_value(text, ty, &arm.value)?;
    push(text, b", ")?;
    push_local(text, &arm.from)?;
    push(text, b" ]")?;
    Ok(())
}

/// Adds the values of a phi with commas between them.
fn push_arms(text: &mut Vec<u8>, ty: Scalar, arms: &[Arm]) -> Result<(), AllocError>
    ensures { OnOk result (text.new.items ≡ text.old.items ++ written (listed (map (arm_pieces ty) arms.now))) }
{
    for (index, arm) in arms.iter().enumerate() {
        push_comma(text, index)?;
        push_arm(text, ty, arm)?;
    }
    Ok(())
}

/// Adds a phi.
fn push_phi(text: &mut Vec<u8>, ty: Scalar, arms: &[Arm]) -> Result<(), AllocError>
    ensures { OnOk result (text.new.items ≡ text.old.items ++ written (op_pieces (Phi ty arms.now))) }
{
    push(text, b"phi ")?;
    push_scalar(text, ty)?;
    push(text, b" ")?;
    push_arms(text, ty, arms)?;
    Ok(())
}

/// Adds the part of the result of a `cmpxchg` that has this index.
fn push_extract(text: &mut Vec<u8>, ty: Scalar, of: &Name, index: u32) -> Result<(), AllocError>
    ensures { OnOk result (text.new.items ≡ text.old.items ++ written (op_pieces (Extract ty of.now index))) }
{
    push(text, b"extractvalue { ")?;
    push_scalar(text, ty)?;
    push(text, b", i1 } ")?;
    push_local(text, of)?;
    push(text, b", ")?;
    push_count(text, index)?;
    Ok(())
}

/// Adds an instruction that takes one of the values that it names.
pub fn push_selection(text: &mut Vec<u8>, op: &Op) -> Result<(), AllocError>
    requires { IsTrue (is_selection op.now) }
    ensures { OnOk result (text.new.items ≡ text.old.items ++ written (op_pieces op.now)) }
{
    match op {
        Op::Select { c, ty, a, b } => push_select(text, c, *ty, a, b),
        Op::Phi { ty, arms } => push_phi(text, *ty, arms.as_slice()),
        Op::Extract { ty, of, index } => push_extract(text, *ty, of, *index),
        _ => unreachable!(),
    }
}

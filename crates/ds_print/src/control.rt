//! Instructions that call, return, are never reached or go to another block.
ghost use Rattle.std.specs.Prelude.{◌≡◌, ◌++◌, [], ◌∷◌, map, flat_map, IsTrue, OnOk, Option};
ghost use Rattle.ds_lex.specs.Written.{written};
ghost use Rattle.ds_ast.specs.Groups.{is_transfer, is_branch};
ghost use Rattle.ds_ast.specs.declared.instr.Op.TheVariants.{Call, Br, CondBr, Switch};
ghost use Rattle.ds_print.specs.Names.{punct, space};
ghost use Rattle.ds_print.specs.Canonical.{case_pieces, listed, op_pieces, operand_pieces, returned, target};

use crate::names::{push_global, push_local};
use crate::text::{push, push_comma};
use crate::types::push_type;
use crate::values::{push_integer, push_operand, push_scalar, push_typed};
use ds_ast::{Name, Op, Operand, Scalar, Ty, Value};
use std::alloc::AllocError;

/// Adds arguments with commas between them.
fn push_args(text: &mut Vec<u8>, args: &[Operand]) -> Result<(), AllocError>
    ensures { OnOk result (text.new.items ≡ text.old.items ++ written (listed (map operand_pieces args.now))) }
{
    for (index, arg) in args.iter().enumerate() {
        push_comma(text, index)?;
        push_operand(text, arg)?;
    }
    Ok(())
}

/// Adds a call.
fn push_call(text: &mut Vec<u8>, ty: &Ty, callee: &Name, args: &[Operand]) -> Result<(), AllocError>
    ensures { OnOk result (text.new.items ≡ text.old.items ++ written (op_pieces (Call ty.now callee.now args.now))) }
{
    push(text, b"call ")?;
    push_type(text, ty)?;
    push(text, b" ")?;
    push_global(text, callee)?;
    push(text, b"(")?;
    push_args(text, args)?;
    push(text, b")")?;
    Ok(())
}

/// Adds what is returned: `void`, or an operand.
fn push_returned(text: &mut Vec<u8>, operand: &Option<Operand>) -> Result<(), AllocError>
    ensures { OnOk result (text.new.items ≡ text.old.items ++ written (returned operand.now)) }
{
    match operand {
        None => push(text, b"void"),
        Some(operand) => push_operand(text, operand),
    }
}

/// Adds an instruction that calls, returns or is never reached.
pub fn push_transfer(text: &mut Vec<u8>, op: &Op) -> Result<(), AllocError>
    requires { IsTrue (is_transfer op.now) }
    ensures { OnOk result (text.new.items ≡ text.old.items ++ written (op_pieces op.now)) }
{
    match op {
        Op::Call {
            result,
            callee,
            args,
        } => push_call(text, result, callee, args.as_slice()),
        Op::Ret(operand) => {
            push(text, b"ret ")?;
            push_returned(text, operand)
        }
        Op::Unreachable => push(text, b"unreachable"),
        _ => unreachable!(),
    }
}

/// Adds the block that is gone to.
fn push_target(text: &mut Vec<u8>, block: &Name) -> Result<(), AllocError>
    ensures { OnOk result (text.new.items ≡ text.old.items ++ written (target block.now)) }
{
    push(text, b"label ")?;
    push_local(text, block)?;
    Ok(())
}

/// Adds a conditional branch.
fn push_cond_br(text: &mut Vec<u8>, c: &Value, yes: &Name, no: &Name) -> Result<(), AllocError>
    ensures { OnOk result (text.new.items ≡ text.old.items ++ written (op_pieces (CondBr c.now yes.now no.now))) }
{
    push(text, b"br ")?;
    push_typed(text, Scalar::I1, c)?;
    push(text, b", ")?;
    push_target(text, yes)?;
    push(text, b", ")?;
    push_target(text, no)?;
    Ok(())
}

/// Adds a case of a switch: its number and its block.
fn push_case(text: &mut Vec<u8>, ty: Scalar, case: &(u64, Name)) -> Result<(), AllocError>
    ensures { OnOk result (text.new.items ≡ text.old.items ++ written (case_pieces ty case.now)) }
{
    push(text, b" ")?;
    push_scalar(text, ty)?;
    push(text, b" ")?;
    push_integer(text, ty, case.0)?;
    push(text, b", ")?;
    push_target(text, &case.1)?;
    Ok(())
}

/// Adds the cases of a switch.
fn push_cases(text: &mut Vec<u8>, ty: Scalar, cases: &[(u64, Name)]) -> Result<(), AllocError>
    ensures { OnOk result (text.new.items ≡ text.old.items ++ written (flat_map (case_pieces ty) cases.now)) }
{
    for case in cases {
        push_case(text, ty, case)?;
    }
    Ok(())
}

/// Adds a switch.
fn push_switch(
    text: &mut Vec<u8>,
    ty: Scalar,
    value: &Value,
    other: &Name,
    cases: &[(u64, Name)],
) -> Result<(), AllocError>
    ensures { OnOk result
        (text.new.items ≡ text.old.items ++ written (op_pieces (Switch ty value.now other.now cases.now))) }
{
    push(text, b"switch ")?;
    push_typed(text, ty, value)?;
    push(text, b", ")?;
    push_target(text, other)?;
    push(text, b" [")?;
    push_cases(text, ty, cases)?;
    push(text, b" ]")?;
    Ok(())
}

/// Adds an instruction that goes to another block.
pub fn push_branch(text: &mut Vec<u8>, op: &Op) -> Result<(), AllocError>
    requires { IsTrue (is_branch op.now) }
    ensures { OnOk result (text.new.items ≡ text.old.items ++ written (op_pieces op.now)) }
{
    match op {
        Op::Br(block) => {
            push(text, b"br ")?;
            push_target(text, block)
        }
        Op::CondBr { c, yes, no } => push_cond_br(text, c, yes, no),
        Op::Switch {
            ty,
            value,
            other,
            cases,
        } => push_switch(text, *ty, value, other, cases.as_slice()),
        _ => unreachable!(),
    }
}

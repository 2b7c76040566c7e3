//! Atomic instructions, and fences.
ghost use Rattle.std.specs.Prelude.{◌≡◌, ◌++◌, IsTrue, OnOk};
ghost use Rattle.ds_lex.specs.Written.{written};
ghost use Rattle.ds_ast.specs.Groups.{is_atomic};
ghost use Rattle.ds_ast.specs.declared.instr.Op.TheVariants.{Rmw, Cmpxchg, Fence};
ghost use Rattle.ds_print.specs.Canonical.{op_pieces};

use crate::text::push;
use crate::values::{push_more_typed, push_typed};
use crate::words::rmw_op_word;
use ds_ast::{Op, RmwOp, Scalar, Value};
use std::alloc::AllocError;

/// Adds an `atomicrmw`.
fn push_rmw(
    text: &mut Vec<u8>,
    op: RmwOp,
    at: &Value,
    ty: Scalar,
    value: &Value,
) -> Result<(), AllocError>
    ensures { OnOk result (text.new.items ≡ text.old.items ++ written (op_pieces (Rmw op at.now ty value.now))) }
{
    push(text, b"atomicrmw ")?;
    push(text, rmw_op_word(op))?;
    push(text, b" ")?;
    push_typed(text, Scalar::Ptr, at)?;
    push_more_typed(text, ty, value)?;
    push(text, b" seq_cst")?;
    Ok(())
}

/// Adds a `cmpxchg`.
fn push_cmpxchg(
    text: &mut Vec<u8>,
    at: &Value,
    ty: Scalar,
    expected: &Value,
    new: &Value,
) -> Result<(), AllocError>
    ensures { OnOk result
        (text.new.items ≡ text.old.items ++ written (op_pieces (Cmpxchg at.now ty expected.now new.now))) }
{
    push(text, b"cmpxchg ")?;
    push_typed(text, Scalar::Ptr, at)?;
    push_more_typed(text, ty, expected)?;
    push_more_typed(text, ty, new)?;
    push(text, b" seq_cst seq_cst")?;
    Ok(())
}

/// Adds an atomic instruction, or a fence.
pub fn push_atomic(text: &mut Vec<u8>, op: &Op) -> Result<(), AllocError>
    requires { IsTrue (is_atomic op.now) }
    ensures { OnOk result (text.new.items ≡ text.old.items ++ written (op_pieces op.now)) }
{
    match op {
        Op::Rmw { op, at, ty, value } => push_rmw(text, *op, at, *ty, value),
        Op::Cmpxchg {
            at,
            ty,
            expected,
            new,
        } => push_cmpxchg(text, at, *ty, expected, new),
        Op::Fence => push(text, b"fence seq_cst"),
        _ => unreachable!(),
    }
}

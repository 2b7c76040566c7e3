//! Instructions that compute a number from numbers.
ghost use Rattle.std.specs.Prelude.{◌≡◌, ◌++◌, IsTrue, OnOk};
ghost use Rattle.ds_lex.specs.Written.{written};
ghost use Rattle.ds_ast.specs.Groups.{is_arithmetic};
ghost use Rattle.ds_ast.specs.declared.instr.Op.TheVariants.{Bin, Icmp, Cast};
ghost use Rattle.ds_print.specs.Canonical.{op_pieces};

use crate::text::push;
use crate::values::{push_more_value, push_scalar, push_typed};
use crate::words::{bin_op_word, cast_op_word, cond_word};
use ds_ast::{BinOp, CastOp, Cond, Op, Scalar, Value};
use std::alloc::AllocError;

/// Adds an operation on two integers.
fn push_bin(
    text: &mut Vec<u8>,
    op: BinOp,
    ty: Scalar,
    a: &Value,
    b: &Value,
) -> Result<(), AllocError>
    ensures { OnOk result (text.new.items ≡ text.old.items ++ written (op_pieces (Bin op ty a.now b.now))) }
{
    push(text, bin_op_word(op))?;
    push(text, b" ")?;
    push_typed(text, ty, a)?;
    push_more_value(text, ty, b)?;
    Ok(())
}

/// Adds a comparison.
fn push_icmp(
    text: &mut Vec<u8>,
    cond: Cond,
    ty: Scalar,
    a: &Value,
    b: &Value,
) -> Result<(), AllocError>
    ensures { OnOk result (text.new.items ≡ text.old.items ++ written (op_pieces (Icmp cond ty a.now b.now))) }
{
    push(text, b"icmp ")?;
    push(text, cond_word(cond))?;
    push(text, b" ")?;
    push_typed(text, ty, a)?;
    push_more_value(text, ty, b)?;
    Ok(())
}

/// Adds a conversion.
fn push_cast(
    text: &mut Vec<u8>,
    op: CastOp,
    from: Scalar,
    a: &Value,
    to: Scalar,
) -> Result<(), AllocError>
    ensures { OnOk result (text.new.items ≡ text.old.items ++ written (op_pieces (Cast op from a.now to))) }
{
    push(text, cast_op_word(op))?;
    push(text, b" ")?;
    push_typed(text, from, a)?;
    push(text, b" to ")?;
    push_scalar(text, to)?;
    Ok(())
}

/// Adds an instruction that computes a number from numbers.
pub fn push_arithmetic(text: &mut Vec<u8>, op: &Op) -> Result<(), AllocError>
    requires { IsTrue (is_arithmetic op.now) }
    ensures { OnOk result (text.new.items ≡ text.old.items ++ written (op_pieces op.now)) }
{
    match op {
        Op::Bin { op, ty, a, b } => push_bin(text, *op, *ty, a, b),
        Op::Icmp { cond, ty, a, b } => push_icmp(text, *cond, *ty, a, b),
        Op::Cast { op, from, a, to } => push_cast(text, *op, *from, a, *to),
        _ => unreachable!(),
    }
}

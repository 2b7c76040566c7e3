//! Rows of arithmetic, comparisons and selections, each behind its word.
ghost use Rattle.ds_grammar.specs.Reading.{Gives, value_at};
ghost use Rattle.ds_grammar.specs.Instructions as instructions;

use crate::ops::condition;
use ds_ast::{BinOp, CastOp, Op, Scalar};
use ds_grammar::ParseFault;
use ds_parse_parts::{Rest, endings, ignored_run, punct, scalar, typed_value, value, word};
use std::alloc::Global;

/// An operation on two integers.
#[tactic(auto, unfolding(ds_grammar::specs::Instructions::binary_row))]
pub fn binary_row<'a>(
    alloc: Global,
    op: BinOp,
    rest: Rest<'a>,
) -> Result<(Op, Rest<'a>), ParseFault>
    ensures { Gives result (value_at (instructions.binary_row op) rest.entry) }
{
    let (_, rest) = ignored_run(alloc, rest)?;
    let (ty, rest) = scalar(rest)?;
    let (a, rest) = value(alloc, ty, rest)?;
    let rest = punct(b",", rest)?;
    let (b, rest) = value(alloc, ty, rest)?;
    let (_, rest) = endings(rest)?;
    Ok((Op::Bin { op, ty, a, b }, rest))
}

/// A conversion.
#[tactic(auto, unfolding(ds_grammar::specs::Instructions::cast_row))]
pub fn cast_row<'a>(alloc: Global, op: CastOp, rest: Rest<'a>) -> Result<(Op, Rest<'a>), ParseFault>
    ensures { Gives result (value_at (instructions.cast_row op) rest.entry) }
{
    let (_, rest) = ignored_run(alloc, rest)?;
    let (from, rest) = scalar(rest)?;
    let (a, rest) = value(alloc, from, rest)?;
    let rest = word(b"to", rest)?;
    let (to, rest) = scalar(rest)?;
    let (_, rest) = endings(rest)?;
    Ok((Op::Cast { op, from, a, to }, rest))
}

/// A comparison.
#[tactic(auto, unfolding(ds_grammar::specs::Instructions::icmp_row))]
pub fn icmp_row<'a>(alloc: Global, rest: Rest<'a>) -> Result<(Op, Rest<'a>), ParseFault>
    ensures { Gives result (value_at instructions.icmp_row rest.entry) }
{
    let (_, rest) = ignored_run(alloc, rest)?;
    let (cond, rest) = condition(rest)?;
    let (ty, rest) = scalar(rest)?;
    let (a, rest) = value(alloc, ty, rest)?;
    let rest = punct(b",", rest)?;
    let (b, rest) = value(alloc, ty, rest)?;
    let (_, rest) = endings(rest)?;
    Ok((Op::Icmp { cond, ty, a, b }, rest))
}

/// One of two values.
#[tactic(auto, unfolding(ds_grammar::specs::Instructions::select_row))]
pub fn select_row<'a>(alloc: Global, rest: Rest<'a>) -> Result<(Op, Rest<'a>), ParseFault>
    ensures { Gives result (value_at instructions.select_row rest.entry) }
{
    let (c, rest) = typed_value(alloc, Scalar::I1, rest)?;
    let rest = punct(b",", rest)?;
    let (ty, rest) = scalar(rest)?;
    let (a, rest) = value(alloc, ty, rest)?;
    let rest = punct(b",", rest)?;
    let (b, rest) = typed_value(alloc, ty, rest)?;
    let (_, rest) = endings(rest)?;
    Ok((Op::Select { c, ty, a, b }, rest))
}

//! Rows that load and store, also atomically, each behind its word.
ghost use Rattle.std.specs.Prelude.{◌≡◌};
ghost use Rattle.ds_grammar.specs.Reading.{Gives, value_at};
ghost use Rattle.ds_grammar.specs.Instructions as instructions;

use crate::ops::{optional_ordering, ordering, rmw_op};
use ds_ast::{Op, Scalar};
use ds_grammar::{Mark, ParseFault};
use ds_lex::{TokenKind, number_of};
use ds_parse_parts::{
    Rest, endings, ignored_run, local, optional_atomic, punct, range_mark, same_scalar, scalar,
    typed_value, value,
};
use std::alloc::Global;

/// `load`.
#[tactic(auto, unfolding(ds_grammar::specs::Instructions::load_row))]
pub fn load_row<'a>(alloc: Global, rest: Rest<'a>) -> Result<(Op, Rest<'a>), ParseFault>
    ensures { Gives result (value_at instructions.load_row rest.entry) }
{
    let (_, rest) = optional_atomic(rest)?;
    let (_, rest) = ignored_run(alloc, rest)?;
    let (ty, rest) = scalar(rest)?;
    let rest = punct(b",", rest)?;
    let (at, rest) = typed_value(alloc, Scalar::Ptr, rest)?;
    let (_, rest) = optional_ordering(rest)?;
    let (_, rest) = endings(rest)?;
    Ok((Op::Load { ty, at }, rest))
}

/// `store`.
#[tactic(auto, unfolding(ds_grammar::specs::Instructions::store_row))]
pub fn store_row<'a>(alloc: Global, rest: Rest<'a>) -> Result<(Op, Rest<'a>), ParseFault>
    ensures { Gives result (value_at instructions.store_row rest.entry) }
{
    let (_, rest) = optional_atomic(rest)?;
    let (_, rest) = ignored_run(alloc, rest)?;
    let (ty, rest) = scalar(rest)?;
    let (value, rest) = value(alloc, ty, rest)?;
    let rest = punct(b",", rest)?;
    let (at, rest) = typed_value(alloc, Scalar::Ptr, rest)?;
    let (_, rest) = optional_ordering(rest)?;
    let (_, rest) = endings(rest)?;
    Ok((Op::Store { ty, value, at }, rest))
}

/// `atomicrmw`.
#[tactic(auto, unfolding(ds_grammar::specs::Instructions::rmw_row))]
pub fn rmw_row<'a>(alloc: Global, rest: Rest<'a>) -> Result<(Op, Rest<'a>), ParseFault>
    ensures { Gives result (value_at instructions.rmw_row rest.entry) }
{
    let (_, rest) = ignored_run(alloc, rest)?;
    let (op, rest) = rmw_op(rest)?;
    let (at, rest) = typed_value(alloc, Scalar::Ptr, rest)?;
    let rest = punct(b",", rest)?;
    let (ty, rest) = scalar(rest)?;
    let (value, rest) = value(alloc, ty, rest)?;
    let rest = ordering(rest)?;
    let (_, rest) = endings(rest)?;
    Ok((Op::Rmw { op, at, ty, value }, rest))
}

/// `cmpxchg`.
#[tactic(auto, unfolding(ds_grammar::specs::Instructions::cmpxchg_row))]
pub fn cmpxchg_row<'a>(alloc: Global, rest: Rest<'a>) -> Result<(Op, Rest<'a>), ParseFault>
    ensures { Gives result (value_at instructions.cmpxchg_row rest.entry) }
{
    let (_, rest) = ignored_run(alloc, rest)?;
    let (at, rest) = typed_value(alloc, Scalar::Ptr, rest)?;
    let rest = punct(b",", rest)?;
    let (ty, rest) = scalar(rest)?;
    let (expected, rest) = value(alloc, ty, rest)?;
    let rest = punct(b",", rest)?;
    let (new, rest) = typed_value(alloc, ty, rest)?;
    let rest = ordering(rest)?;
    let rest = ordering(rest)?;
    let (_, rest) = endings(rest)?;
    Ok((
        Op::Cmpxchg {
            at,
            ty,
            expected,
            new,
        },
        rest,
    ))
}

/// The part of a result that a token numbers, with the mark of its range.
fn part_of(kind: TokenKind, bytes: &[u8], at: u32) -> Option<(u32, Mark)>
    ensures { result ≡ instructions.part_of kind bytes.now at }
{
    match kind {
        TokenKind::Number => match number_of(bytes) {
            Some(number) => Some(((number % 4_294_967_296) as u32, range_mark(at, number <= 1))),
            None => None,
        },
        _ => None,
    }
}

/// Which of the two parts of the result of a `cmpxchg`: 0 or 1.
#[tactic(auto, unfolding(ds_grammar::specs::Instructions::part_number))]
fn part_number<'a>(rest: Rest<'a>) -> Result<(u32, Rest<'a>), ParseFault>
    ensures { Gives result (value_at instructions.part_number rest.entry) }
{
    let read = match rest.peek() {
        Some((kind, bytes, at)) => part_of(kind, bytes, at),
        None => None,
    };
    let ((number, mark), rest) = rest.take(read)?;
    Ok((number, rest.marked(mark)))
}

/// `extractvalue`.
#[tactic(auto, unfolding(ds_grammar::specs::Instructions::extract_row))]
pub fn extract_row<'a>(alloc: Global, rest: Rest<'a>) -> Result<(Op, Rest<'a>), ParseFault>
    ensures { Gives result (value_at instructions.extract_row rest.entry) }
{
    let rest = punct(b"{", rest)?;
    let (ty, rest) = scalar(rest)?;
    let rest = punct(b",", rest)?;
    let rest = same_scalar(Scalar::I1, rest)?;
    let rest = punct(b"}", rest)?;
    let (of, rest) = local(alloc, rest)?;
    let rest = punct(b",", rest)?;
    let (index, rest) = part_number(rest)?;
    let (_, rest) = endings(rest)?;
    Ok((Op::Extract { ty, of, index }, rest))
}

/// `fence`.
#[tactic(auto, unfolding(ds_grammar::specs::Instructions::fence_row))]
pub fn fence_row<'a>(rest: Rest<'a>) -> Result<(Op, Rest<'a>), ParseFault>
    ensures { Gives result (value_at instructions.fence_row rest.entry) }
{
    let rest = ordering(rest)?;
    let (_, rest) = endings(rest)?;
    Ok((Op::Fence, rest))
}

//! Rows that end with a list, each behind its word.
ghost use Rattle.std.specs.Prelude.{◌≡◌, IfOk};
ghost use Rattle.ds_grammar.specs.Reading.{Gives, value_at};
ghost use Rattle.ds_grammar.specs.Instructions as instructions;

use crate::trails::{arm, arm_trail, operand_trail};
use ds_ast::{Op, Operand, Ops, Part, Scalar};
use ds_grammar::ParseFault;
use ds_parse_parts::{Rest, ignored_run, punct, scalar, type_of, typed_value};
use std::alloc::{AllocError, Global};

/// A copy of the first operand, if there is one.
fn first_operand(alloc: Global, operands: &Ops<Operand>) -> Result<Option<Operand>, AllocError>
    ensures { IfOk result (λ first. first ≡ instructions.first_operand operands.now) }
{
    match operands.as_slice() {
        [] => Ok(None),
        [first, ..] => Ok(Some(first.duplicate(alloc)?)),
    }
}

/// Memory on the stack: its type, and how many elements it has where that is written.
#[tactic(auto, unfolding(ds_grammar::specs::Instructions::alloca_row))]
pub fn alloca_row<'a>(alloc: Global, rest: Rest<'a>) -> Result<(Op, Rest<'a>), ParseFault>
    ensures { Gives result (value_at instructions.alloca_row rest.entry) }
{
    let (ty, rest) = type_of(alloc, true, None, rest)?;
    let (operands, rest) = operand_trail(alloc, true, rest)?;
    let count = first_operand(alloc, &operands)?;
    Ok((Op::Alloca { ty, count }, rest))
}

/// The address of a part.
#[tactic(auto, unfolding(ds_grammar::specs::Instructions::gep_row))]
pub fn gep_row<'a>(alloc: Global, rest: Rest<'a>) -> Result<(Op, Rest<'a>), ParseFault>
    ensures { Gives result (value_at instructions.gep_row rest.entry) }
{
    let (_, rest) = ignored_run(alloc, rest)?;
    let (ty, rest) = type_of(alloc, true, None, rest)?;
    let rest = punct(b",", rest)?;
    let (base, rest) = typed_value(alloc, Scalar::Ptr, rest)?;
    let (indices, rest) = operand_trail(alloc, false, rest)?;
    Ok((Op::Gep { ty, base, indices }, rest))
}

/// A value by the block that control came from.
#[tactic(auto, unfolding(ds_grammar::specs::Instructions::phi_row))]
pub fn phi_row<'a>(alloc: Global, rest: Rest<'a>) -> Result<(Op, Rest<'a>), ParseFault>
    ensures { Gives result (value_at instructions.phi_row rest.entry) }
{
    let (ty, rest) = scalar(rest)?;
    let rest = punct(b"[", rest)?;
    let (first, rest) = arm(alloc, ty, rest)?;
    let (arms, rest) = arm_trail(alloc, ty, first, rest)?;
    Ok((Op::Phi { ty, arms }, rest))
}

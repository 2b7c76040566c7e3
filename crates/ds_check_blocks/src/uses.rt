//! The values that an instruction uses.
ghost use Rattle.std.specs.Prelude.{◌≡◌, [], ◌∷◌, suc, length, map, option_map, option_to_list, slice_get};
ghost use Rattle.ds_ast.specs.declared.operand.Operand.{Operand as typed};
ghost use Rattle.ds_shape.specs.Operands.{uses_of};
ghost use Rattle.ds_shape.specs.Flow.{arms_of};
ghost use Rattle.ds_check_blocks.specs.Uses.{value_of};

use ds_ast::{Arm, Name, Op, Operand, Value};

/// A value that an instruction uses: an operand, or the value of a name that stands alone.
#[derive(Clone, Copy)]
pub enum Used<'a> {
    /// An operand.
    Value(&'a Value),
    /// The local value of this name.
    Local(&'a Name),
    /// The function of this name.
    Global(&'a Name),
}

/// The value of an operand at a place in a list.
fn operand_at(operands: &[Operand], n: usize) -> Option<Used<'_>>
    ensures { option_map value_of result ≡ slice_get (map (λ (o : typed). o.value) operands.now) n }
{
    match operands.get(n) {
        Some(operand) => Some(Used::Value(&operand.value)),
        None => None,
    }
}

/// The one value at a place, or the second, if there are two.
fn one_of_two<'a>(first: &'a Value, second: &'a Value, n: usize) -> Option<Used<'a>>
    ensures { option_map value_of result ≡ slice_get (first.now ∷ second.now ∷ []) n }
{
    match n {
        0 => Some(Used::Value(first)),
        1 => Some(Used::Value(second)),
        _ => None,
    }
}

/// The one value at a place, the second, or the third, if there are three.
fn one_of_three<'a>(
    first: &'a Value,
    second: &'a Value,
    third: &'a Value,
    n: usize,
) -> Option<Used<'a>>
    ensures { option_map value_of result ≡ slice_get (first.now ∷ second.now ∷ third.now ∷ []) n }
{
    match n {
        0 => Some(Used::Value(first)),
        1 => Some(Used::Value(second)),
        2 => Some(Used::Value(third)),
        _ => None,
    }
}

/// The one value, at the first place.
fn the_one<'a>(used: Used<'a>, n: usize) -> Option<Used<'a>>
    ensures { option_map value_of result ≡ slice_get (value_of used.entry ∷ []) n }
{
    if n == 0 { Some(used) } else { None }
}

/// The value at a place behind a first one.
fn behind<'a>(first: Used<'a>, operands: &'a [Operand], n: usize) -> Option<Used<'a>>
    ensures { option_map value_of result ≡ slice_get (value_of first.entry ∷ map
        (λ (o : typed). o.value) operands.now) n }
{
    if n == 0 {
        Some(first)
    } else {
        operand_at(operands, n - 1)
    }
}

/// The value of an operand that may be missing.
fn the_operand<'a>(operand: &'a Option<Operand>, n: usize) -> Option<Used<'a>>
    ensures { option_map value_of result ≡ slice_get (map (λ (o : typed). o.value) (option_to_list operand.now)) n }
{
    match operand {
        Some(operand) => the_one(Used::Value(&operand.value), n),
        None => None,
    }
}

/// The value that an instruction uses at a place in the order of the text, from 0 on, without those of a phi, which
/// are used at the ends of other blocks.
pub fn use_at(op: &Op, n: usize) -> Option<Used<'_>>
    ensures { option_map value_of result ≡ slice_get (uses_of op.now) n }
{
    match op {
        Op::Bin { a, b, .. } => one_of_two(a, b, n),
        Op::Icmp { a, b, .. } => one_of_two(a, b, n),
        Op::Select { c, a, b, .. } => one_of_three(c, a, b, n),
        Op::Cast { a, .. } => the_one(Used::Value(a), n),
        Op::Alloca { count, .. } => the_operand(count, n),
        Op::Load { at, .. } => the_one(Used::Value(at), n),
        Op::Store { value, at, .. } => one_of_two(value, at, n),
        Op::Gep { base, indices, .. } => behind(Used::Value(base), indices.as_slice(), n),
        Op::Call { callee, args, .. } => behind(Used::Global(callee), args.as_slice(), n),
        Op::Phi { .. } => None,
        Op::Rmw { at, value, .. } => one_of_two(at, value, n),
        Op::Cmpxchg {
            at,
            expected,
            new,
            ..
        } => one_of_three(at, expected, new, n),
        Op::Extract { of, .. } => the_one(Used::Local(of), n),
        Op::Fence => None,
        Op::Ret(value) => the_operand(value, n),
        Op::Br(_) => None,
        Op::CondBr { c, .. } => the_one(Used::Value(c), n),
        Op::Switch { value, .. } => the_one(Used::Value(value), n),
        Op::Unreachable => None,
    }
}

/// The arms of a phi, and none of other instructions.
pub fn arms(op: &Op) -> &[Arm]
    ensures { result.now ≡ arms_of op.now }
{
    match op {
        Op::Phi { arms, .. } => arms.as_slice(),
        _ => &[],
    }
}

/// How many values an instruction uses, without those of a phi.
pub fn use_count(op: &Op) -> usize
    ensures { result ≡ length (uses_of op.now) }
{
    match op {
        Op::Bin { .. } => 2,
        Op::Icmp { .. } => 2,
        Op::Select { .. } => 3,
        Op::Cast { .. } => 1,
        Op::Alloca { count, .. } => operand_count(count),
        Op::Load { .. } => 1,
        Op::Store { .. } => 2,
        Op::Gep { indices, .. } => one_and(indices.as_slice()),
        Op::Call { args, .. } => one_and(args.as_slice()),
        Op::Phi { .. } => 0,
        Op::Rmw { .. } => 2,
        Op::Cmpxchg { .. } => 3,
        Op::Extract { .. } => 1,
        Op::Fence => 0,
        Op::Ret(value) => operand_count(value),
        Op::Br(_) => 0,
        Op::CondBr { .. } => 1,
        Op::Switch { .. } => 1,
        Op::Unreachable => 0,
    }
}

/// One more than these operands.
fn one_and(operands: &[Operand]) -> usize
    ensures { result ≡ suc (length (map (λ (o : typed). o.value) operands.now)) }
{
    operands.len() + 1
}

/// One operand, or none.
fn operand_count(operand: &Option<Operand>) -> usize
    ensures { result ≡ length (map (λ (o : typed). o.value) (option_to_list operand.now)) }
{
    match operand {
        Some(_) => 1,
        None => 0,
    }
}

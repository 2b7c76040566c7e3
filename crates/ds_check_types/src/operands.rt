//! The types of an instruction's operands.
ghost use Rattle.std.specs.Prelude.{◌↔◌, [], ◌∷◌, IsTrue, All, map, option_to_list};
ghost use Rattle.ds_ast.specs.declared.operand.Arm.{Arm as arm};
ghost use Rattle.ds_ast.specs.declared.ty.Scalar.TheVariants.{Ptr};
ghost use Rattle.ds_shape.specs.Operands.{operands_of, typed};
ghost use Rattle.ds_shape.specs.Types.{HasType, IsTypedOperand};

use crate::values::{has_type, is_typed_operand};
use ds_ast::{Arm, Op, Operand, Scalar, Value};
use ds_check_names::{Entities, Locals};

/// No operand.
fn are_none(entities: &Entities, locals: &Locals) -> bool
    ensures { IsTrue result ↔ All (IsTypedOperand entities.now locals.now) [] }
{
    true
}

/// Whether one value has its type.
fn is_one(entities: &Entities, locals: &Locals, ty: Scalar, value: &Value) -> bool
    ensures { IsTrue result ↔ All (IsTypedOperand entities.now locals.now) (typed ty value.now ∷ []) }
{
    if !has_type(entities, locals, ty, value) {
        return false;
    }
    are_none(entities, locals)
}

/// Whether two values have their types.
fn are_two(
    entities: &Entities,
    locals: &Locals,
    first_type: Scalar,
    first: &Value,
    ty: Scalar,
    value: &Value,
) -> bool
    ensures { IsTrue result
        ↔ All (IsTypedOperand entities.now locals.now) (typed first_type first.now ∷ typed ty value.now ∷ []) }
{
    if !has_type(entities, locals, first_type, first) {
        return false;
    }
    is_one(entities, locals, ty, value)
}

/// Whether a first value has its type, and two others have theirs.
fn are_three(
    entities: &Entities,
    locals: &Locals,
    first_type: Scalar,
    first: &Value,
    ty: Scalar,
    a: &Value,
    b: &Value,
) -> bool
    ensures { IsTrue result
        ↔ All (IsTypedOperand entities.now locals.now) (typed first_type first.now ∷ typed ty a.now ∷ typed ty b.now ∷
        []) }
{
    if !has_type(entities, locals, first_type, first) {
        return false;
    }
    are_two(entities, locals, ty, a, ty, b)
}

/// Whether an operand, where it is written, has its type.
fn is_optional(entities: &Entities, locals: &Locals, operand: &Option<Operand>) -> bool
    ensures { IsTrue result ↔ All (IsTypedOperand entities.now locals.now) (option_to_list operand.now) }
{
    match operand {
        Some(operand) => is_one(entities, locals, operand.ty, &operand.value),
        None => are_none(entities, locals),
    }
}

/// Whether all operands of a list have their types.
fn are_all(entities: &Entities, locals: &Locals, operands: &[Operand]) -> bool
    ensures { IsTrue result ↔ All (IsTypedOperand entities.now locals.now) operands.now }
{
    for operand in operands {
        if !is_typed_operand(entities, locals, operand) {
            return false;
        }
    }
    true
}

/// Whether an address is one, and its indices have their types.
fn are_base_and_indices(
    entities: &Entities,
    locals: &Locals,
    base: &Value,
    indices: &[Operand],
) -> bool
    ensures { IsTrue result ↔ All (IsTypedOperand entities.now locals.now) (typed Ptr base.now ∷ indices.now) }
{
    if !has_type(entities, locals, Scalar::Ptr, base) {
        return false;
    }
    are_all(entities, locals, indices)
}

/// Whether the values of all arms have the type.
fn have_type(entities: &Entities, locals: &Locals, ty: Scalar, arms: &[Arm]) -> bool
    ensures { IsTrue result ↔ All (λ (a : arm). HasType entities.now locals.now ty a.value) arms.now }
{
    for arm in arms {
        if !has_type(entities, locals, ty, &arm.value) {
            return false;
        }
    }
    true
}

/// Whether the values of all arms have their type.
fn are_arms(entities: &Entities, locals: &Locals, ty: Scalar, arms: &[Arm]) -> bool
    ensures { IsTrue result ↔ All (IsTypedOperand entities.now locals.now) (map
        (λ (a : arm). typed ty a.value) arms.now) }
{
    have_type(entities, locals, ty, arms)
}

/// Whether each operand of an instruction has the type that is written before it, but for the arguments of a call.
pub fn are_typed_operands(entities: &Entities, locals: &Locals, op: &Op) -> bool
    ensures { IsTrue result ↔ All (IsTypedOperand entities.now locals.now) (operands_of op.now) }
{
    match op {
        Op::Bin { ty, a, b, .. } => are_two(entities, locals, *ty, a, *ty, b),
        Op::Icmp { ty, a, b, .. } => are_two(entities, locals, *ty, a, *ty, b),
        Op::Select { c, ty, a, b } => are_three(entities, locals, Scalar::I1, c, *ty, a, b),
        Op::Cast { from, a, .. } => is_one(entities, locals, *from, a),
        Op::Alloca { count, .. } => is_optional(entities, locals, count),
        Op::Load { at, .. } => is_one(entities, locals, Scalar::Ptr, at),
        Op::Store { ty, value, at } => are_two(entities, locals, *ty, value, Scalar::Ptr, at),
        Op::Gep { base, indices, .. } => are_base_and_indices(
            entities,
            locals,
            base,
            indices.as_slice(),
        ),
        Op::Call { .. } => are_none(entities, locals),
        Op::Phi { ty, arms } => are_arms(entities, locals, *ty, arms.as_slice()),
        Op::Rmw { at, ty, value, .. } => are_two(entities, locals, Scalar::Ptr, at, *ty, value),
        Op::Cmpxchg {
            at,
            ty,
            expected,
            new,
        } => are_three(entities, locals, Scalar::Ptr, at, *ty, expected, new),
        Op::Extract { .. } => are_none(entities, locals),
        Op::Fence => are_none(entities, locals),
        Op::Ret(value) => is_optional(entities, locals, value),
        Op::Br(_) => are_none(entities, locals),
        Op::CondBr { c, .. } => is_one(entities, locals, Scalar::I1, c),
        Op::Switch { ty, value, .. } => is_one(entities, locals, *ty, value),
        Op::Unreachable => are_none(entities, locals),
    }
}

//! Whether what an instruction uses is defined.
ghost use Rattle.std.specs.Prelude.{◌≡◌, ◌↔◌, IsTrue, All, slice_get, Some};
ghost use Rattle.ds_ast.specs.declared.value.Value.{Value as value};
ghost use Rattle.ds_ast.specs.declared.operand.Arm.{Arm as arm};
ghost use Rattle.ds_shape.specs.Placed.{values_of, IsDefined};
ghost use Rattle.ds_shape.specs.Operands.{uses_of};
ghost use Rattle.ds_shape.specs.Flow.{arms_of};
ghost use Rattle.ds_check_blocks.specs.Uses.{value_of};

use ds_ast::Op;
use ds_check_blocks::{Used, arms, use_at, use_count};
use ds_check_names::{Entities, Locals, is_defined};

/// Whether a value that an instruction uses is defined.
fn is_defined_use(entities: &Entities, locals: &Locals, used: Used<'_>) -> bool
    ensures { IsTrue result ↔ IsDefined entities.now locals.now (value_of used.entry) }
{
    match used {
        Used::Value(value) => is_defined(entities, locals, value),
        Used::Local(name) => locals.defined(name).is_some(),
        Used::Global(name) => entities.is_global(name) || entities.is_function(name),
    }
}

/// Whether the value that an instruction uses at a place is defined.
fn is_defined_at(entities: &Entities, locals: &Locals, op: &Op, n: usize) -> bool
    ensures { (v : value) → slice_get (uses_of op.now) n ≡ Some v → (IsTrue result
        ↔ IsDefined entities.now locals.now v) }
{
    match use_at(op, n) {
        Some(used) => is_defined_use(entities, locals, used),
        None => true,
    }
}

/// Whether all values that an instruction uses are defined, but for those of a phi's arms.
fn are_uses_defined(entities: &Entities, locals: &Locals, op: &Op) -> bool
    ensures { IsTrue result ↔ All (IsDefined entities.now locals.now) (uses_of op.now) }
{
    for n in 0..use_count(op) {
        if !is_defined_at(entities, locals, op, n) {
            return false;
        }
    }
    true
}

/// Whether the values of a phi's arms are defined.
fn are_arms_defined(entities: &Entities, locals: &Locals, op: &Op) -> bool
    ensures { IsTrue result ↔ All (λ (a : arm). IsDefined entities.now locals.now a.value) (arms_of op.now) }
{
    for arm in arms(op) {
        if !is_defined(entities, locals, &arm.value) {
            return false;
        }
    }
    true
}

/// Whether all operands of an instruction are defined.
pub fn are_operands_defined(entities: &Entities, locals: &Locals, op: &Op) -> bool
    ensures { IsTrue result ↔ All (IsDefined entities.now locals.now) (values_of op.now) }
{
    if !are_uses_defined(entities, locals, op) {
        return false;
    }
    are_arms_defined(entities, locals, op)
}

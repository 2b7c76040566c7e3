//! The first use of a value that is not assigned on every path to it.
ghost use Rattle.std.specs.Prelude.{◌≡◌, ◌<◌, ◌^◌, ◌↔◌, ℕ, [], All, Some, length, slice_get, take, IfNone, IfOk};
ghost use Rattle.std.specs.Prelude.{IfSome, IsTrue};
ghost use Rattle.ds_ast.specs.declared.module.Block.{Block as blocks};
ghost use Rattle.ds_ast.specs.declared.value.Value.{Value as values};
ghost use Rattle.ds_check_blocks.specs.Edges.{AreEdgesOf};
ghost use Rattle.ds_check_blocks.specs.Sites.{IsSite};
ghost use Rattle.ds_check_blocks.specs.Uses.{value_of};
ghost use Rattle.ds_names.specs.Names.{AreDistinct};
ghost use Rattle.ds_shape.specs.Accepted.{local_names};
ghost use Rattle.ds_shape.specs.Operands.{uses_of};
ghost use Rattle.ds_shape.specs.Flow.{arms_of};
ghost use Rattle.ds_shape.specs.Placed.{Placed as placed, BreaksFirst, KeepsAssigned, placed_of, IsAssignedArm};
ghost use Rattle.ds_shape.specs.Placed.{IsAssignedUse};

use crate::flow::Flow;
use ds_ast::{Arm, Function, Op, Value};
use ds_check_blocks::{Site, Sites, Used, arms, use_at, use_count};
use ds_check_names::Locals;
use ds_graph::Graph;
use std::alloc::{AllocError, Global};

/// Whether a value is assigned on every path to a place of a block.
fn is_assigned_value(flow: &Flow<'_, '_>, value: &Value, place: Site) -> Result<bool, AllocError>
    requires { place.block < length flow.now.blocks }
    ensures { IfOk result (λ answer. (c : blocks) → slice_get flow.now.blocks place.block ≡ Some c → (IsTrue answer
        ↔ IsAssignedUse flow.now c (take place.index c.code) value.now)) }
{
    match value {
        Value::Int(_) => Ok(true),
        Value::Null => Ok(true),
        Value::Undef => Ok(true),
        Value::Local(name) => flow.is_assigned(name, place),
        Value::Global(_) => Ok(true),
    }
}

/// Whether a value that an instruction uses is assigned on every path to a place of a block.
fn is_assigned_use(flow: &Flow<'_, '_>, used: Used<'_>, place: Site) -> Result<bool, AllocError>
    requires { place.block < length flow.now.blocks }
    ensures { IfOk result (λ answer. (c : blocks) → slice_get flow.now.blocks place.block ≡ Some c → (IsTrue answer
        ↔ IsAssignedUse flow.now c (take place.index c.code) (value_of used.entry))) }
{
    match used {
        Used::Value(value) => is_assigned_value(flow, value, place),
        Used::Local(name) => flow.is_assigned(name, place),
        Used::Global(_) => Ok(true),
    }
}

/// Whether the value that the instruction at a site uses at a place of its operands is assigned on every path to it.
fn is_assigned_at(flow: &Flow<'_, '_>, op: &Op, n: usize, site: Site) -> Result<bool, AllocError>
    requires { site.block < length flow.now.blocks }
    ensures { IfOk result (λ answer. (c : blocks) → slice_get flow.now.blocks site.block ≡ Some c → (v : values)
        → slice_get (uses_of op.now) n ≡ Some v → (IsTrue answer
        ↔ IsAssignedUse flow.now c (take site.index c.code) v)) }
{
    match use_at(op, n) {
        Some(used) => is_assigned_use(flow, used, site),
        None => Ok(true),
    }
}

/// Whether all values that the instruction at a site uses are assigned on every path to it, but for those of a phi's
/// arms.
fn are_uses_assigned(flow: &Flow<'_, '_>, op: &Op, site: Site) -> Result<bool, AllocError>
    requires { site.block < length flow.now.blocks }
    ensures { IfOk result (λ answer. (c : blocks) → slice_get flow.now.blocks site.block ≡ Some c → (IsTrue answer
        ↔ All (IsAssignedUse flow.now c (take site.index c.code)) (uses_of op.now))) }
{
    for n in 0..use_count(op) {
        if !is_assigned_at(flow, op, n, site)? {
            return Ok(false);
        }
    }
    Ok(true)
}

/// Whether the value of a phi's arm is assigned on every path to the end of the block that the arm names. If no block
/// has the name, it is.
fn is_assigned_arm(flow: &Flow<'_, '_>, arm: &Arm) -> Result<bool, AllocError>
    ensures { IfOk result (λ answer. IsTrue answer ↔ IsAssignedArm flow.now arm.now) }
{
    match flow.end_of(&arm.from) {
        Some(end) => is_assigned_value(flow, &arm.value, end),
        None => Ok(true),
    }
}

/// Whether the value of each arm of a phi is assigned on every path to the end of the block that the arm names.
fn are_arms_assigned(flow: &Flow<'_, '_>, op: &Op) -> Result<bool, AllocError>
    ensures { IfOk result (λ answer. IsTrue answer ↔ All (IsAssignedArm flow.now) (arms_of op.now)) }
{
    for arm in arms(op) {
        if !is_assigned_arm(flow, arm)? {
            return Ok(false);
        }
    }
    Ok(true)
}

/// Whether the instruction at a site keeps the rule.
fn keeps_assigned(flow: &Flow<'_, '_>, site: Site) -> Result<bool, AllocError>
    requires { (n : ℕ) × (p : placed) × IsSite flow.now n site p }
    ensures { IfOk result (λ answer. (n : ℕ) (p : placed) → IsSite flow.now n site p → (IsTrue answer
        ↔ KeepsAssigned flow.now p)) }
{
    let op = flow.op(site);
    if !are_uses_assigned(flow, op, site)? {
        return Ok(false);
    }
    are_arms_assigned(flow, op)
}

/// The number of the first instruction that uses a value which is not assigned on every path to it, if there is one.
///
/// Instructions are numbered in the order of the text, from 0 on. A phi uses the value of an arm at the end of the
/// block that the arm names. Uses in blocks to
/// which no path leads are none. Takes O(n log n) for n blocks and uses. An `Err` comes only where there is not enough
/// memory.
pub fn first_unassigned(
    alloc: Global,
    function: &Function,
    locals: &Locals<'_>,
    sites: &Sites<'_>,
    graph: &Graph,
) -> Result<Option<usize>, AllocError>
    requires same { (locals.now ≡ function.now) × (sites.now ≡ function.now) }
    requires distinct { AreDistinct (local_names function.now) }
    requires edges { AreEdgesOf function.now graph.now }
    requires some { function.now.blocks ≡ [] → ⊥ }
    requires few { length function.now.blocks < 2 ^ 32 }
    ensures some { IfOk result (λ answer. IfSome answer
        (λ i. BreaksFirst (KeepsAssigned function.now) function.now i)) }
    ensures none { IfOk result (λ answer. IfNone answer (All (KeepsAssigned function.now) (placed_of function.now))) }
{
    let flow = Flow::new(alloc, function, locals, graph)?;
    for number in 0..sites.len() {
        if !keeps_assigned(&flow, sites.site(number))? {
            return Ok(Some(number));
        }
    }
    Ok(None)
}

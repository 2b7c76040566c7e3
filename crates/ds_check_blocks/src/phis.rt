//! Which phis are good ones.
ghost use Rattle.std.specs.Prelude.{◌≡◌, ◌<◌, ◌^◌, ◌↔◌, List, [], IsTrue, Some, All, length, slice_get, IfOk};
ghost use Rattle.ds_ast.specs.declared.instr.Instr.{Instr as instr};
ghost use Rattle.ds_ast.specs.declared.module.Block.{Block as one};
ghost use Rattle.ds_shape.specs.Placed.{IsPhi, IsGoodPhi};
ghost use Rattle.ds_shape.specs.Flow.{arms_of};
ghost use Rattle.ds_check_blocks.specs.Phis.{Keeps, AreKept, HasEach};
ghost use Rattle.ds_check_blocks.specs.Predecessors.{ArePredecessorsOf};

use crate::predecessors::Predecessors;
use crate::uses::arms;
use ds_ast::{Arm, Function, Op, Value};
use ds_check_names::Locals;
use std::alloc::{AllocError, Global};
use std::collections::{BTreeMap, BTreeSet};

/// Whether an instruction is a phi.
pub fn is_phi(op: &Op) -> bool
    ensures { IsTrue result ↔ (arms_of op.now ≡ [] → ⊥) }
{
    !arms(op).is_empty()
}

/// Keeps the value of an arm for its block, and answers whether its label is that of a predecessor, and the block has
/// no
/// other value.
fn keep<'a>(
    values: &mut BTreeMap<u32, &'a Value>,
    locals: &Locals,
    predecessors: &BTreeSet<u32>,
    arm: &'a Arm,
) -> Result<bool, AllocError>
    requires { length locals.now.blocks < 2 ^ 32 }
    ensures { IfOk result (λ kept. Keeps locals.now predecessors.now.keys arm.entry.now values.old values.new kept) }
{
    let Some(block) = locals.block(&arm.from) else {
        return Ok(false);
    };
    let block = block as u32;
    if !predecessors.contains(&block) {
        return Ok(false);
    }
    match values.get(&block) {
        Some(value) => Ok(**value == arm.value),
        None => {
            values.insert(block, &arm.value)?;
            Ok(true)
        }
    }
}

/// The value of each block that arms name, or none where a label is not that of a predecessor, or has two values.
fn values_of<'a>(
    alloc: Global,
    locals: &Locals,
    predecessors: &BTreeSet<u32>,
    arms: &'a [Arm],
) -> Result<Option<BTreeMap<u32, &'a Value>>, AllocError>
    requires { length locals.now.blocks < 2 ^ 32 }
    ensures { IfOk result (λ found. AreKept locals.now predecessors.now.keys arms.entry.now found) }
{
    let mut values = BTreeMap::new(alloc);
    for arm in arms {
        if !keep(&mut values, locals, predecessors, arm)? {
            return Ok(None);
        }
    }
    Ok(Some(values))
}

/// Whether each predecessor has a value.
fn has_each(values: &BTreeMap<u32, &Value>, predecessors: &BTreeSet<u32>) -> bool
    ensures { IsTrue result ↔ HasEach values.now predecessors.now.keys }
{
    for block in predecessors {
        if !values.contains_key(block) {
            return false;
        }
    }
    true
}

/// Whether a phi is a good one: it stands at the front of its block, its labels are those of the block's predecessors,
/// and
/// each of them has one value. The time is O(n log n) in its arms, however many predecessors there are.
pub fn is_good_phi(
    alloc: Global,
    function: &Function,
    locals: &Locals,
    predecessors: &Predecessors,
    block: usize,
    behind_phis: bool,
    op: &Op,
) -> Result<bool, AllocError>
    requires locals { locals.now ≡ function.now }
    requires few { length function.now.blocks < 2 ^ 32 }
    requires predecessors { ArePredecessorsOf function.now predecessors.now }
    requires block { block < length function.now.blocks }
    ensures { IfOk result (λ good. (c : one) (front : List instr) → slice_get function.now.blocks block ≡ Some c
        → (IsTrue behind_phis ↔ All IsPhi front) → (IsTrue good ↔ IsGoodPhi function.now c front op.now)) }
{
    if !behind_phis {
        return Ok(false);
    }
    let row = predecessors.row(block);
    match values_of(alloc, locals, row, arms(op))? {
        Some(values) => Ok(has_each(&values, row)),
        None => Ok(false),
    }
}

//! The rules that are looked at one instruction after another.
ghost use Rattle.std.specs.Prelude.{◌≡◌, ◌<◌, ◌^◌, ◌↔◌, ℕ, All, IfOk, IsTrue, length};
ghost use Rattle.ds_shape.specs.Types.{IsTypedOp};
ghost use Rattle.ds_shape.specs.Placed.{Placed as placed, KeepsPhi, GivesRegister, IsPhi};
ghost use Rattle.ds_check_blocks.specs.Predecessors.{ArePredecessorsOf};
ghost use Rattle.ds_check_blocks.specs.Sites.{IsSite};
ghost use Rattle.ds_check.specs.Front.{AreFronts};
ghost use Rattle.ds_check.specs.Instr.{IsBroken};

use crate::operands::are_operands_defined;
use ds_ast::{Function, Op, Ty};
use ds_check_blocks::{Predecessors, Site, is_good_phi, is_phi};
use ds_check_names::{Entities, Locals};
use ds_check_types::is_typed;
use ds_shape::Shapes;
use std::alloc::{AllocError, Global};

/// A rule of one instruction, in the order in which they are looked at.
#[derive(Clone, Copy, Debug, PartialEq, Eq)]
pub enum Rule {
    /// Its operands are defined.
    Defined,
    /// It keeps the rules of types.
    Typed,
    /// Where it is a phi, it is a good one.
    GoodPhi,
}

/// What the instructions of a function are judged by.
#[derive(Drop)]
pub struct Judge<'j, 'a> {
    /// The names of the module.
    pub entities: &'j Entities<'a>,
    /// The sizes of its types.
    pub shapes: &'j Shapes<'a>,
    /// The function.
    pub function: &'a Function,
    /// Its local names.
    pub locals: &'j Locals<'a>,
    /// The predecessors of its blocks.
    pub predecessors: &'j Predecessors,
    /// How many phis stand at the front of each block.
    pub fronts: &'j [usize],
}

/// Whether a function gives nothing, or what a register holds.
fn gives_register(f: &Function) -> bool
    ensures { IsTrue result ↔ GivesRegister f.now.result }
{
    match &f.result {
        Ty::Void => true,
        Ty::One(_) => true,
        Ty::Array { .. } => false,
        Ty::Struct(_) => false,
    }
}

impl<'j, 'a> Judge<'j, 'a> {
    /// Whether only phis stand before an instruction in its block.
    fn is_behind_phis(&self, site: Site) -> bool
        requires few { length self.now.function.now.blocks < 2 ^ 32 }
        requires fronts { AreFronts self.now.function.now.blocks self.now.fronts.now }
        requires site { (n : ℕ) × (p : placed) × IsSite self.now.function.now n site p }
        ensures { (n : ℕ) (p : placed) → IsSite self.now.function.now n site p → (IsTrue result ↔ All IsPhi p.front) }
    {
        site.index <= self.fronts[site.block]
    }

    /// Whether an instruction that is a phi is a good one.
    fn keeps_phi(&self, alloc: Global, site: Site, op: &Op) -> Result<bool, AllocError>
        requires locals { self.now.locals.now ≡ self.now.function.now }
        requires few { length self.now.function.now.blocks < 2 ^ 32 }
        requires predecessors { ArePredecessorsOf self.now.function.now self.now.predecessors.now }
        requires fronts { AreFronts self.now.function.now.blocks self.now.fronts.now }
        requires site { (n : ℕ) × (p : placed) × IsSite self.now.function.now n site p }
        ensures { IfOk result (λ kept. (n : ℕ) (p : placed) → IsSite self.now.function.now n site p
            → op.now ≡ p.instr.op → (IsTrue kept ↔ KeepsPhi self.now.function.now p)) }
    {
        if !is_phi(op) {
            return Ok(true);
        }
        let behind_phis = self.is_behind_phis(site);
        is_good_phi(
            alloc,
            self.function,
            self.locals,
            self.predecessors,
            site.block,
            behind_phis,
            op,
        )
    }

    /// Whether an instruction keeps the rules of types; the first of a function answers for the function's result.
    fn keeps_types(&self, alloc: Global, number: usize, op: &'a Op) -> Result<bool, AllocError>
        requires shapes { self.now.shapes.now ≡ self.now.entities.now.structs }
        requires locals { self.now.locals.now ≡ self.now.function.now }
        ensures { IfOk result (λ kept. IsTrue kept ↔ (IsTypedOp self.now.entities.now self.now.function.now op.now
            × (number ≡ 0 → GivesRegister self.now.function.now.result))) }
    {
        if number == 0 {
            if !gives_register(self.function) {
                return Ok(false);
            }
        }
        is_typed(
            alloc,
            self.entities,
            self.locals,
            self.shapes,
            self.function,
            op,
        )
    }
}

/// The first rule that an instruction breaks, of those that are looked at one instruction after another. `number` is
/// its number in the function.
pub fn first_broken<'a>(
    alloc: Global,
    judge: &Judge<'_, 'a>,
    site: Site,
    number: usize,
    op: &'a Op,
) -> Result<Option<Rule>, AllocError>
    requires shapes { judge.now.shapes.now ≡ judge.now.entities.now.structs }
    requires locals { judge.now.locals.now ≡ judge.now.function.now }
    requires few { length judge.now.function.now.blocks < 2 ^ 32 }
    requires predecessors { ArePredecessorsOf judge.now.function.now judge.now.predecessors.now }
    requires fronts { AreFronts judge.now.function.now.blocks judge.now.fronts.now }
    requires site { (p : placed) × IsSite judge.now.function.now number site p }
    ensures { IfOk result (λ rule. (p : placed) → IsSite judge.now.function.now number site p → op.now ≡ p.instr.op
        → IsBroken judge.now.entities.now judge.now.function.now p rule) }
{
    if !are_operands_defined(judge.entities, judge.locals, op) {
        return Ok(Some(Rule::Defined));
    }
    if !judge.keeps_types(alloc, number, op)? {
        return Ok(Some(Rule::Typed));
    }
    if !judge.keeps_phi(alloc, site, op)? {
        return Ok(Some(Rule::GoodPhi));
    }
    Ok(None)
}

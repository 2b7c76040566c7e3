//! The instructions of a function, one after another.
ghost use Rattle.std.specs.Prelude.{◌≡◌, ◌<◌, ◌^◌, All, IfNone, IfOk, IfSome, length, slice_index_or};
ghost use Rattle.ds_shape.specs.Placed.{Placed as placed, placed_of};
ghost use Rattle.ds_check_blocks.specs.Predecessors.{ArePredecessorsOf};
ghost use Rattle.ds_check.specs.Fault.{KeepsAll};
ghost use Rattle.ds_check.specs.Front.{AreFronts};
ghost use Rattle.ds_check.specs.Instr.{IsBroken};
ghost use Rattle.ds_check.specs.Broken.{IsFirstBroken};

use crate::instr::{Judge, Rule, first_broken};
use ds_check_blocks::{Sites, instr_at};
use std::alloc::{AllocError, Global};

/// A rule that an instruction breaks.
#[derive(Clone, Copy, Debug, PartialEq, Eq)]
pub struct Broken {
    /// The number of the instruction in its function, from 0 on.
    pub number: usize,
    /// The rule.
    pub rule: Rule,
}

/// The first rule that the instruction of this number breaks, of those of one instruction.
fn broken_at<'a>(
    alloc: Global,
    judge: &Judge<'_, 'a>,
    sites: &Sites<'a>,
    number: usize,
) -> Result<Option<Rule>, AllocError>
    requires shapes { judge.now.shapes.now ≡ judge.now.entities.now.structs }
    requires locals { judge.now.locals.now ≡ judge.now.function.now }
    requires few { length judge.now.function.now.blocks < 2 ^ 32 }
    requires predecessors { ArePredecessorsOf judge.now.function.now judge.now.predecessors.now }
    requires fronts { AreFronts judge.now.function.now.blocks judge.now.fronts.now }
    requires sites { sites.now ≡ judge.now.function.now }
    requires number { number < length (placed_of judge.now.function.now) }
    ensures { IfOk result (λ rule. (p : placed)
        → IsBroken judge.now.entities.now judge.now.function.now (slice_index_or (placed_of judge.now.function.now)
        number p) rule) }
{
    let site = sites.site(number);
    let instr = instr_at(judge.function, sites, number);
    first_broken(alloc, judge, site, number, &instr.op)
}

/// The first instruction that breaks a rule of one instruction.
pub fn first_broken_instruction<'a>(
    alloc: Global,
    judge: &Judge<'_, 'a>,
    sites: &Sites<'a>,
) -> Result<Option<Broken>, AllocError>
    requires shapes { judge.now.shapes.now ≡ judge.now.entities.now.structs }
    requires locals { judge.now.locals.now ≡ judge.now.function.now }
    requires few { length judge.now.function.now.blocks < 2 ^ 32 }
    requires predecessors { ArePredecessorsOf judge.now.function.now judge.now.predecessors.now }
    requires fronts { AreFronts judge.now.function.now.blocks judge.now.fronts.now }
    requires sites { sites.now ≡ judge.now.function.now }
    ensures some { IfOk result (λ answer. IfSome answer
        (λ b. IsFirstBroken judge.now.entities.now judge.now.function.now b)) }
    ensures none { IfOk result
        (λ answer. IfNone answer (All (KeepsAll judge.now.entities.now judge.now.function.now) (placed_of
        judge.now.function.now))) }
{
    for number in 0..sites.len() {
        match broken_at(alloc, judge, sites, number)? {
            Some(rule) => return Ok(Some(Broken { number, rule })),
            None => {}
        }
    }
    Ok(None)
}

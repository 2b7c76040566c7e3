//! Labels that may not be branched to.
ghost use Rattle.std.specs.Prelude.{◌≡◌, ◌<◌, ◌↔◌, IsTrue, IfSome, IfNone, All, length, slice_index_or};
ghost use Rattle.ds_shape.specs.Flow.{targets_of};
ghost use Rattle.ds_shape.specs.Placed.{Placed as placed, placed_of, BreaksFirst, KeepsTargets, IsTarget};

use crate::sites::Sites;
use crate::targets::{target, target_count};
use ds_ast::{Function, Instr, Name, Op};
use ds_check_names::Locals;

/// Whether a label is that of a block, and not of the entry.
fn is_target(locals: &Locals, label: &Name) -> bool
    ensures { IsTrue result ↔ IsTarget locals.now label.now }
{
    match locals.block(label) {
        Some(number) => number > 0,
        None => false,
    }
}

/// Whether each label that an instruction names is that of a block, and not of the entry.
fn keeps_targets(locals: &Locals, op: &Op) -> bool
    ensures { IsTrue result ↔ All (IsTarget locals.now) (targets_of op.now) }
{
    for number in 0..target_count(op) {
        if !is_target(locals, target(op, number)) {
            return false;
        }
    }
    true
}

/// The instruction of this number.
pub fn instr_at<'a>(function: &'a Function, sites: &Sites, number: usize) -> &'a Instr
    requires same { sites.now ≡ function.now }
    requires inside { number < length (placed_of sites.now) }
    ensures { (p : placed) → (slice_index_or (placed_of sites.now) number p).instr ≡ result.now }
{
    let site = sites.site(number);
    let block = &function.blocks.as_slice()[site.block];
    &block.code.as_slice()[site.index]
}

/// The number of the first instruction that names a label which is none of the function's blocks', or that of its
/// entry.
pub fn first_bad_label(function: &Function, sites: &Sites, locals: &Locals) -> Option<usize>
    requires sites { sites.now ≡ function.now }
    requires locals { locals.now ≡ function.now }
    ensures some { IfSome result (λ i. BreaksFirst (KeepsTargets function.now) function.now i) }
    ensures none { IfNone result (All (KeepsTargets function.now) (placed_of function.now)) }
{
    for number in 0..sites.len() {
        let instr = instr_at(function, sites, number);
        if !keeps_targets(locals, &instr.op) {
            return Some(number);
        }
    }
    None
}

//! What a module may have too many of.
ghost use Rattle.std.specs.Prelude.{◌≡◌, ◌↔◌, ◌≤◌, IsTrue, All, length, flat_map};
ghost use Rattle.ds_ast.specs.declared.module.Function.{Function as function};
ghost use Rattle.ds_shape.specs.Types.{instructions_of};
ghost use Rattle.ds_check.specs.Downward.{LeftBehind};

use ds_ast::{Function, Module};

/// How many of so many instructions are left behind those of a function.
fn left_behind(left: usize, f: &Function) -> Option<usize>
    ensures { LeftBehind left (length (instructions_of f.now)) result }
{
    let mut rest = left;
    for block in f.blocks.as_slice() {
        match rest.checked_sub(block.code.len()) {
            Some(fewer) => rest = fewer,
            None => return None,
        }
    }
    Some(rest)
}

/// Whether the functions of a module have no more instructions than this together.
pub fn has_few_instructions(module: &Module, limit: usize) -> bool
    ensures { IsTrue result ↔ (length (flat_map instructions_of «module».now.functions) ≤ limit) }
{
    let mut rest = limit;
    for f in module.functions.as_slice() {
        match left_behind(rest, f) {
            Some(fewer) => rest = fewer,
            None => return false,
        }
    }
    true
}

/// Whether no function of a module has more parameters than this.
pub fn has_few_parameters(module: &Module, limit: usize) -> bool
    ensures { IsTrue result ↔ All (λ (f : function). length f.params ≤ limit) «module».now.functions }
{
    for f in module.functions.as_slice() {
        if f.params.len() > limit {
            return false;
        }
    }
    true
}

//! How much a module may have.
ghost use Rattle.std.specs.Prelude.{◌≡◌, All, IfNone, IfSome};
ghost use Rattle.ds_shape.specs.Accepted.{HasLayout};
ghost use Rattle.ds_shape.specs.Written.{IsFirstBreach};
ghost use Rattle.ds_check.specs.Fault.{HasFew, count_kinds, limit_of};

use crate::counts::{has_few_instructions, has_few_parameters};
use crate::fault::CountKind;
use crate::words::has_few_words;
use ds_ast::Module;
use ds_shape::Shapes;

/// The most functions of a module.
const MOST_FUNCTIONS: usize = 1_024;
/// The most instructions of a module.
const MOST_INSTRUCTIONS: usize = 200_000;
/// The most parameters of a function.
const MOST_PARAMETERS: usize = 64;
/// The most words of all globals together.
const MOST_GLOBAL_WORDS: u64 = 4_096;

/// The limit of a count.
pub fn limit_by(what: CountKind) -> u32
    ensures { result ≡ limit_of what }
{
    match what {
        CountKind::Functions => 1_024,
        CountKind::Instructions => 200_000,
        CountKind::Params => 64,
        CountKind::GlobalWords => 4_096,
    }
}

/// What a module has too many of first, in the order in which it is counted: functions, instructions, parameters,
/// words of globals.
pub fn first_above_limit(module: &Module, shapes: &Shapes) -> Option<CountKind>
    requires layout { HasLayout «module».now }
    requires shapes { shapes.now ≡ «module».now.structs }
    ensures some { IfSome result (λ what. IsFirstBreach (HasFew «module».now) count_kinds what) }
    ensures none { IfNone result (All (HasFew «module».now) count_kinds) }
{
    if module.functions.len() > MOST_FUNCTIONS {
        return Some(CountKind::Functions);
    }
    if !has_few_instructions(module, MOST_INSTRUCTIONS) {
        return Some(CountKind::Instructions);
    }
    if !has_few_parameters(module, MOST_PARAMETERS) {
        return Some(CountKind::Params);
    }
    if !has_few_words(module, shapes, MOST_GLOBAL_WORDS) {
        return Some(CountKind::GlobalWords);
    }
    None
}

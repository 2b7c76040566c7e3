//! Modules.
ghost use Rattle.std.specs.Prelude.{◌≡◌, IfOk};
ghost use Rattle.ds_print.specs.Canonical.{canon};

use crate::functions::push_functions;
use crate::globals::push_globals;
use crate::lines::Lines;
use crate::structs::push_structs;
use ds_ast::{Bytes, Module};
use std::alloc::{AllocError, Global};

/// The canonical text of a module: struct types, then globals, then functions, each in the order of the module. Every
/// line ends with a line feed. An `Err` comes only where there is not enough memory.
#[tactic(auto, unfolding(crate::specs::Canonical::canon, crate::specs::Canonical::module_pieces))]
pub fn print(alloc: Global, module: &Module) -> Result<Bytes, AllocError>
    ensures { IfOk result (λ text. text ≡ canon «module».now) }
{
    let mut text = Vec::new(alloc);
    let lines = Lines::new(alloc, module.structs.as_slice())?;
    push_structs(&mut text, module.structs.as_slice())?;
    push_globals(&mut text, &lines, module.globals.as_slice())?;
    push_functions(&mut text, module.functions.as_slice())?;
    Ok(Bytes::from_vec(text))
}

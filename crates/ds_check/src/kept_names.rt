//! The first name that may not be defined or declared.
ghost use Rattle.std.specs.Prelude.{◌↔◌, IsTrue, IfSome, IfNone, All};
ghost use Rattle.ds_shape.specs.Written.{IsFirstBreach};
ghost use Rattle.ds_check.specs.Fault.{IsFirstExternal};
ghost use Rattle.ds_shape.specs.Accepted.{IsFreeGlobal, IsGoodExternal};

use crate::externals::{is_known_external, is_reserved};
use ds_ast::{Function, GlobalDef, Module, Name};

/// Whether a function has a name that is free, and is known where it is declared.
fn is_good_external(f: &Function) -> bool
    ensures { IsTrue result ↔ IsGoodExternal f.now }
{
    if is_reserved(&f.name) {
        return false;
    }
    if f.blocks.is_empty() {
        return is_known_external(f);
    }
    true
}

/// The first global with a name that is not free.
fn first_global(globals: &[GlobalDef]) -> Option<&GlobalDef>
    ensures some { IfSome result (λ g. IsFirstBreach IsFreeGlobal globals.now g.now) }
    ensures none { IfNone result (All IsFreeGlobal globals.now) }
{
    for g in globals {
        if is_reserved(&g.name) {
            return Some(g);
        }
    }
    None
}

/// The first function that is no good external.
fn first_function(functions: &[Function]) -> Option<&Function>
    ensures some { IfSome result (λ f. IsFirstBreach IsGoodExternal functions.now f.now) }
    ensures none { IfNone result (All IsGoodExternal functions.now) }
{
    for f in functions {
        if !is_good_external(f) {
            return Some(f);
        }
    }
    None
}

/// The first name of a module that may not be defined or declared.
pub fn first_bad_external(module: &Module) -> Option<&Name>
    ensures some { IfSome result (λ n. IsFirstExternal «module».now n.now) }
    ensures none { IfNone result (All IsFreeGlobal «module».now.globals × All IsGoodExternal «module».now.functions) }
{
    match first_global(module.globals.as_slice()) {
        Some(g) => Some(&g.name),
        None => match first_function(module.functions.as_slice()) {
            Some(f) => Some(&f.name),
            None => None,
        },
    }
}

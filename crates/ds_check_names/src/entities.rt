//! The globals and functions of a module by their names.
ghost use Rattle.std.specs.Prelude.{◌≡◌, ◌↔◌, ◌++◌, map, IsTrue, OnOk, IfOk, IfErr, IfSome, IfNone, option_copied};
ghost use Rattle.std.specs.Prelude.{slice_get};
ghost use Rattle.ds_ast.specs.declared.module.GlobalDef.{GlobalDef};
ghost use Rattle.ds_ast.specs.declared.module.Function.{Function};
ghost use Rattle.ds_names.specs.Names.{AreDistinct};
ghost use Rattle.ds_shape.specs.Types.{IsGlobal, IsFunction};
ghost use Rattle.ds_shape.specs.Accepted.{global_names};
ghost use Rattle.ds_check_names.specs.Fault.{IsFaultOf};
ghost use Rattle.ds_check_names.specs.Scope.{IsFunctionOf};

use crate::fault::ScopeFault;
use crate::put::put;
use ds_ast::{Function, GlobalDef, Module, Name};
use ds_names::{Names, places_are_exact, places_are_unique};
use std::alloc::Global;
use std::marker::Model;

/// The globals and functions of a module by their names. Contracts see the module.
#[derive(Drop)]
pub struct Entities<'a> {
    module: &'a Module,
    names: Names<'a>,
}

impl<'a> Model for Entities<'a> {
    ghost use Rattle.std.specs.Prelude.{◌≡◌};
    ghost use Rattle.ds_ast.specs.declared.module.Module.{Module};
    ghost use Rattle.ds_ast.specs.contracts.module.Module as row;
    ghost use Rattle.ds_names.specs.Names.{AreDistinct};
    ghost use Rattle.ds_shape.specs.Accepted.{global_names};

    ghost Value = { Module };

    ghost coded = { row.the_row.coded };

    ghost view = { λ entities. entities.«module».now };

    ghost invariant = { λ entities. (entities.names ≡ global_names entities.«module».now)
        × AreDistinct entities.names };
}

impl<'a> Entities<'a> {
    /// The globals and functions of a module. An `Err` comes where a name stands twice, or where there is not enough
    /// memory.
    pub fn new(alloc: Global, module: &'a Module) -> Result<Entities<'a>, ScopeFault<'a>>
        ensures named { IfOk result (λ entities. (entities ≡ «module».now) × AreDistinct (global_names «module».now)) }
        ensures refused { IfErr result (λ fault. IsFaultOf (global_names «module».now) fault) }
    {
        let mut names = Names::new(alloc);
        put_globals(&mut names, module.globals.as_slice())?;
        put_functions(&mut names, module.functions.as_slice())?;
        Ok(Entities { module, names })
    }

    /// Whether a global has the name.
    pub fn is_global(&self, name: &Name) -> bool
        ensures { IsTrue result ↔ IsGlobal self.now name.now }
    {
        places_are_exact();
        places_are_unique();
        match self.names.place(name) {
            Some(place) => place < self.module.globals.len(),
            None => false,
        }
    }

    /// Whether a function has the name.
    pub fn is_function(&self, name: &Name) -> bool
        ensures { IsTrue result ↔ IsFunction self.now name.now }
    {
        places_are_exact();
        places_are_unique();
        match self.names.place(name) {
            Some(place) => place >= self.module.globals.len(),
            None => false,
        }
    }

    /// The function that has the name, if there is one.
    pub fn function(&self, name: &Name) -> Option<&'a Function>
        ensures some { IfSome result (λ g. IsFunctionOf self.now name.now g.now) }
        ensures none { IfNone result (IsFunction self.now name.now → ⊥) }
    {
        places_are_exact();
        places_are_unique();
        let globals = self.module.globals.len();
        match self.names.place(name) {
            Some(place) => {
                if place < globals {
                    None
                } else {
                    function_at(self.module.functions.as_slice(), place - globals)
                }
            }
            None => None,
        }
    }
}

/// The function of this number, from 0 on, if there is one.
fn function_at(functions: &[Function], number: usize) -> Option<&Function>
    ensures { option_copied result ≡ slice_get functions.now number }
{
    functions.get(number)
}

/// Puts the names of globals behind the others.
fn put_globals<'a>(names: &mut Names<'a>, globals: &'a [GlobalDef]) -> Result<(), ScopeFault<'a>>
    ensures put { OnOk result (names.new ≡ names.old ++ map (λ (g : GlobalDef). g.name) globals.now) }
    ensures each_once { OnOk result (AreDistinct names.old → AreDistinct names.new) }
    ensures refused { IfErr result (λ fault. IsFaultOf (names.old ++ map
        (λ (g : GlobalDef). g.name) globals.now) fault) }
{
    for global in globals {
        put(names, &global.name)?;
    }
    Ok(())
}

/// Puts the names of functions behind the others.
fn put_functions<'a>(names: &mut Names<'a>, functions: &'a [Function]) -> Result<(), ScopeFault<'a>>
    ensures put { OnOk result (names.new ≡ names.old ++ map (λ (f : Function). f.name) functions.now) }
    ensures each_once { OnOk result (AreDistinct names.old → AreDistinct names.new) }
    ensures refused { IfErr result (λ fault. IsFaultOf (names.old ++ map
        (λ (f : Function). f.name) functions.now) fault) }
{
    for function in functions {
        put(names, &function.name)?;
    }
    Ok(())
}

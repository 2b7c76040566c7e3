//! The globals and the functions of a module, one after another.
ghost use Rattle.std.specs.Prelude.{◌≡◌, ◌↔◌, ◌⊎◌, [], All, IfErr, IfOk, IsTrue};
ghost use Rattle.ds_ast.specs.declared.module.GlobalDef.{GlobalDef as global};
ghost use Rattle.ds_ast.specs.Bounds.{Bounds};
ghost use Rattle.ds_shape.specs.Types.{IsInitial, Stands};
ghost use Rattle.ds_check.specs.Fault.{HasFew, HasFirstFunctionFault, HasFunctionFault};
ghost use Rattle.ds_shape.specs.Accepted.{IsGood};
ghost use Rattle.ds_check.specs.declared.fault.CountKind.TheVariants as kinds;
ghost use Rattle.ds_check.specs.declared.fault.TypeFault.TheVariants as faults;

use crate::fault::TypeFault;
use crate::functions::check_function;
use ds_ast::{Function, Module};
use ds_check_names::Entities;
use ds_check_types::is_initial;
use ds_shape::Shapes;
use std::alloc::Global;

/// Whether each global has the type of its initialiser.
pub fn are_globals_initial(entities: &Entities, shapes: &Shapes, module: &Module) -> bool
    requires module { entities.now ≡ «module».now }
    requires shapes { shapes.now ≡ «module».now.structs }
    ensures { IsTrue result ↔ All (λ (g : global). IsInitial «module».now g.ty g.init) «module».now.globals }
{
    for g in module.globals.as_slice() {
        if !is_initial(entities, shapes, &g.init, &g.ty) {
            return false;
        }
    }
    true
}

/// The first fault of a function of a module, if it is defined. `f` is its number.
fn check_one<'a>(
    alloc: Global,
    entities: &Entities<'a>,
    shapes: &Shapes<'a>,
    function: &'a Function,
    f: u32,
) -> Result<(), TypeFault>
    requires bounds { Bounds entities.now }
    requires shapes { shapes.now ≡ entities.now.structs }
    requires stands { Stands function.now entities.now.functions }
    requires few { HasFew entities.now kinds.Instructions }
    ensures good { IfOk result (λ _. IsGood entities.now function.now) }
    ensures refused { IfErr result (λ fault. (fault ≡ faults.Memory) ⊎ ((function.now.blocks ≡ [] → ⊥)
        × HasFunctionFault entities.now f function.now fault)) }
{
    if function.blocks.is_empty() {
        return Ok(());
    }
    check_function(alloc, entities, shapes, function, f)
}

/// The first fault of the functions that are defined.
pub fn check_functions<'a>(
    alloc: Global,
    entities: &Entities<'a>,
    shapes: &Shapes<'a>,
    module: &'a Module,
) -> Result<(), TypeFault>
    requires bounds { Bounds «module».now }
    requires module { entities.now ≡ «module».now }
    requires shapes { shapes.now ≡ «module».now.structs }
    requires functions { HasFew «module».now kinds.Functions }
    requires instructions { HasFew «module».now kinds.Instructions }
    ensures kept { IfOk result (λ _. All (IsGood «module».now) «module».now.functions) }
    ensures refused { IfErr result (λ fault. (fault ≡ faults.Memory) ⊎ HasFirstFunctionFault «module».now fault) }
{
    let functions: &'a [Function] = module.functions.as_slice();
    for f in 0..functions.len() {
        match check_one(alloc, entities, shapes, &functions[f], f as u32) {
            Ok(()) => {}
            Err(fault) => return Err(fault),
        }
    }
    Ok(())
}

//! Whether a module is accepted.

ghost use Rattle.std.specs.Prelude.{◌≡◌, IfOk, IfErr};
ghost use Rattle.ds_ast.specs.Bounds.{Bounds};
ghost use Rattle.ds_shape.specs.Accepted.{Accepted};
ghost use Rattle.ds_report.specs.declared.fault.Fault.TheVariants as faults;
ghost use Rattle.ds_main.specs.Input.{function_names};
ghost use Rattle.ds_main.specs.Stopped.{Tells, ExplainsModule};

use crate::no_module::{NoModule, no_module};
use ds_ast::{List, Module, Name, Part};
use ds_check::{TypeFault, check};
use ds_report::Fault;
use ds_shape::{Shapes, layout};
use std::alloc::{AllocError, Global};

/// The names of all functions of a module, declared ones too, in the order of the text.
pub fn names_of(alloc: Global, module: &Module) -> Result<Vec<Name>, AllocError>
    ensures { IfOk result (λ names. names.items ≡ function_names «module».now) }
{
    let mut names = Vec::new(alloc);
    for f in module.functions.as_slice() {
        names.push(f.name.duplicate(alloc)?)?;
    }
    Ok(names)
}

/// The fault of a module that has a layout as one of the input, with the names of its functions.
fn not_accepted(alloc: Global, module: &Module, fault: TypeFault) -> NoModule
    ensures { Tells (faults.Check fault (function_names «module».now)) result }
{
    match names_of(alloc, module) {
        Ok(names) => no_module(Fault::Check(fault, List::from_vec(names))),
        Err(_) => NoModule::Memory,
    }
}

/// The sizes and offsets of a module's types, where it is accepted: it keeps all rules.
///
/// # Errors
///
/// `Refused` with its first fault, or `Memory`.
pub fn accept<'a>(alloc: Global, module: &'a Module) -> Result<Shapes<'a>, NoModule>
    requires { Bounds «module».now }
    ensures accepted { IfOk result (λ shapes. Accepted «module».now × (shapes ≡ «module».now.structs)) }
    ensures refused { IfErr result (λ why. ExplainsModule «module».now why) }
{
    let shapes = match layout(alloc, module) {
        Ok(shapes) => shapes,
        Err(fault) => return Err(no_module(Fault::Shape(fault))),
    };
    match check(alloc, module, &shapes) {
        Ok(()) => Ok(shapes),
        Err(fault) => Err(not_accepted(alloc, module, fault)),
    }
}

//! Whether a module is accepted.
ghost use Rattle.std.specs.Prelude.{◌≡◌, ◌⊎◌, All, Err, IfErr, IfOk};
ghost use Rattle.ds_ast.specs.Bounds.{Bounds};
ghost use Rattle.ds_shape.specs.Accepted.{Accepted, HasLayout, HasMain, IsGood};
ghost use Rattle.ds_check.specs.Fault.{HasExternals, HasGlobals, HasTypeFault};
ghost use Rattle.ds_check.specs.declared.fault.TypeFault.TheVariants as faults;

use crate::bodies::{are_globals_initial, check_functions};
use crate::fault::TypeFault;
use crate::main_function::has_main;
use crate::names::{check_counts, check_externals, entities_of};
use ds_ast::Module;
use ds_check_names::Entities;
use ds_shape::Shapes;
use std::alloc::Global;

/// The globals and functions of a module by their names, where those, its counts and its externals keep their rules.
fn check_names<'a>(
    alloc: Global,
    module: &'a Module,
    shapes: &Shapes<'a>,
) -> Result<Entities<'a>, TypeFault>
    requires layout { HasLayout «module».now }
    requires shapes { shapes.now ≡ «module».now.structs }
    ensures kept { IfOk result (λ entities. (entities ≡ «module».now) × HasExternals «module».now) }
    ensures refused { IfErr result (λ fault. (fault ≡ faults.Memory) ⊎ HasTypeFault «module».now fault) }
{
    let entities = match entities_of(alloc, module) {
        Ok(entities) => entities,
        Err(fault) => return Err(fault),
    };
    match check_counts(module, shapes) {
        Ok(()) => {}
        Err(fault) => return Err(fault),
    }
    match check_externals(alloc, module) {
        Ok(()) => Ok(entities),
        Err(fault) => Err(fault),
    }
}

/// Whether the globals and functions of a module keep their rules.
fn check_bodies<'a>(
    alloc: Global,
    entities: &Entities<'a>,
    module: &'a Module,
    shapes: &Shapes<'a>,
) -> Result<(), TypeFault>
    requires bounds { Bounds «module».now }
    requires module { entities.now ≡ «module».now }
    requires shapes { shapes.now ≡ «module».now.structs }
    requires externals { HasExternals «module».now }
    ensures kept { IfOk result (λ _. HasGlobals «module».now × All (IsGood «module».now) «module».now.functions) }
    ensures refused { IfErr result (λ fault. (fault ≡ faults.Memory) ⊎ HasTypeFault «module».now fault) }
{
    if !are_globals_initial(entities, shapes, module) {
        return Err(TypeFault::WrongType {
            f: u32::MAX,
            i: u32::MAX,
        });
    }
    check_functions(alloc, entities, shapes, module)
}

/// The first fault of a module that has a layout, if it is not accepted.
fn first_fault<'a>(alloc: Global, module: &'a Module, shapes: &Shapes<'a>) -> Result<(), TypeFault>
    requires bounds { Bounds «module».now }
    requires layout { HasLayout «module».now }
    requires shapes { shapes.now ≡ «module».now.structs }
    ensures accepted { IfOk result (λ _. Accepted «module».now) }
    ensures refused { IfErr result (λ fault. (fault ≡ faults.Memory) ⊎ HasTypeFault «module».now fault) }
{
    let entities = match check_names(alloc, module, shapes) {
        Ok(entities) => entities,
        Err(fault) => return Err(fault),
    };
    match check_bodies(alloc, &entities, module, shapes) {
        Ok(()) => {}
        Err(fault) => return Err(fault),
    }
    if has_main(module) {
        Ok(())
    } else {
        Err(TypeFault::NoMain)
    }
}

/// Whether a module that has a layout is accepted: `Ok` where it keeps all rules, and else its first fault. This takes
/// time that grows by n log n with the
/// module. Without memory the fault is `Memory`, and for an accepted module no other comes.
pub fn check<'a>(alloc: Global, module: &'a Module, shapes: &Shapes<'a>) -> Result<(), TypeFault>
    requires bounds { Bounds «module».now }
    requires layout { HasLayout «module».now }
    requires shapes { shapes.now ≡ «module».now.structs }
    ensures accepted { IfOk result (λ _. Accepted «module».now) }
    ensures only { Accepted «module».now → IfErr result (λ fault. fault ≡ faults.Memory) }
    ensures refused { IfErr result (λ fault. (fault ≡ faults.Memory) ⊎ HasTypeFault «module».now fault) }
    ensures first { (fault : TypeFault) → HasTypeFault «module».now fault → (result ≡ Err fault)
        ⊎ (result ≡ Err faults.Memory) }
{
    first_fault(alloc, module, shapes)
}

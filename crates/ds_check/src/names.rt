//! The names, counts and externals of a module.
ghost use Rattle.std.specs.Prelude.{◌≡◌, ◌⊎◌, IfErr, IfOk};
ghost use Rattle.ds_names.specs.Names.{AreDistinct};
ghost use Rattle.ds_shape.specs.Accepted.{global_names, HasLayout};
ghost use Rattle.ds_check.specs.Fault.{HasCounts, HasExternals, HasTypeFault};
ghost use Rattle.ds_check.specs.declared.fault.TypeFault.TheVariants as faults;

use crate::fault::TypeFault;
use crate::kept_names::first_bad_external;
use crate::limits::{first_above_limit, limit_by};
use ds_ast::{Module, Name, Part};
use ds_check_names::{Entities, ScopeFault};
use ds_shape::Shapes;
use std::alloc::Global;

/// The fault that a global or function name stands twice.
fn twice(alloc: Global, name: &Name) -> TypeFault
    ensures { (result ≡ faults.Memory) ⊎ (result ≡ faults.Twice name.now) }
{
    match name.duplicate(alloc) {
        Ok(name) => TypeFault::Twice { name },
        Err(_) => TypeFault::Memory,
    }
}

/// The fault that a name may not be declared or defined.
fn bad_external(alloc: Global, name: &Name) -> TypeFault
    ensures { (result ≡ faults.Memory) ⊎ (result ≡ faults.BadExternal name.now) }
{
    match name.duplicate(alloc) {
        Ok(name) => TypeFault::BadExternal { name },
        Err(_) => TypeFault::Memory,
    }
}

/// The globals and functions of a module by their names.
pub fn entities_of<'a>(alloc: Global, module: &'a Module) -> Result<Entities<'a>, TypeFault>
    ensures named { IfOk result (λ entities. (entities ≡ «module».now) × AreDistinct (global_names «module».now)) }
    ensures refused { IfErr result (λ fault. (fault ≡ faults.Memory) ⊎ HasTypeFault «module».now fault) }
{
    match Entities::new(alloc, module) {
        Ok(entities) => Ok(entities),
        Err(ScopeFault::Twice(name)) => Err(twice(alloc, name)),
        Err(ScopeFault::Memory) => Err(TypeFault::Memory),
    }
}

/// Whether a module has too many of something.
pub fn check_counts(module: &Module, shapes: &Shapes) -> Result<(), TypeFault>
    requires layout { HasLayout «module».now }
    requires shapes { shapes.now ≡ «module».now.structs }
    requires distinct { AreDistinct (global_names «module».now) }
    ensures kept { IfOk result (λ _. HasCounts «module».now) }
    ensures refused { IfErr result (HasTypeFault «module».now) }
{
    match first_above_limit(module, shapes) {
        Some(what) => Err(TypeFault::TooMany {
            what,
            limit: limit_by(what),
        }),
        None => Ok(()),
    }
}

/// Whether a module declares or defines what it may not.
pub fn check_externals(alloc: Global, module: &Module) -> Result<(), TypeFault>
    requires counts { HasCounts «module».now }
    ensures kept { IfOk result (λ _. HasExternals «module».now) }
    ensures refused { IfErr result (λ fault. (fault ≡ faults.Memory) ⊎ HasTypeFault «module».now fault) }
{
    match first_bad_external(module) {
        Some(name) => Err(bad_external(alloc, name)),
        None => Ok(()),
    }
}

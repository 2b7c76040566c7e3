//! The steps towards a layout, each with the fault that it finds.
ghost use Rattle.std.specs.Prelude.{◌≡◌, ◌<◌, ◌^◌, ◌⊎◌, length, None, All, IfOk, IfErr};
ghost use Rattle.ds_graph.specs.Graph.{IsOrder, IsFirstOnCycle};
ghost use Rattle.ds_names.specs.Names.{AreDistinct};
ghost use Rattle.ds_shape.specs.Written.{struct_names};
ghost use Rattle.ds_shape.specs.Index.{lines_in, first_unplaced, holdings};
ghost use Rattle.ds_shape.specs.Capped.{IsShort};
ghost use Rattle.ds_shape.specs.Kept.{names_in, IsUnknownFault, IsCycleFault, IsLarge, IsLargeFault};
ghost use Rattle.ds_shape.specs.declared.fault.ShapeFault.TheVariants as faults;

use crate::extents::{CappedExtent, any_too_large};
use crate::fault::ShapeFault;
use crate::index::{first_unknown, held};
use crate::lines::WrittenLine;
use ds_ast::{Part, StructDef};
use ds_graph::{Ordered, order};
use ds_names::Names;
use std::alloc::Global;

/// Refuses the first struct type in these lines that has no line.
pub fn refuse_unknown(alloc: Global, names: &Names, lines: &[WrittenLine]) -> Result<(), ShapeFault>
    ensures ok { IfOk result (λ done. first_unplaced names.now (names_in (lines_in lines.now)) ≡ None) }
    ensures err { IfErr result
        (λ fault. (fault ≡ faults.Memory) ⊎ IsUnknownFault names.now (lines_in lines.now) fault) }
{
    match first_unknown(names, lines) {
        Some(name) => {
            let name = name.duplicate(alloc)?;
            Err(ShapeFault::Unknown { name })
        }
        None => Ok(()),
    }
}

/// The fault of the struct line at this place, which holds itself.
fn recursive(alloc: Global, structs: &[StructDef], place: u32) -> ShapeFault
    requires cycle { IsFirstOnCycle (holdings (struct_names structs.now) structs.now) place }
    requires distinct { AreDistinct (struct_names structs.now) }
    ensures { (result ≡ faults.Memory) ⊎ IsCycleFault structs.now result }
{
    let line = &structs[place as usize];
    match line.name.duplicate(alloc) {
        Ok(name) => ShapeFault::RecursiveType { name },
        Err(_) => ShapeFault::Memory,
    }
}

/// An order of the struct lines, each behind those that it holds, or the first that holds itself. There is no memory
/// for 2^32 lines.
pub fn ordered(alloc: Global, names: &Names, structs: &[StructDef]) -> Result<Vec<u32>, ShapeFault>
    requires named { names.now ≡ struct_names structs.now }
    requires distinct { AreDistinct (struct_names structs.now) }
    ensures few { IfOk result (λ order. length structs.now < 2 ^ 32) }
    ensures ok { IfOk result (λ order. IsOrder (holdings (struct_names structs.now) structs.now) order.items) }
    ensures err { IfErr result (λ fault. (fault ≡ faults.Memory) ⊎ IsCycleFault structs.now fault) }
{
    if names.len() > u32::MAX as usize {
        return Err(ShapeFault::Memory);
    }
    let graph = held(alloc, names, structs)?;
    let found = order(alloc, &graph)?;
    match found {
        Ordered::Order(order) => Ok(order),
        Ordered::Cycle(first) => Err(recursive(alloc, structs, first)),
    }
}

/// Refuses the first of these lines that writes a type of more than 2^31 bytes.
pub fn refuse_too_large(
    alloc: Global,
    names: &Names,
    extents: &[CappedExtent],
    lines: &[WrittenLine],
) -> Result<(), ShapeFault>
    requires { All IsShort extents.now }
    ensures ok { IfOk result (λ done. All (λ l. IsLarge names.now extents.now l → ⊥) (lines_in lines.now)) }
    ensures err { IfErr result
        (λ fault. (fault ≡ faults.Memory) ⊎ IsLargeFault names.now extents.now (lines_in lines.now) fault) }
{
    for line in lines {
        if any_too_large(names, extents, line.types.as_slice()) {
            let name = line.name.duplicate(alloc)?;
            return Err(ShapeFault::TooLarge {
                name,
                is_struct: line.is_struct,
            });
        }
    }
    Ok(())
}

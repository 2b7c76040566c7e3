//! The layout of a module's types.
ghost use Rattle.std.specs.Prelude.{◌≡◌, ◌⊎◌, ℕ, Err, IfOk, IfErr, option_copied};
ghost use Rattle.ds_ast.specs.Bounds as bounds;
ghost use Rattle.ds_ast.specs.declared.ty.Ty.{Struct};
ghost use Rattle.ds_shape.specs.Sizes.{Extent, HasExtent, HasOffset};
ghost use Rattle.ds_shape.specs.Accepted.{HasLayout};
ghost use Rattle.ds_shape.specs.Fault.{HasShapeFault};
ghost use Rattle.ds_shape.specs.Fits.{Fits, HasField};
ghost use Rattle.ds_shape.specs.declared.fault.ShapeFault.{ShapeFault};
ghost use Rattle.ds_shape.specs.declared.fault.ShapeFault.TheVariants as faults;

use crate::extents::{CappedExtent, extent_of, extents_in_order, offsets_of};
use crate::fault::ShapeFault;
use crate::index::index;
use crate::lines::lines_of;
use crate::steps::{ordered, refuse_too_large, refuse_unknown};
use ds_ast::{Module, Name, StructDef, Ty};
use ds_names::Names;
use std::alloc::Global;
use std::marker::Model;

/// The sizes and offsets of a module's types. Contracts see the list of its struct lines.
#[derive(Drop)]
pub struct Shapes<'a> {
    structs: &'a [StructDef],
    names: Names<'a>,
    extents: Vec<CappedExtent>,
    offsets: Vec<Vec<u64>>,
}

impl<'a> Model for Shapes<'a> {
    ghost use Rattle.std.specs.Prelude.{List, map};
    ghost use Rattle.std.specs.Coded.{coded_list};
    ghost use Rattle.ds_ast.specs.declared.module.StructDef.{StructDef};
    ghost use Rattle.ds_ast.specs.contracts.module.StructDef as row;
    ghost use Rattle.ds_shape.specs.Kept.{IsKept};

    ghost Value = { List StructDef };

    ghost coded = { coded_list row.the_row.coded };

    ghost view = { λ s. s.structs.now };

    ghost invariant = { λ s. IsKept s.structs.now s.names s.extents.items (map (λ row. row.items) s.offsets.items) };
}

/// The layout of a module: of its types, how many bytes each has, and where the fields of each struct begin.
///
/// A module has a layout or a first fault, which is told; `Memory` comes only where there is not enough of it, or
/// where there are 2^32 struct lines. The work for a text of n bytes is in the order of n log n, and the stack that it
/// takes is in the order of the arrays that nest in one type, at most 32 within a module's bounds.
pub fn layout<'a>(alloc: Global, whole: &'a Module) -> Result<Shapes<'a>, ShapeFault>
    ensures laid_out { IfOk result (λ shapes. HasLayout whole.now × (shapes ≡ whole.now.structs)) }
    ensures only { HasLayout whole.now → IfErr result (λ fault. fault ≡ faults.Memory) }
    ensures refused { IfErr result (λ fault. (fault ≡ faults.Memory) ⊎ HasShapeFault whole.now fault) }
    ensures first { (fault : ShapeFault) → HasShapeFault whole.now fault →
        (result ≡ Err fault) ⊎ (result ≡ Err faults.Memory) }
{
    lay_out(alloc, whole)
}

/// The layout or a fault, step by step.
fn lay_out<'a>(alloc: Global, whole: &'a Module) -> Result<Shapes<'a>, ShapeFault>
    ensures laid_out { IfOk result (λ shapes. HasLayout whole.now × (shapes ≡ whole.now.structs)) }
    ensures refused { IfErr result (λ fault. (fault ≡ faults.Memory) ⊎ HasShapeFault whole.now fault) }
{
    let structs = whole.structs.as_slice();
    let names = index(alloc, structs)?;
    let lines = lines_of(alloc, whole)?;
    let written = lines.as_slice();
    refuse_unknown(alloc, &names, written)?;
    let order = ordered(alloc, &names, structs)?;
    let places = order.as_slice();
    let extents = extents_in_order(alloc, &names, structs, places)?;
    let sizes = extents.as_slice();
    refuse_too_large(alloc, &names, sizes, written)?;
    let offsets = offsets_of(alloc, &names, sizes, structs)?;
    Ok(Shapes {
        structs,
        names,
        extents,
        offsets,
    })
}

impl<'a> Shapes<'a> {
    /// How many bytes a type has that is written in the module: at most 2^31.
    pub fn size_of(&self, ty: &Ty) -> u64
        requires { Fits self.now ty.now }
        ensures { (e : Extent) → HasExtent self.now ty.now e → result ≡ e.size }
    {
        extent_of(&self.names, self.extents.as_slice(), ty).size
    }

    /// How many bytes of a struct type stand before the field behind so many.
    pub fn offset_of(&self, name: &Name, field: u32) -> u64
        requires fits { Fits self.now (Struct name.now) }
        requires field { HasField self.now name.now field }
        ensures { (offset : ℕ) → HasOffset self.now name.now field offset → result ≡ offset }
    {
        match self.names.place(name) {
            Some(place) => self.offsets[place][field as usize],
            None => unreachable!(),
        }
    }

    /// The fields of the struct type of a name.
    pub fn fields_of(&self, name: &Name) -> Option<&'a [Ty]>
        ensures { option_copied result ≡ bounds.fields_of self.now name.now }
    {
        match self.names.place(name) {
            Some(place) => Some(self.structs[place].fields.as_slice()),
            None => None,
        }
    }
}

//! What is kept of the sizes of types.
ghost use Rattle.std.specs.Prelude.{◌≡◌, ◌≤◌, ◌^◌, ◌+◌, ◌*◌, map, All, IfOk};
ghost use Rattle.ds_shape.specs.Sizes.{scalar_size, rounded};
ghost use Rattle.ds_shape.specs.Capped.{capped, IsShort, capped_extent, start_at, behind, capped_fields, capped_offsets, extent_in, offsets_by, writes_large, any_large, AreRight};
ghost use Rattle.ds_shape.specs.Written.{struct_names};
ghost use Rattle.ds_names.specs.Names.{AreDistinct};
ghost use Rattle.ds_graph.specs.Graph.{IsOrder};
ghost use Rattle.ds_shape.specs.Index.{types_in, holdings};
ghost use Rattle.ds_shape.specs.Capped as sizes;

use ds_ast::{Name, Scalar, StructDef, Ty};
use ds_names::Names;
use std::alloc::{AllocError, Global};

/// The most bytes that a type may have.
const LARGEST: u64 = 2_147_483_648;

/// More bytes than a type may have.
const TOO_MANY: u64 = 2_147_483_649;

/// A size, where 2^31 + 1 stands for each that is larger, and an alignment of 1 to 8 bytes.
#[derive(Clone, Copy, Debug)]
pub struct CappedExtent {
    /// The size in bytes.
    pub size: u64,
    /// The alignment in bytes.
    pub align: u64,
}

/// The extent of an empty struct.
const EMPTY: CappedExtent = CappedExtent { size: 0, align: 1 };

/// The size of a register's type.
fn scalar_bytes(scalar: Scalar) -> u64
    ensures { result ≡ scalar_size scalar }
{
    match scalar {
        Scalar::I1 => 1,
        Scalar::I8 => 1,
        Scalar::I16 => 2,
        Scalar::I32 => 4,
        Scalar::I64 => 8,
        Scalar::Ptr => 8,
    }
}

/// The least multiple of the alignment that is not below.
fn round(at: u64, align: u64) -> u64
    requires at_most { at ≤ 2 ^ 31 + 1 }
    requires some_align { 1 ≤ align }
    requires align_most { align ≤ 8 }
    ensures { result ≡ capped (rounded at align) }
{
    ((at + align - 1) / align * align).min(TOO_MANY)
}

/// The size of so many elements.
fn repeat(count: u32, size: u64) -> u64
    ensures { result ≡ capped (count * size) }
{
    (count as u64).saturating_mul(size).min(TOO_MANY)
}

/// The extent of the struct type of a name; that of an empty one where it has no line.
fn extent_of_struct(names: &Names, extents: &[CappedExtent], name: &Name) -> CappedExtent
    requires { All IsShort extents.now }
    ensures short { IsShort result }
    ensures value { result ≡ extent_in names.now extents.now name.now }
{
    match names.place(name) {
        Some(place) => match extents.get(place) {
            Some(extent) => *extent,
            None => EMPTY,
        },
        None => EMPTY,
    }
}

/// The extent of a type, by those of the structs.
pub fn extent_of(names: &Names, extents: &[CappedExtent], ty: &Ty) -> CappedExtent
    requires { All IsShort extents.now }
    ensures short { IsShort result }
    ensures value { result ≡ capped_extent (extent_in names.now extents.now) ty.now }
{
    match ty {
        Ty::Void => EMPTY,
        Ty::One(scalar) => CappedExtent {
            size: scalar_bytes(*scalar),
            align: scalar_bytes(*scalar),
        },
        Ty::Array { count, of } => {
            let of = extent_of(names, extents, of.get());
            CappedExtent {
                size: repeat(*count, of.size),
                align: of.align,
            }
        }
        Ty::Struct(name) => extent_of_struct(names, extents, name),
    }
}

/// Where a field of this extent begins behind so many bytes.
fn start(at: u64, extent: CappedExtent) -> u64
    requires at_most { at ≤ 2 ^ 31 + 1 }
    requires short { IsShort extent }
    ensures { result ≡ start_at at extent }
{
    round(at, extent.align)
}

/// What stands behind a field of this extent.
fn end(at: u64, extent: CappedExtent) -> u64
    requires at_most { at ≤ 2 ^ 31 + 1 }
    requires short { IsShort extent }
    ensures { result ≡ behind at extent }
{
    (start(at, extent) + extent.size).min(TOO_MANY)
}

/// The extent of a struct with these fields.
pub fn extent_of_fields(names: &Names, extents: &[CappedExtent], fields: &[Ty]) -> CappedExtent
    requires { All IsShort extents.now }
    ensures short { IsShort result }
    ensures value { result ≡ capped_fields (capped_extent (extent_in names.now extents.now)) 0 1 fields.now }
{
    let mut at = 0;
    let mut align = 1;
    for ty in fields {
        let extent = extent_of(names, extents, ty);
        at = end(at, extent);
        align = align.max(extent.align);
    }
    CappedExtent {
        size: round(at, align),
        align,
    }
}

/// The extents of all struct lines. In the order each line stands behind those that it holds.
pub fn extents_in_order(
    alloc: Global,
    names: &Names,
    structs: &[StructDef],
    order: &[u32],
) -> Result<Vec<CappedExtent>, AllocError>
    requires named { names.now ≡ struct_names structs.now }
    requires distinct { AreDistinct (struct_names structs.now) }
    requires ordered { IsOrder (holdings (struct_names structs.now) structs.now) order.now }
    ensures short { IfOk result (λ extents. All IsShort extents.items) }
    ensures right { IfOk result (λ extents. AreRight structs.now extents.items) }
{
    let mut extents = vec![in alloc; EMPTY; structs.len()]?;
    for place in order {
        let at = *place as usize;
        let line = &structs[at];
        extents[at] = extent_of_fields(names, extents.as_slice(), line.fields.as_slice());
    }
    Ok(extents)
}

/// Where fields begin.
fn offsets_of_fields(
    alloc: Global,
    names: &Names,
    extents: &[CappedExtent],
    fields: &[Ty],
) -> Result<Vec<u64>, AllocError>
    requires { All IsShort extents.now }
    ensures { IfOk result
        (λ offsets. offsets.items ≡ capped_offsets (capped_extent (extent_in names.now extents.now)) 0 fields.now) }
{
    let mut offsets = Vec::new(alloc);
    let mut at = 0;
    for ty in fields {
        let extent = extent_of(names, extents, ty);
        offsets.push(start(at, extent))?;
        at = end(at, extent);
    }
    Ok(offsets)
}

/// Where the fields of each struct begin.
pub fn offsets_of(
    alloc: Global,
    names: &Names,
    extents: &[CappedExtent],
    structs: &[StructDef],
) -> Result<Vec<Vec<u64>>, AllocError>
    requires { All IsShort extents.now }
    ensures { IfOk result (λ rows. map (λ row. row.items) rows.items ≡ offsets_by names.now extents.now structs.now) }
{
    let mut rows = Vec::new(alloc);
    for line in structs {
        rows.push(offsets_of_fields(alloc, names, extents, line.fields.as_slice())?)?;
    }
    Ok(rows)
}

/// Whether the size is more than 2^31 bytes.
fn is_large(extent: CappedExtent) -> bool
    ensures { result ≡ sizes.is_large extent }
{
    extent.size > LARGEST
}

/// Whether the type, or one written inside it, has more than 2^31 bytes.
fn is_too_large(names: &Names, extents: &[CappedExtent], ty: &Ty) -> bool
    requires { All IsShort extents.now }
    ensures { result ≡ writes_large (extent_in names.now extents.now) ty.now }
{
    match ty {
        Ty::Void => false,
        Ty::One(_) => false,
        Ty::Array { count: _, of } => {
            is_large(extent_of(names, extents, ty)) || is_too_large(names, extents, of.get())
        }
        Ty::Struct(_) => is_large(extent_of(names, extents, ty)),
    }
}

/// Whether one of these types is too large.
pub fn any_too_large(names: &Names, extents: &[CappedExtent], types: &[&Ty]) -> bool
    requires { All IsShort extents.now }
    ensures { result ≡ any_large (extent_in names.now extents.now) (types_in types.now) }
{
    for ty in types {
        if is_too_large(names, extents, ty) {
            return true;
        }
    }
    false
}

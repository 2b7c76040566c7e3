//! The struct types of a module by their names, and which of them hold which.
ghost use Rattle.std.specs.Prelude.{◌≡◌, ◌<◌, ◌^◌, ◌⊎◌, length, flat_map, ◌++◌, option_copied, OnOk, IfSome, IfOk, IfErr};
ghost use Rattle.std.specs.Option.{option_to_list};
ghost use Rattle.ds_names.specs.Names.{AreDistinct};
ghost use Rattle.ds_shape.specs.Written as written;
ghost use Rattle.ds_shape.specs.Index.{IsTwiceFault, types_in, lines_in, first_unplaced, places_of, holdings};
ghost use Rattle.ds_shape.specs.declared.fault.ShapeFault.TheVariants as faults;

use crate::fault::ShapeFault;
use crate::lines::WrittenLine;
use ds_ast::{Name, Part, StructDef, Ty};
use ds_graph::Graph;
use ds_names::Names;
use std::alloc::{AllocError, Global};

/// The names of struct lines, or the first that has one before.
pub fn index<'a>(alloc: Global, structs: &'a [StructDef]) -> Result<Names<'a>, ShapeFault>
    ensures ok { IfOk result (λ names. (names ≡ written.struct_names structs.now) × AreDistinct names) }
    ensures err { IfErr result (λ fault. (fault ≡ faults.Memory) ⊎ IsTwiceFault structs.now fault) }
{
    let mut names = Names::new(alloc);
    for line in structs {
        let is_new = names.put(&line.name)?;
        if !is_new {
            let name = line.name.duplicate(alloc)?;
            return Err(ShapeFault::TwiceType { name });
        }
    }
    Ok(names)
}

/// The struct type inside all arrays, if there is one.
pub fn struct_in(ty: &Ty) -> Option<&Name>
    ensures { option_to_list (option_copied result) ≡ written.struct_in ty.now }
{
    match ty {
        Ty::Void => None,
        Ty::One(_) => None,
        Ty::Array { count: _, of } => struct_in(of.get()),
        Ty::Struct(name) => Some(name),
    }
}

/// The struct type inside the type, if it has no line.
fn unknown_in<'a>(names: &Names, ty: &'a Ty) -> Option<&'a Name>
    ensures { option_copied result ≡ first_unplaced names.now (written.struct_in ty.now) }
{
    match struct_in(ty) {
        Some(name) => match names.place(name) {
            Some(_) => None,
            None => Some(name),
        },
        None => None,
    }
}

/// The first struct type in these types that has no line.
fn unknown_in_types<'a>(names: &Names, types: &[&'a Ty]) -> Option<&'a Name>
    ensures { option_copied result ≡ first_unplaced names.now (flat_map written.struct_in (types_in types.now)) }
{
    for ty in types {
        if let Some(name) = unknown_in(names, ty) {
            return Some(name);
        }
    }
    None
}

/// The first struct type in these lines that has no line.
pub fn first_unknown<'a>(names: &Names, lines: &[WrittenLine<'a>]) -> Option<&'a Name>
    ensures { option_copied result ≡ first_unplaced names.now
        (flat_map (λ l. flat_map written.struct_in l.types) (lines_in lines.now)) }
{
    for line in lines {
        if let Some(name) = unknown_in_types(names, line.types.as_slice()) {
            return Some(name);
        }
    }
    None
}

/// The place of the struct type inside the type, if it has one.
#[tactic(auto, using(crate::proofs::Places::place_below))]
fn place_in(names: &Names, ty: &Ty) -> Option<usize>
    ensures below { IfSome result (λ place. place < length names.now) }
    ensures value { option_to_list result ≡ places_of names.now (written.struct_in ty.now) }
{
    match struct_in(ty) {
        Some(name) => names.place(name),
        None => None,
    }
}

/// Adds the place of the struct type inside the type, if it has one.
fn push_place(places: &mut Vec<u32>, names: &Names, ty: &Ty) -> Result<(), AllocError>
    requires { length names.now < 2 ^ 32 }
    ensures { OnOk result (places.new.items ≡ places.old.items ++ places_of names.now (written.struct_in ty.now)) }
{
    if let Some(place) = place_in(names, ty) {
        places.push(place as u32)?;
    }
    Ok(())
}

/// The places of the structs that these fields hold.
fn places_in(alloc: Global, names: &Names, fields: &[Ty]) -> Result<Vec<u32>, AllocError>
    requires { length names.now < 2 ^ 32 }
    ensures { IfOk result (λ places. places.items ≡ places_of names.now (flat_map written.struct_in fields.now)) }
{
    let mut places = Vec::new(alloc);
    for ty in fields {
        push_place(&mut places, names, ty)?;
    }
    Ok(places)
}

/// Which struct lines hold which, by their places.
pub fn held(alloc: Global, names: &Names, structs: &[StructDef]) -> Result<Graph, AllocError>
    requires { length names.now < 2 ^ 32 }
    ensures { IfOk result (λ graph. graph ≡ holdings names.now structs.now) }
{
    let mut graph = Graph::new(alloc);
    for line in structs {
        let places = places_in(alloc, names, line.fields.as_slice())?;
        graph.push(places)?;
    }
    Ok(graph)
}

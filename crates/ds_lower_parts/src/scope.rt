//! What lowering knows of a module.
ghost use Rattle.std.specs.Prelude.{◌≡◌, ◌≤◌, ◌/◌, ◌^◌, map, option_copied, IfOk, IsErr};
ghost use Rattle.std.specs.Option.{unwrap_or};
ghost use Rattle.ds_ast.specs.Bounds.{fields_of};
ghost use Rattle.ds_ast.specs.declared.ty.Ty.{Struct};
ghost use Rattle.ds_ast.specs.declared.module.Function.{Function as function};
ghost use Rattle.ds_ast.specs.declared.module.GlobalDef.{GlobalDef as global};
ghost use Rattle.ds_shape.specs.Accepted.{HasLayout};
ghost use Rattle.ds_shape.specs.Fits.{Fits, HasField};
ghost use Rattle.ds_shape.specs.Image.{address_of};
ghost use Rattle.ds_shape.specs.Site.{function_number};
ghost use Rattle.ds_shape.specs.Sizes.{layout_of, offset_of, rounded};
ghost use Rattle.ds_meaning.specs.Values.{global_address};
ghost use Rattle.ds_lower_parts.specs.Known.{addresses_from};

use crate::places::{FirstPlaces, behind};
use ds_ast::{Function, GlobalDef, Module, Name, Ty};
use ds_shape::{
    Shapes, extents_are_computed, offsets_are_computed, offsets_exist, written_types_fit,
};
use std::alloc::{AllocError, Global};
use std::marker::Model;

/// The first address of the globals.
const GLOBALS_START: u64 = 0x1000;

/// A module, the places of the names of its functions and globals, and the addresses of these. Contracts see the
/// module.
#[derive(Drop)]
pub struct Scope<'a, 's> {
    whole: &'a Module,
    shapes: &'a Shapes<'s>,
    functions: FirstPlaces<'a>,
    globals: FirstPlaces<'a>,
    addresses: Vec<u64>,
}

impl<'a, 's> Model for Scope<'a, 's> {
    ghost use Rattle.ds_ast.specs.declared.module.Module.{Module};
    ghost use Rattle.ds_ast.specs.contracts.module.Module as row;
    ghost use Rattle.ds_lower_parts.specs.Known.{InScope};

    ghost Value = { Module };

    ghost coded = { row.the_row.coded };

    ghost view = { λ s. s.whole.now };

    ghost invariant = { λ s. InScope s.whole.now s.shapes.now s.functions s.globals s.addresses.items };
}

/// How many bytes a type has.
pub fn size_in(shapes: &Shapes<'_>, ty: &Ty) -> u64
    requires { Fits shapes.now ty.now }
    ensures { result ≡ (layout_of shapes.now ty.now).size }
{
    extents_are_computed();
    shapes.size_of(ty)
}

/// How many words so many bytes take.
pub fn words_for(size: u64) -> u64
    ensures { result ≡ rounded size 8 / 8 }
{
    let rest = if size % 8 == 0 { 0 } else { 1 };
    size / 8 + rest
}

/// The address of the word of the globals that stands behind so many. An `Err` comes only where it has more than 64
/// bits.
fn address_at(at: u64) -> Result<u64, AllocError>
    ensures value { IfOk result (λ address. address ≡ global_address at) }
    ensures large { IsErr result → 2 ^ 64 ≤ global_address at }
{
    if at > 0x1fff_ffff_ffff_fdff {
        return Err(AllocError);
    }
    Ok(GLOBALS_START + 8 * at)
}

/// The addresses of the globals.
fn addresses_of(alloc: Global, whole: &Module, shapes: &Shapes<'_>) -> Result<Vec<u64>, AllocError>
    requires layout { HasLayout whole.now }
    requires same { shapes.now ≡ whole.now.structs }
    ensures { IfOk result
        (λ addresses. addresses.items ≡ addresses_from shapes.now 0 whole.now.globals) }
{
    written_types_fit();
    let globals = whole.globals.as_slice();
    let mut addresses = Vec::new(alloc);
    let mut at: u64 = 0;
    for n in 0..globals.len() {
        let address = address_at(at)?;
        addresses.push(address)?;
        at = behind(at, words_for(size_in(shapes, &globals[n].ty)))?;
    }
    Ok(addresses)
}

/// The names of functions.
fn function_names<'a>(
    alloc: Global,
    functions: &'a [Function],
) -> Result<FirstPlaces<'a>, AllocError>
    ensures { IfOk result (λ names. names ≡ map (λ (f : function). f.name) functions.now) }
{
    let mut names = Vec::new(alloc);
    for function in functions {
        names.push(&function.name)?;
    }
    FirstPlaces::new(alloc, names)
}

/// The names of globals.
fn global_names<'a>(alloc: Global, globals: &'a [GlobalDef]) -> Result<FirstPlaces<'a>, AllocError>
    ensures { IfOk result (λ names. names ≡ map (λ (g : global). g.name) globals.now) }
{
    let mut names = Vec::new(alloc);
    for global in globals {
        names.push(&global.name)?;
    }
    FirstPlaces::new(alloc, names)
}

impl<'a, 's> Scope<'a, 's> {
    /// What is known of a module with this layout.
    pub fn new(
        alloc: Global,
        whole: &'a Module,
        shapes: &'a Shapes<'s>,
    ) -> Result<Scope<'a, 's>, AllocError>
        requires layout { HasLayout whole.now }
        requires same { shapes.now ≡ whole.now.structs }
        ensures { IfOk result (λ scope. scope ≡ whole.now) }
    {
        let functions = function_names(alloc, whole.functions.as_slice())?;
        let globals = global_names(alloc, whole.globals.as_slice())?;
        let addresses = addresses_of(alloc, whole, shapes)?;
        Ok(Scope {
            whole,
            shapes,
            functions,
            globals,
            addresses,
        })
    }

    /// The module.
    pub fn whole(&self) -> &'a Module
        ensures module { result.now ≡ self.now }
        ensures layout { HasLayout self.now }
    {
        self.whole
    }

    /// The address of a global, and 0 where none has the name.
    pub fn address_of(&self, name: &Name) -> u64
        ensures { result ≡ address_of global_address self.now name.now }
    {
        match self.globals.place(name) {
            Some(number) => self.addresses[number as usize],
            None => 0,
        }
    }

    /// The number of the function of a name.
    pub fn function_number(&self, name: &Name) -> Option<u32>
        ensures { result ≡ function_number self.now name.now }
    {
        self.functions.place(name)
    }

    /// How many bytes a type has.
    pub fn size_of(&self, ty: &Ty) -> u64
        requires { Fits self.now.structs ty.now }
        ensures { result ≡ (layout_of self.now.structs ty.now).size }
    {
        size_in(self.shapes, ty)
    }

    /// How many bytes stand in a struct before a field.
    pub fn offset_of(&self, name: &Name, field: u32) -> u64
        requires fits { Fits self.now.structs (Struct name.now) }
        requires field { HasField self.now.structs name.now field }
        ensures { result ≡ unwrap_or (offset_of self.now.structs name.now field) 0 }
    {
        offsets_are_computed();
        offsets_exist();
        self.shapes.offset_of(name, field)
    }

    /// The fields of the struct type of a name.
    pub fn fields_of(&self, name: &Name) -> Option<&'s [Ty]>
        ensures value { option_copied result ≡ fields_of self.now.structs name.now }
        ensures layout { HasLayout self.now }
    {
        self.shapes.fields_of(name)
    }
}

//! The words with which globals begin.
ghost use Rattle.std.specs.Prelude.{◌≡◌, ◌+◌, ◌<◌, ◌++◌, [], length, slice_index_or, slice_index, flat_map, drop};
ghost use Rattle.std.specs.Prelude.{All, OnOk, IfOk, Some};
ghost use Rattle.std.specs.Int.{bytes_low_first, from_le_bytes, w64};
ghost use Rattle.std.specs.Option.{unwrap_or};
ghost use Rattle.ds_ast.specs.Bounds.{element_type, field_types, fields_of};
ghost use Rattle.ds_ast.specs.declared.module.GlobalDef.{GlobalDef as global};
ghost use Rattle.ds_ast.specs.declared.ty.Ty.{Struct};
ghost use Rattle.ds_shape.specs.Fits.{Fits};
ghost use Rattle.ds_shape.specs.Image as image;
ghost use Rattle.ds_shape.specs.Sizes.{layout_of};
ghost use Rattle.ds_meaning.specs.Values.{global_address};
ghost use Rattle.ds_lower_parts.specs.Bytes.{address_in, fields_bytes, elements_bytes};

use crate::places::{behind, small};
use crate::scope::{Scope, words_for};
use ds_ast::{GlobalDef, Init, List, Name, Ty, Value};
use ds_shape::{elements_fit, extents_are_computed, fields_fit};
use std::alloc::{AllocError, Global};

/// The number that a value in an initialiser is.
fn constant_of(scope: &Scope, value: &Value) -> u64
    ensures { result ≡ image.constant_of (address_in scope.now) value.now }
{
    match value {
        Value::Int(number) => *number,
        Value::Null => 0,
        Value::Undef => 0,
        Value::Local(_) => 0,
        Value::Global(name) => scope.address_of(name),
    }
}

/// Adds so many zeros.
fn push_zeros(bytes: &mut Vec<u8>, count: u64) -> Result<(), AllocError>
    ensures { OnOk result (bytes.new.items ≡ bytes.old.items ++ image.zeros count) }
{
    for i in 0..count {
        bytes.push(0)?;
    }
    Ok(())
}

/// Adds so many of the lowest bytes of a number.
fn push_low(bytes: &mut Vec<u8>, count: u64, number: u64) -> Result<(), AllocError>
    ensures { OnOk result (bytes.new.items ≡ bytes.old.items ++ bytes_low_first 0 count number) }
{
    let mut rest = number;
    for i in 0..count {
        bytes.push((rest % 256) as u8)?;
        rest = rest / 256;
    }
    Ok(())
}

/// Adds the bytes of a value of a type.
#[cycle(push_init)]
fn push_init<'s>(
    scope: &Scope<'_, 's>,
    bytes: &mut Vec<u8>,
    init: &Init,
    ty: &'s Ty,
) -> Result<(), AllocError>
    requires { Fits scope.now.structs ty.now }
    ensures { OnOk result (bytes.new.items
        ≡ bytes.old.items ++ image.bytes_of scope.now.structs (address_in scope.now) ty.now init.now) }
{
    match init {
        Init::Zero => push_zeros(bytes, scope.size_of(ty)),
        Init::Word(value) => push_low(bytes, scope.size_of(ty), constant_of(scope, value)),
        Init::Array(parts) => push_array(scope, bytes, parts.as_slice(), ty),
        Init::Fields(parts) => push_struct(scope, bytes, parts.as_slice(), ty),
    }
}

/// Adds the bytes of parts in square brackets.
#[cycle(push_init)]
fn push_array<'s>(
    scope: &Scope<'_, 's>,
    bytes: &mut Vec<u8>,
    parts: &[Init],
    ty: &'s Ty,
) -> Result<(), AllocError>
    requires { Fits scope.now.structs ty.now }
    ensures { OnOk result (bytes.new.items
        ≡ bytes.old.items ++ elements_bytes scope.now (element_type ty.now) parts.now) }
{
    elements_fit();
    match ty {
        Ty::Array { of, .. } => push_elements(scope, bytes, parts, of.get()),
        Ty::Void => Ok(()),
        Ty::One(_) => Ok(()),
        Ty::Struct(_) => Ok(()),
    }
}

/// Adds the bytes of elements of a type.
#[cycle(push_init)]
fn push_elements<'s>(
    scope: &Scope<'_, 's>,
    bytes: &mut Vec<u8>,
    parts: &[Init],
    of: &'s Ty,
) -> Result<(), AllocError>
    requires { Fits scope.now.structs of.now }
    ensures { OnOk result (bytes.new.items
        ≡ bytes.old.items ++ elements_bytes scope.now (Some of.now) parts.now) }
{
    for part in parts {
        push_init(scope, bytes, part, of)?;
    }
    Ok(())
}

/// Adds the bytes of parts in curly brackets.
#[cycle(push_init)]
fn push_struct<'s>(
    scope: &Scope<'_, 's>,
    bytes: &mut Vec<u8>,
    parts: &[Init],
    ty: &'s Ty,
) -> Result<(), AllocError>
    requires { Fits scope.now.structs ty.now }
    ensures { OnOk result (bytes.new.items ≡ bytes.old.items
        ++ fields_bytes scope.now (layout_of scope.now.structs ty.now).size 0
        (unwrap_or (field_types scope.now.structs ty.now) []) parts.now) }
{
    let size = scope.size_of(ty);
    match ty {
        Ty::Struct(name) => push_fields(scope, bytes, parts, name, size),
        Ty::Array { .. } => push_zeros(bytes, size),
        Ty::Void => push_zeros(bytes, size),
        Ty::One(_) => push_zeros(bytes, size),
    }
}

/// The type of a field.
fn field_at<'s>(scope: &Scope<'_, 's>, name: &Name, types: &'s [Ty], number: usize) -> &'s Ty
    requires inside { number < length types.now }
    requires fields { fields_of scope.now.structs name.now ≡ Some types.now }
    ensures fits { Fits scope.now.structs result.now }
    ensures item { result.now ≡ slice_index_or types.now number result.now }
{
    fields_fit();
    let _whole = scope.whole();
    &types[number]
}

/// Adds the bytes of the fields of a struct type, and zeros up to its end.
#[cycle(push_init)]
fn push_fields<'s>(
    scope: &Scope<'_, 's>,
    bytes: &mut Vec<u8>,
    parts: &[Init],
    name: &Name,
    size: u64,
) -> Result<(), AllocError>
    requires { Fits scope.now.structs (Struct name.now) }
    ensures { OnOk result (bytes.new.items ≡ bytes.old.items
        ++ fields_bytes scope.now size 0 (unwrap_or (fields_of scope.now.structs name.now) []) parts.now) }
{
    extents_are_computed();
    let Some(types) = scope.fields_of(name) else {
        return push_zeros(bytes, size);
    };
    let mut at: u64 = 0;
    for n in 0..parts.len() {
        if n >= types.len() {
            return push_zeros(bytes, size.saturating_sub(at));
        }
        let field = small(n)?;
        let offset = scope.offset_of(name, field);
        push_zeros(bytes, offset.saturating_sub(at))?;
        let ty = field_at(scope, name, types, n);
        push_init(scope, bytes, &parts[n], ty)?;
        at = behind(offset, scope.size_of(ty))?;
    }
    push_zeros(bytes, size.saturating_sub(at))
}

/// The byte at a place, and 0 behind the last.
fn byte_at(bytes: &[u8], at: usize) -> u8
    ensures { result ≡ slice_index bytes.now at }
{
    match bytes.get(at) {
        Some(byte) => *byte,
        None => 0,
    }
}

/// The word of the first eight bytes, with 0 for each that is missing.
fn first_word(bytes: &[u8]) -> u64
    ensures { result ≡ from_le_bytes w64 bytes.now }
{
    u64::from_le_bytes([
        byte_at(bytes, 0),
        byte_at(bytes, 1),
        byte_at(bytes, 2),
        byte_at(bytes, 3),
        byte_at(bytes, 4),
        byte_at(bytes, 5),
        byte_at(bytes, 6),
        byte_at(bytes, 7),
    ])
}

/// The bytes behind the first eight.
fn behind_word(bytes: &[u8]) -> &[u8]
    ensures { result.now ≡ drop 8 bytes.now }
{
    if bytes.len() <= 8 {
        return &[];
    }
    &bytes[8..]
}

/// Adds so many words of bytes.
fn push_words(words: &mut List<u64>, count: u64, bytes: &[u8]) -> Result<(), AllocError>
    ensures { OnOk result (words.new ≡ words.old ++ image.words_of count bytes.now) }
{
    let mut rest = bytes;
    for i in 0..count {
        words.push(first_word(rest))?;
        rest = behind_word(rest);
    }
    Ok(())
}

/// Adds the words with which a global begins.
fn push_global<'s>(
    alloc: Global,
    scope: &Scope<'_, 's>,
    words: &mut List<u64>,
    global: &'s GlobalDef,
) -> Result<(), AllocError>
    requires { Fits scope.now.structs global.now.ty }
    ensures { OnOk result (words.new ≡ words.old
        ++ image.words_of_global scope.now.structs (address_in scope.now) global.now) }
{
    let mut bytes = Vec::new(alloc);
    push_init(scope, &mut bytes, &global.init, &global.ty)?;
    push_words(
        words,
        words_for(scope.size_of(&global.ty)),
        bytes.as_slice(),
    )
}

/// The words with which the globals begin.
pub fn image_of<'s>(
    alloc: Global,
    scope: &Scope<'_, 's>,
    globals: &'s [GlobalDef],
) -> Result<List<u64>, AllocError>
    requires { All (λ (g : global). Fits scope.now.structs g.ty) globals.now }
    ensures { IfOk result (λ words. words
        ≡ flat_map (image.words_of_global scope.now.structs (address_in scope.now)) globals.now) }
{
    let mut words = List::new(alloc);
    for global in globals {
        push_global(alloc, scope, &mut words, global)?;
    }
    Ok(words)
}

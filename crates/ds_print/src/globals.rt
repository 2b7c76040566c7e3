//! Globals and what they begin with.
ghost use Rattle.std.specs.Prelude.{◌≡◌, ◌++◌, flat_map, map, OnOk, Option, option_copied};
ghost use Rattle.ds_lex.specs.Written.{written};
ghost use Rattle.ds_ast.specs.Bounds as bounds;
ghost use Rattle.ds_print.specs.Canonical as spec;
ghost use Rattle.ds_print.specs.Canonical.{element_front, global_pieces, init_pieces, listed_behind_space, or_none};
ghost use Rattle.ds_print.specs.Canonical.{or_void};
ghost use Rattle.ds_print.specs.Parts.{part_pieces, parts_in_order};

use crate::lines::Lines;
use crate::names::push_global;
use crate::text::{push, push_space};
use crate::types::push_type;
use crate::values::push_value;
use ds_ast::{GlobalDef, Init, Scalar, Ty};
use std::alloc::AllocError;

/// The type that literals behind a type are written as.
fn literal_type(ty: Option<&Ty>) -> Scalar
    ensures { result ≡ spec.literal_type (or_void (option_copied ty.entry)) }
{
    match ty {
        None => Scalar::Ptr,
        Some(ty) => match ty {
            Ty::One(scalar) => *scalar,
            _ => Scalar::Ptr,
        },
    }
}

/// The type of the elements of an array.
fn element_type<'a>(ty: Option<&'a Ty>) -> Option<&'a Ty>
    ensures { option_copied result ≡ bounds.element_type (or_void (option_copied ty.entry)) }
{
    match ty {
        None => None,
        Some(ty) => match ty {
            Ty::Array { of, .. } => Some(of.get()),
            _ => None,
        },
    }
}

/// The types of the fields of a struct. A type that is no struct of the module has none.
fn field_types<'a>(lines: &Lines<'a>, ty: Option<&'a Ty>) -> &'a [Ty]
    ensures { result.now ≡ or_none (bounds.field_types lines.now (or_void (option_copied ty.entry))) }
{
    match ty {
        None => &[],
        Some(ty) => match ty {
            Ty::Struct(name) => lines.fields_of(name).unwrap_or(&[]),
            _ => &[],
        },
    }
}

/// Adds the type in front of an element, if it has one.
fn push_front(text: &mut Vec<u8>, ty: Option<&Ty>) -> Result<(), AllocError>
    ensures { OnOk result (text.new.items ≡ text.old.items ++ written (element_front (option_copied ty.entry))) }
{
    match ty {
        None => Ok(()),
        Some(ty) => {
            push_type(text, ty)?;
            push(text, b" ")?;
            Ok(())
        }
    }
}

/// Adds what a global, or a part of one, begins with.
#[cycle(init)]
fn push_init<'a>(
    text: &mut Vec<u8>,
    init: &Init,
    lines: &Lines<'a>,
    ty: Option<&'a Ty>,
) -> Result<(), AllocError>
    ensures { OnOk result
        (text.new.items ≡ text.old.items
        ++ written (init_pieces lines.now (or_void (option_copied ty.entry)) init.now)) }
{
    match init {
        Init::Zero => push(text, b"zeroinitializer"),
        Init::Word(value) => push_value(text, literal_type(ty), value),
        Init::Array(parts) => {
            push(text, b"[")?;
            push_elements(text, parts.as_slice(), lines, element_type(ty))?;
            push(text, b" ]")?;
            Ok(())
        }
        Init::Fields(parts) => {
            push(text, b"{")?;
            push_fields(text, parts.as_slice(), lines, field_types(lines, ty))?;
            push(text, b" }")?;
            Ok(())
        }
    }
}

/// Adds a part of an initialiser behind its type, if it has one.
#[cycle(init)]
fn push_part<'a>(
    text: &mut Vec<u8>,
    part: &Init,
    lines: &Lines<'a>,
    ty: Option<&'a Ty>,
) -> Result<(), AllocError>
    ensures { OnOk result
        (text.new.items ≡ text.old.items ++ written (part_pieces lines.now (option_copied ty.entry) part.now)) }
{
    push_front(text, ty)?;
    push_init(text, part, lines, ty)?;
    Ok(())
}

/// Adds the elements of an array, with commas between them, behind a space.
#[cycle(init)]
fn push_elements<'a>(
    text: &mut Vec<u8>,
    parts: &[Init],
    lines: &Lines<'a>,
    ty: Option<&'a Ty>,
) -> Result<(), AllocError>
    ensures { OnOk result
        (text.new.items ≡ text.old.items
        ++ written (listed_behind_space (map (part_pieces lines.now (option_copied ty.entry)) parts.now))) }
{
    for (index, part) in parts.iter().enumerate() {
        push_space(text, index)?;
        push_part(text, part, lines, ty)?;
    }
    Ok(())
}

/// Adds the fields of a struct, with commas between them, behind a space.
#[cycle(init)]
fn push_fields<'a>(
    text: &mut Vec<u8>,
    parts: &[Init],
    lines: &Lines<'a>,
    types: &'a [Ty],
) -> Result<(), AllocError>
    ensures { OnOk result
        (text.new.items ≡ text.old.items
        ++ written (listed_behind_space (parts_in_order lines.now types.now parts.now))) }
{
    for (index, part) in parts.iter().enumerate() {
        push_space(text, index)?;
        push_part(text, part, lines, types.get(index))?;
    }
    Ok(())
}

/// Adds the line of a global.
fn push_global_line<'a>(
    text: &mut Vec<u8>,
    lines: &Lines<'a>,
    global: &'a GlobalDef,
) -> Result<(), AllocError>
    ensures { OnOk result (text.new.items ≡ text.old.items ++ written (global_pieces lines.now global.now)) }
{
    push_global(text, &global.name)?;
    push(text, b" = global ")?;
    push_type(text, &global.ty)?;
    push(text, b" ")?;
    push_init(text, &global.init, lines, Some(&global.ty))?;
    push(text, b"\n")?;
    Ok(())
}

/// Adds the lines of globals.
pub fn push_globals<'a>(
    text: &mut Vec<u8>,
    lines: &Lines<'a>,
    globals: &'a [GlobalDef],
) -> Result<(), AllocError>
    ensures { OnOk result
        (text.new.items ≡ text.old.items ++ written (flat_map (global_pieces lines.now) globals.now)) }
{
    for global in globals {
        push_global_line(text, lines, global)?;
    }
    Ok(())
}

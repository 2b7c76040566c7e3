//! The rule of `getelementptr`.
ghost use Rattle.std.specs.Prelude.{◌≡◌, ◌↔◌, IsTrue, Some, All, option_copied, slice_get};
ghost use Rattle.ds_ast.specs.Bounds.{fields_of};
ghost use Rattle.ds_ast.specs.declared.operand.Operand.{Operand as operand};
ghost use Rattle.ds_shape.specs.Types.{Addresses, IsNoVoid, IsWide, Walks};
ghost use Rattle.ds_check_types.specs.Walking.{literal, next_field, next_type};

use crate::scalars::{is_no_void, is_wide};
use ds_ast::{Name, Operand, Scalar, Ty, Value};
use ds_check_names::Entities;
use ds_shape::Shapes;

/// The number that an operand is, if it is a literal of `i32`.
fn literal(operand: &Operand) -> Option<u64>
    ensures { result ≡ literal operand.now.ty operand.now.value }
{
    if operand.ty == Scalar::I32 {
        return match operand.value {
            Value::Int(number) => Some(number),
            _ => None,
        };
    }
    None
}

/// The type of this number, from 0 on, if there is one.
fn nth(types: &[Ty], number: usize) -> Option<&Ty>
    ensures { option_copied result ≡ slice_get types.now number }
{
    types.get(number)
}

/// The field that an index names, if it is its number as a literal of `i32`.
fn next_field<'a>(fields: &'a [Ty], index: &Operand) -> Option<&'a Ty>
    ensures { option_copied result ≡ next_field (Some fields.now) index.now }
{
    match literal(index) {
        Some(number) => nth(fields, number as usize),
        None => None,
    }
}

/// The field of a struct that an index names, if it is its number as a literal of `i32`.
fn next_in<'a>(shapes: &Shapes<'a>, name: &Name, index: &Operand) -> Option<&'a Ty>
    ensures { option_copied result ≡ next_field (fields_of shapes.now name.now) index.now }
{
    match shapes.fields_of(name) {
        Some(fields) => next_field(fields, index),
        None => None,
    }
}

/// The type behind one index more, if there is one.
fn next_type<'a>(shapes: &Shapes<'a>, ty: &'a Ty, index: &Operand) -> Option<&'a Ty>
    ensures { option_copied result ≡ next_type shapes.now ty.now index.now }
{
    match ty {
        Ty::Void => None,
        Ty::One(_) => None,
        Ty::Array { of, .. } => Some(of.get()),
        Ty::Struct(name) => next_in(shapes, name, index),
    }
}

/// Whether the indices walk into a type.
fn walks<'a>(entities: &Entities, shapes: &Shapes<'a>, ty: &'a Ty, indices: &[Operand]) -> bool
    requires { shapes.now ≡ entities.now.structs }
    ensures { IsTrue result ↔ Walks entities.now ty.now indices.now }
{
    let mut at = ty;
    for index in indices {
        match next_type(shapes, at, index) {
            Some(next) => at = next,
            None => return false,
        }
    }
    true
}

/// Whether the indices of an address walk into a type: the first counts whole values of it.
fn addresses<'a>(entities: &Entities, shapes: &Shapes<'a>, ty: &'a Ty, indices: &[Operand]) -> bool
    requires { shapes.now ≡ entities.now.structs }
    ensures { IsTrue result ↔ Addresses entities.now ty.now indices.now }
{
    match indices.split_first() {
        None => true,
        Some((_, indices)) => walks(entities, shapes, ty, indices),
    }
}

/// Whether all indices of an address are integers of 8 bits or more.
fn are_wide(indices: &[Operand]) -> bool
    ensures { IsTrue result ↔ All (λ (o : operand). IsWide o.ty) indices.now }
{
    for index in indices {
        if !is_wide(index.ty) {
            return false;
        }
    }
    true
}

/// Whether a `getelementptr` keeps its rule, beside that of its operands.
pub fn is_address<'a>(
    entities: &Entities,
    shapes: &Shapes<'a>,
    ty: &'a Ty,
    indices: &[Operand],
) -> bool
    requires { shapes.now ≡ entities.now.structs }
    ensures { IsTrue result ↔ IsNoVoid ty.now × All (λ (o : operand). IsWide o.ty) indices.now
        × Addresses entities.now ty.now indices.now }
{
    if !is_no_void(ty) {
        return false;
    }
    if !are_wide(indices) {
        return false;
    }
    addresses(entities, shapes, ty, indices)
}

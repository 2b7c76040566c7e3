//! The types of initialisers.
ghost use Rattle.std.specs.Prelude.{◌≡◌, ◌↔◌, IsTrue, All, option_copied};
ghost use Rattle.ds_ast.specs.declared.init.Init.{Array, Fields};
ghost use Rattle.ds_ast.specs.declared.module.Module.{Module as whole};
ghost use Rattle.ds_shape.specs.Types.{IsConstant, IsConstantOf, IsInitial, struct_fields};
ghost use Rattle.std.specs.List.{AllZip};

use crate::scalars::is_integer;
use ds_ast::{Init, Scalar, Ty, Value};
use ds_check_names::Entities;
use ds_shape::Shapes;

/// Whether a value in a global has the type.
fn is_constant(entities: &Entities, ty: Scalar, value: &Value) -> bool
    ensures { IsTrue result ↔ IsConstant entities.now ty value.now }
{
    match value {
        Value::Int(_) => is_integer(ty),
        Value::Null => ty == Scalar::Ptr,
        Value::Undef => true,
        Value::Local(_) => false,
        Value::Global(name) => ty == Scalar::Ptr && entities.is_global(name),
    }
}

/// Whether a value behind a type has it.
fn is_constant_of(entities: &Entities, ty: &Ty, value: &Value) -> bool
    ensures { IsTrue result ↔ IsConstantOf entities.now ty.now value.now }
{
    match ty {
        Ty::One(scalar) => is_constant(entities, *scalar, value),
        _ => false,
    }
}

/// The types of a struct's fields.
fn struct_fields<'a>(shapes: &Shapes<'a>, ty: &Ty) -> Option<&'a [Ty]>
    ensures { (m : whole) → shapes.now ≡ m.structs → option_copied result ≡ struct_fields m ty.now }
{
    match ty {
        Ty::Void => None,
        Ty::One(_) => None,
        Ty::Array { .. } => None,
        Ty::Struct(name) => shapes.fields_of(name),
    }
}

/// Whether an initialiser has a type.
#[cycle(is_initial)]
pub fn is_initial(entities: &Entities, shapes: &Shapes, init: &Init, ty: &Ty) -> bool
    requires { shapes.now ≡ entities.now.structs }
    ensures { IsTrue result ↔ IsInitial entities.now ty.now init.now }
{
    match init {
        Init::Zero => true,
        Init::Word(value) => is_constant_of(entities, ty, value),
        Init::Array(parts) => is_array(entities, shapes, parts.as_slice(), ty),
        Init::Fields(parts) => is_struct(entities, shapes, parts.as_slice(), ty),
    }
}

/// Whether parts in square brackets have a type.
#[cycle(is_initial)]
fn is_array(entities: &Entities, shapes: &Shapes, parts: &[Init], ty: &Ty) -> bool
    requires { shapes.now ≡ entities.now.structs }
    ensures { IsTrue result ↔ IsInitial entities.now ty.now (Array parts.now) }
{
    match ty {
        Ty::Array { count, of } => {
            if parts.len() == *count as usize {
                return are_elements(entities, shapes, parts, of.get());
            }
            false
        }
        Ty::Void => false,
        Ty::One(_) => false,
        Ty::Struct(_) => false,
    }
}

/// Whether parts in curly brackets have a type.
#[cycle(is_initial)]
fn is_struct(entities: &Entities, shapes: &Shapes, parts: &[Init], ty: &Ty) -> bool
    requires { shapes.now ≡ entities.now.structs }
    ensures { IsTrue result ↔ IsInitial entities.now ty.now (Fields parts.now) }
{
    match struct_fields(shapes, ty) {
        Some(types) => are_fields(entities, shapes, parts, types),
        None => false,
    }
}

/// Whether all elements have the type.
#[cycle(is_initial)]
fn are_elements(entities: &Entities, shapes: &Shapes, parts: &[Init], ty: &Ty) -> bool
    requires { shapes.now ≡ entities.now.structs }
    ensures { IsTrue result ↔ All (IsInitial entities.now ty.now) parts.now }
{
    for part in parts {
        if !is_initial(entities, shapes, part, ty) {
            return false;
        }
    }
    true
}

/// Whether there are as many parts as types, each of the type at its place.
#[cycle(is_initial)]
fn are_fields(entities: &Entities, shapes: &Shapes, parts: &[Init], types: &[Ty]) -> bool
    requires { shapes.now ≡ entities.now.structs }
    ensures { IsTrue result ↔ AllZip (IsInitial entities.now) types.now parts.now }
{
    if types.len() != parts.len() {
        return false;
    }
    for i in 0..types.len() {
        if !is_initial(entities, shapes, &parts[i], &types[i]) {
            return false;
        }
    }
    true
}

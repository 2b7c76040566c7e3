//! What one index of an address adds.
ghost use Rattle.std.specs.Prelude.{◌≡◌, ◌≤◌, ◌^◌, option_copied, slice_get, IfOk, IfSome, IsErr};
ghost use Rattle.std.specs.Option.{option_map};
ghost use Rattle.ds_ast.specs.declared.ty.Ty.{Struct};
ghost use Rattle.ds_shape.specs.Address as address;
ghost use Rattle.ds_shape.specs.Fits.{Fits};
ghost use Rattle.ds_lower_parts.specs.Known.{step_as, NextFits};

use crate::places::small;
use crate::scope::Scope;
use ds_ast::{Name, Operand, Scalar, Ty, Value};
use ds_shape::{elements_fit, fields_fit};
use std::alloc::AllocError;

/// What one index adds, and the type to which it leads.
#[derive(Drop)]
pub struct Leap<'a> {
    /// The type.
    pub next: &'a Ty,
    /// The bytes that it adds whatever its value.
    pub fixed: u64,
    /// The bytes that it adds for each unit of its value.
    pub scale: u64,
}

/// The number that an operand is, if it is a literal of `i32`.
fn field_number(operand: &Operand) -> Option<u64>
    ensures { result ≡ address.field_number operand.now.ty operand.now.value }
{
    if operand.ty == Scalar::I32 {
        return match operand.value {
            Value::Int(number) => Some(number),
            _ => None,
        };
    }
    None
}

/// An index into a type of this size: any, for elements.
fn element_leap<'a>(scope: &Scope, of: &'a Ty) -> Leap<'a>
    requires { Fits scope.now.structs of.now }
    ensures step { step_as result ≡ address.element_step scope.now.structs of.now }
    ensures fits { Fits scope.now.structs result.next.now }
{
    Leap {
        next: of,
        fixed: 0,
        scale: scope.size_of(of),
    }
}

/// The type of this number, from 0 on, if there is one.
fn nth(types: &[Ty], number: usize) -> Option<&Ty>
    ensures { option_copied result ≡ slice_get types.now number }
{
    types.get(number)
}

/// An index of a struct: the number of a field. An `Err` comes only where that has more than 32 bits.
fn field_leap<'s>(
    scope: &Scope<'_, 's>,
    name: &Name,
    number: u64,
) -> Result<Option<Leap<'s>>, AllocError>
    requires { Fits scope.now.structs (Struct name.now) }
    ensures leap { IfOk result
        (λ leap. option_map step_as leap ≡ address.field_step scope.now.structs name.now number) }
    ensures fits { IfOk result (λ leap. NextFits scope.now.structs leap) }
    ensures large { IsErr result → 2 ^ 32 ≤ number }
{
    fields_fit();
    match scope.fields_of(name) {
        Some(fields) => match nth(fields, number as usize) {
            Some(next) => {
                let field = small(number as usize)?;
                Ok(Some(Leap {
                    next,
                    fixed: scope.offset_of(name, field),
                    scale: 0,
                }))
            }
            None => Ok(None),
        },
        None => Ok(None),
    }
}

/// What an index into a type adds, if it leads anywhere. An `Err` comes only where it is the number of a field that
/// has more than 32 bits.
pub fn leap_into<'a>(
    scope: &Scope<'_, 'a>,
    ty: &'a Ty,
    index: &Operand,
) -> Result<Option<Leap<'a>>, AllocError>
    requires { Fits scope.now.structs ty.now }
    ensures leap { IfOk result
        (λ leap. option_map step_as leap ≡ address.step_into scope.now.structs ty.now index.now) }
    ensures fits { IfOk result (λ leap. NextFits scope.now.structs leap) }
    ensures large { IsErr result → IfSome (address.field_number index.now.ty index.now.value) (λ n. 2 ^ 32 ≤ n) }
{
    elements_fit();
    match ty {
        Ty::Void => Ok(None),
        Ty::One(_) => Ok(None),
        Ty::Array { of, .. } => Ok(Some(element_leap(scope, of.get()))),
        Ty::Struct(name) => match field_number(index) {
            Some(number) => field_leap(scope, name, number),
            None => Ok(None),
        },
    }
}

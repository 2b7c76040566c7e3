//! The types of values.
ghost use Rattle.std.specs.Prelude.{◌≡◌, ◌↔◌, IsTrue, Some};
ghost use Rattle.ds_shape.specs.Types.{Defines, HasType, IsTypedOperand};

use crate::scalars::is_integer;
use ds_ast::{Name, Operand, Scalar, Value};
use ds_check_names::{Entities, Locals};
use ds_shape::LocalType;

/// Whether a name that is defined has this type.
fn is_of(defined: Option<Option<LocalType>>, ty: LocalType) -> bool
    ensures { IsTrue result ↔ (defined ≡ Some (Some ty)) }
{
    defined == Some(Some(ty))
}

/// Whether a local name is that of a value of the type.
pub fn is_local_of(locals: &Locals, ty: LocalType, name: &Name) -> bool
    ensures { IsTrue result ↔ Defines locals.now name.now (Some ty) }
{
    is_of(locals.defined(name), ty)
}

/// Whether a value has the type.
pub fn has_type(entities: &Entities, locals: &Locals, ty: Scalar, value: &Value) -> bool
    ensures { IsTrue result ↔ HasType entities.now locals.now ty value.now }
{
    match value {
        Value::Int(_) => is_integer(ty),
        Value::Null => ty == Scalar::Ptr,
        Value::Undef => true,
        Value::Local(name) => is_local_of(locals, LocalType::Plain(ty), name),
        Value::Global(name) => ty == Scalar::Ptr && entities.is_global(name),
    }
}

/// Whether an operand has the type that is written before it.
pub fn is_typed_operand(entities: &Entities, locals: &Locals, operand: &Operand) -> bool
    ensures { IsTrue result ↔ IsTypedOperand entities.now locals.now operand.now }
{
    has_type(entities, locals, operand.ty, &operand.value)
}

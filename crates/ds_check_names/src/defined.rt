//! Whether a value is defined.
ghost use Rattle.std.specs.Prelude.{◌≡◌, ◌↔◌, IsTrue};
ghost use Rattle.ds_shape.specs.Placed.{IsDefined};

use crate::entities::Entities;
use crate::locals::Locals;
use ds_ast::Value;

/// Whether a value is defined: a local one in the function, and a global one in the module. A value without a name is.
pub fn is_defined(entities: &Entities, locals: &Locals, value: &Value) -> bool
    ensures { IsTrue result ↔ IsDefined entities.now locals.now value.now }
{
    match value {
        Value::Int(_) => true,
        Value::Null => true,
        Value::Undef => true,
        Value::Local(name) => locals.defined(name).is_some(),
        Value::Global(name) => entities.is_global(name) || entities.is_function(name),
    }
}

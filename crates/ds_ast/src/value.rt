//! Operands.
ghost use Rattle.std.specs.Prelude.{◌≡◌, ◌↔◌, IsTrue};

use crate::name::Name;
use crate::part::{Part, equals};
use std::alloc::{AllocError, Global};

/// A value that an instruction uses, or that a global begins with.
#[derive(Debug, Default, Drop)]
pub enum Value {
    /// A number, below 2 to the width of its type: -1 of `i8` is 255, and `true` is 1.
    Int(u64),
    /// `null`, the address of nothing.
    #[default]
    Null,
    /// `undef`, any value of its type.
    Undef,
    /// A parameter or the result of an instruction.
    Local(Name),
    /// The address of a global, or a function.
    Global(Name),
}

impl Part for Value {
    fn is_same(&self, other: &Value) -> bool {
        match (self, other) {
            (Value::Int(a), Value::Int(b)) => a == b,
            (Value::Null, Value::Null) | (Value::Undef, Value::Undef) => true,
            (Value::Local(a), Value::Local(b)) => a.is_same(b),
            (Value::Global(a), Value::Global(b)) => a.is_same(b),
            _ => false,
        }
    }

    fn duplicate(&self, alloc: Global) -> Result<Value, AllocError> {
        match self {
            Value::Int(n) => Ok(Value::Int(*n)),
            Value::Null => Ok(Value::Null),
            Value::Undef => Ok(Value::Undef),
            Value::Local(name) => Ok(Value::Local(name.duplicate(alloc)?)),
            Value::Global(name) => Ok(Value::Global(name.duplicate(alloc)?)),
        }
    }
}

impl PartialEq for Value {
    ghost use Rattle.ds_ast.specs.contracts.value.Value as row;
    ghost use Rattle.ds_ast.specs.Equality.{is_equal, equal_laws};

    ghost eq = { is_equal row.the_row.coded };

    ghost laws = { equal_laws row.the_row.coded };

    fn eq(&self, other: &Value) -> bool
        ensures value { IsTrue result ↔ (self.now ≡ other.now) }
        ensures test { result ≡ is_equal row.the_row.coded self.now other.now }
    {
        equals(self, other)
    }
}

impl Eq for Value {
    ghost use Rattle.ds_ast.specs.contracts.value.Value as row;
    ghost use Rattle.ds_ast.specs.Equality.{equal_equivalence};

    ghost laws = { equal_equivalence row.the_row.coded };
}

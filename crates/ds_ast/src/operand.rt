//! The operands of instructions.
ghost use Rattle.std.specs.Prelude.{◌≡◌, ◌↔◌, IsTrue};

use crate::name::Name;
use crate::part::{Part, equals};
use crate::ty::Scalar;
use crate::value::Value;
use std::alloc::{AllocError, Global};

/// A value with its type, as `i32 5`.
#[derive(Debug, Default, Drop)]
pub struct Operand {
    /// The type.
    pub ty: Scalar,
    /// The value.
    pub value: Value,
}

/// A value of a `phi`, as `[ 5, %entry ]`.
#[derive(Debug, Default, Drop)]
pub struct Arm {
    /// The value.
    pub value: Value,
    /// The block that control comes from where it is this value.
    pub from: Name,
}

impl Part for Operand {
    fn is_same(&self, other: &Operand) -> bool {
        self.ty == other.ty && self.value.is_same(&other.value)
    }

    fn duplicate(&self, alloc: Global) -> Result<Operand, AllocError> {
        Ok(Operand {
            ty: self.ty,
            value: self.value.duplicate(alloc)?,
        })
    }
}

impl PartialEq for Operand {
    ghost use Rattle.ds_ast.specs.contracts.operand.Operand as row;
    ghost use Rattle.ds_ast.specs.Equality.{is_equal, equal_laws};

    ghost eq = { is_equal row.the_row.coded };

    ghost laws = { equal_laws row.the_row.coded };

    fn eq(&self, other: &Operand) -> bool
        ensures value { IsTrue result ↔ (self.now ≡ other.now) }
        ensures test { result ≡ is_equal row.the_row.coded self.now other.now }
    {
        equals(self, other)
    }
}

impl Eq for Operand {
    ghost use Rattle.ds_ast.specs.contracts.operand.Operand as row;
    ghost use Rattle.ds_ast.specs.Equality.{equal_equivalence};

    ghost laws = { equal_equivalence row.the_row.coded };
}

impl Part for Arm {
    fn is_same(&self, other: &Arm) -> bool {
        self.value.is_same(&other.value) && self.from.is_same(&other.from)
    }

    fn duplicate(&self, alloc: Global) -> Result<Arm, AllocError> {
        Ok(Arm {
            value: self.value.duplicate(alloc)?,
            from: self.from.duplicate(alloc)?,
        })
    }
}

impl PartialEq for Arm {
    ghost use Rattle.ds_ast.specs.contracts.operand.Arm as row;
    ghost use Rattle.ds_ast.specs.Equality.{is_equal, equal_laws};

    ghost eq = { is_equal row.the_row.coded };

    ghost laws = { equal_laws row.the_row.coded };

    fn eq(&self, other: &Arm) -> bool
        ensures value { IsTrue result ↔ (self.now ≡ other.now) }
        ensures test { result ≡ is_equal row.the_row.coded self.now other.now }
    {
        equals(self, other)
    }
}

impl Eq for Arm {
    ghost use Rattle.ds_ast.specs.contracts.operand.Arm as row;
    ghost use Rattle.ds_ast.specs.Equality.{equal_equivalence};

    ghost laws = { equal_equivalence row.the_row.coded };
}

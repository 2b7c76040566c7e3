//! Types.
ghost use Rattle.std.specs.Prelude.{◌≡◌, ◌↔◌, IsTrue, IfOk};

use crate::name::Name;
use crate::part::{Part, equals};
use sqlite_items::Boxed;
use std::alloc::{AllocError, Global};

/// A type that one register holds. The default fills the unused places of a short list.
#[derive(Clone, Copy, Debug, Default, PartialEq, Eq)]
pub enum Scalar {
    /// `i1`, a truth value.
    #[default]
    I1,
    /// `i8`.
    I8,
    /// `i16`.
    I16,
    /// `i32`.
    I32,
    /// `i64`.
    I64,
    /// `ptr`, an address.
    Ptr,
}

/// A type.
#[derive(Debug, Drop)]
pub enum Ty {
    /// `void`, the type of no value.
    Void,
    /// A type that one register holds.
    One(Scalar),
    /// An array, as `[4 x i8]`.
    Array {
        /// How many elements it has, at most 2^31.
        count: u32,
        /// The type of each.
        of: Boxed<Ty>,
    },
    /// The struct type of this name.
    Struct(Name),
}

impl Part for Ty {
    fn is_same(&self, other: &Ty) -> bool {
        is_same_ty(self, other)
    }

    fn duplicate(&self, alloc: Global) -> Result<Ty, AllocError> {
        duplicate_ty(alloc, self)
    }
}

fn is_same_ty(a: &Ty, b: &Ty) -> bool
    ensures { IsTrue result ↔ (a.now ≡ b.now) }
{
    match a {
        Ty::Void => matches!(b, Ty::Void),
        Ty::One(x) => match b {
            Ty::One(y) => x == y,
            _ => false,
        },
        Ty::Array { count, of } => match b {
            Ty::Array { count: m, of: part } => count == m && is_same_ty(of.get(), part.get()),
            _ => false,
        },
        Ty::Struct(x) => match b {
            Ty::Struct(y) => x.is_same(y),
            _ => false,
        },
    }
}

fn duplicate_ty(alloc: Global, ty: &Ty) -> Result<Ty, AllocError>
    ensures { IfOk result (λ copy. copy ≡ ty.now) }
{
    match ty {
        Ty::Void => Ok(Ty::Void),
        Ty::One(scalar) => Ok(Ty::One(*scalar)),
        Ty::Array { count, of } => {
            let of = duplicate_ty(alloc, of.get())?;
            Ok(Ty::Array {
                count: *count,
                of: Boxed::new(alloc, of)?,
            })
        }
        Ty::Struct(name) => Ok(Ty::Struct(name.duplicate(alloc)?)),
    }
}

impl PartialEq for Ty {
    ghost use Rattle.ds_ast.specs.contracts.ty.Ty as row;
    ghost use Rattle.ds_ast.specs.Equality.{is_equal, equal_laws};

    ghost eq = { is_equal row.the_row.coded };

    ghost laws = { equal_laws row.the_row.coded };

    fn eq(&self, other: &Ty) -> bool
        ensures value { IsTrue result ↔ (self.now ≡ other.now) }
        ensures test { result ≡ is_equal row.the_row.coded self.now other.now }
    {
        equals(self, other)
    }
}

impl Eq for Ty {
    ghost use Rattle.ds_ast.specs.contracts.ty.Ty as row;
    ghost use Rattle.ds_ast.specs.Equality.{equal_equivalence};

    ghost laws = { equal_equivalence row.the_row.coded };
}

//! Equality and copies of the parts of a tree.
ghost use Rattle.std.specs.Prelude.{◌≡◌, ◌↔◌, IsTrue, IfOk};
ghost use Rattle.ds_ast.specs.Equality.{is_equal};

use crate::list::List;
use crate::name::Name;
use crate::ops::Ops;
use std::alloc::{AllocError, Global};

/// A part of a tree, which is compared and copied by its value.
pub trait Part: Drop {
    /// Whether this is that value.
    fn is_same(&self, other: &Self) -> bool
        ensures { IsTrue result ↔ (self.now ≡ other.now) };

    /// This value once more. An `Err` comes only where there is not enough memory.
    fn duplicate(&self, alloc: Global) -> Result<Self, AllocError>
        ensures { IfOk result (λ copy. copy ≡ self.now) };
}

/// Whether two parts are one value: the answer of their `==`.
pub(crate) fn equals<X: Part>(a: &X, b: &X) -> bool
    ensures value { IsTrue result ↔ (a.now ≡ b.now) }
    ensures test { result ≡ is_equal X.row.coded a.now b.now }
{
    a.is_same(b)
}

/// Whether two lists have the same items in the same order.
pub(crate) fn are_same<X: Part>(a: &[X], b: &[X]) -> bool
    ensures { IsTrue result ↔ (a.now ≡ b.now) }
{
    if a.len() != b.len() {
        return false;
    }
    for i in 0..a.len() {
        if !a[i].is_same(&b[i]) {
            return false;
        }
    }
    true
}

/// These items once more.
pub(crate) fn duplicates<X: Part>(alloc: Global, items: &[X]) -> Result<Vec<X>, AllocError>
    ensures { IfOk result (λ copy. copy.items ≡ items.now) }
{
    let mut copy = Vec::new(alloc);
    for item in items {
        copy.push(item.duplicate(alloc)?)?;
    }
    Ok(copy)
}

impl<X: Part> Part for List<X> {
    fn is_same(&self, other: &List<X>) -> bool {
        are_same(self.as_slice(), other.as_slice())
    }

    fn duplicate(&self, alloc: Global) -> Result<List<X>, AllocError> {
        Ok(List::from_vec(duplicates(alloc, self.as_slice())?))
    }
}

impl<X: Part + Default> Part for Ops<X> {
    fn is_same(&self, other: &Ops<X>) -> bool {
        are_same(self.as_slice(), other.as_slice())
    }

    fn duplicate(&self, alloc: Global) -> Result<Ops<X>, AllocError> {
        Ok(Ops::from_vec(duplicates(alloc, self.as_slice())?))
    }
}

impl<X: Part> Part for Option<X> {
    fn is_same(&self, other: &Option<X>) -> bool {
        match self {
            None => other.is_none(),
            Some(a) => match other {
                None => false,
                Some(b) => a.is_same(b),
            },
        }
    }

    fn duplicate(&self, alloc: Global) -> Result<Option<X>, AllocError> {
        match self {
            None => Ok(None),
            Some(part) => Ok(Some(part.duplicate(alloc)?)),
        }
    }
}

impl Part for (u64, Name) {
    fn is_same(&self, other: &(u64, Name)) -> bool {
        self.0 == other.0 && self.1.is_same(&other.1)
    }

    fn duplicate(&self, alloc: Global) -> Result<(u64, Name), AllocError> {
        Ok((self.0, self.1.duplicate(alloc)?))
    }
}

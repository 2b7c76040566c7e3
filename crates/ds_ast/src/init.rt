//! What globals begin with.
ghost use Rattle.std.specs.Prelude.{◌≡◌, ◌↔◌, IsTrue, IfOk};

use crate::list::List;
use crate::part::{Part, equals};
use crate::value::Value;
use std::alloc::{AllocError, Global};

/// What a global, or a part of one, begins with.
#[derive(Debug, Drop)]
pub enum Init {
    /// `zeroinitializer`: zeros all over.
    Zero,
    /// One value.
    Word(Value),
    /// The elements of an array.
    Array(List<Init>),
    /// The fields of a struct.
    Fields(List<Init>),
}

impl Part for Init {
    fn is_same(&self, other: &Init) -> bool {
        is_same_init(self, other)
    }

    fn duplicate(&self, alloc: Global) -> Result<Init, AllocError> {
        duplicate_init(alloc, self)
    }
}

#[cycle(is_same)]
fn is_same_init(a: &Init, b: &Init) -> bool
    ensures { IsTrue result ↔ (a.now ≡ b.now) }
{
    match a {
        Init::Zero => matches!(b, Init::Zero),
        Init::Word(x) => match b {
            Init::Word(y) => x.is_same(y),
            _ => false,
        },
        Init::Array(x) => match b {
            Init::Array(y) => are_same_inits(x.as_slice(), y.as_slice()),
            _ => false,
        },
        Init::Fields(x) => match b {
            Init::Fields(y) => are_same_inits(x.as_slice(), y.as_slice()),
            _ => false,
        },
    }
}

#[cycle(is_same)]
fn are_same_inits(a: &[Init], b: &[Init]) -> bool
    ensures { IsTrue result ↔ (a.now ≡ b.now) }
{
    if a.len() != b.len() {
        return false;
    }
    for i in 0..a.len() {
        if !is_same_init(&a[i], &b[i]) {
            return false;
        }
    }
    true
}

#[cycle(duplicate)]
fn duplicate_init(alloc: Global, init: &Init) -> Result<Init, AllocError>
    ensures { IfOk result (λ copy. copy ≡ init.now) }
{
    match init {
        Init::Zero => Ok(Init::Zero),
        Init::Word(value) => Ok(Init::Word(value.duplicate(alloc)?)),
        Init::Array(items) => Ok(Init::Array(duplicate_inits(alloc, items.as_slice())?)),
        Init::Fields(items) => Ok(Init::Fields(duplicate_inits(alloc, items.as_slice())?)),
    }
}

#[cycle(duplicate)]
fn duplicate_inits(alloc: Global, inits: &[Init]) -> Result<List<Init>, AllocError>
    ensures { IfOk result (λ copy. copy ≡ inits.now) }
{
    let mut copy = List::new(alloc);
    for init in inits {
        copy.push(duplicate_init(alloc, init)?)?;
    }
    Ok(copy)
}

impl PartialEq for Init {
    ghost use Rattle.ds_ast.specs.contracts.init.Init as row;
    ghost use Rattle.ds_ast.specs.Equality.{is_equal, equal_laws};

    ghost eq = { is_equal row.the_row.coded };

    ghost laws = { equal_laws row.the_row.coded };

    fn eq(&self, other: &Init) -> bool
        ensures value { IsTrue result ↔ (self.now ≡ other.now) }
        ensures test { result ≡ is_equal row.the_row.coded self.now other.now }
    {
        equals(self, other)
    }
}

impl Eq for Init {
    ghost use Rattle.ds_ast.specs.contracts.init.Init as row;
    ghost use Rattle.ds_ast.specs.Equality.{equal_equivalence};

    ghost laws = { equal_equivalence row.the_row.coded };
}

//! Names and runs of bytes.
ghost use Rattle.std.specs.Prelude.{◌≡◌, ◌↔◌, IsTrue, [], ◌∷◌, ◌++◌, length, OnOk, OnErr};

use crate::part::{Part, equals};
use std::alloc::{AllocError, Global};
use std::marker::Model;

/// Bytes in a row. Contracts see the list of them.
#[derive(Debug, Drop)]
pub struct Bytes {
    bytes: Vec<u8>,
}

impl Model for Bytes {
    ghost use Rattle.std.specs.Prelude.{List, ℕ};

    ghost Value = { List ℕ };

    ghost view = { λ bytes. bytes.bytes.items };
}

impl Bytes {
    /// No bytes.
    pub fn new(alloc: Global) -> Self
        ensures { result ≡ [] }
    {
        Bytes {
            bytes: Vec::new(alloc),
        }
    }

    /// These bytes.
    pub fn from_vec(bytes: Vec<u8>) -> Self
        ensures { result ≡ bytes.items }
    {
        Bytes { bytes }
    }

    /// How many bytes there are.
    pub fn len(&self) -> usize
        ensures { result ≡ length self.now }
    {
        self.bytes.len()
    }

    /// The bytes in order.
    pub fn as_slice(&self) -> &[u8]
        ensures { result.now ≡ self.now }
    {
        self.bytes.as_slice()
    }

    /// Adds a byte at the end. Where there is no memory, the bytes stay.
    pub fn push(&mut self, byte: u8) -> Result<(), AllocError>
        ensures ok { OnOk result (self.new ≡ self.old ++ byte ∷ []) }
        ensures err { OnErr result (self.new ≡ self.old) }
    {
        self.bytes.push(byte)?;
        Ok(())
    }
}

/// The name of a local value, a block, a global, a function or a struct type, without the `%` or `@` in front of it.
#[derive(Debug, Drop)]
pub enum Name {
    /// A number, as in `%5`. A text of the same digits is another name.
    Number(u32),
    /// A text of any bytes, as in `%a` or `%"two words"`, with nothing escaped.
    Text(Bytes),
}

/// The name `0`, which fills the unused places of a short list.
impl Default for Name {
    ghost use Rattle.std.specs.Prelude.{◌≡◌};
    ghost use Rattle.ds_ast.specs.declared.name.Name.TheVariants.{Number};

    ghost is_default = { λ name. name ≡ Number 0 };

    fn default() -> Name {
        Name::Number(0)
    }
}

impl Part for Bytes {
    fn is_same(&self, other: &Bytes) -> bool {
        self.as_slice() == other.as_slice()
    }

    fn duplicate(&self, alloc: Global) -> Result<Bytes, AllocError> {
        Ok(Bytes::from_vec(Vec::from_slice(alloc, self.as_slice())?))
    }
}

impl PartialEq for Bytes {
    ghost use Rattle.ds_ast.specs.contracts.name.Bytes as row;
    ghost use Rattle.ds_ast.specs.Equality.{is_equal, equal_laws};

    ghost eq = { is_equal row.the_row.coded };

    ghost laws = { equal_laws row.the_row.coded };

    fn eq(&self, other: &Bytes) -> bool
        ensures value { IsTrue result ↔ (self.now ≡ other.now) }
        ensures test { result ≡ is_equal row.the_row.coded self.now other.now }
    {
        equals(self, other)
    }
}

impl Eq for Bytes {
    ghost use Rattle.ds_ast.specs.contracts.name.Bytes as row;
    ghost use Rattle.ds_ast.specs.Equality.{equal_equivalence};

    ghost laws = { equal_equivalence row.the_row.coded };
}

impl Part for Name {
    fn is_same(&self, other: &Name) -> bool {
        match self {
            Name::Number(a) => match other {
                Name::Number(b) => a == b,
                Name::Text(_) => false,
            },
            Name::Text(a) => match other {
                Name::Number(_) => false,
                Name::Text(b) => a.is_same(b),
            },
        }
    }

    fn duplicate(&self, alloc: Global) -> Result<Name, AllocError> {
        match self {
            Name::Number(n) => Ok(Name::Number(*n)),
            Name::Text(bytes) => Ok(Name::Text(bytes.duplicate(alloc)?)),
        }
    }
}

impl PartialEq for Name {
    ghost use Rattle.ds_ast.specs.contracts.name.Name as row;
    ghost use Rattle.ds_ast.specs.Equality.{is_equal, equal_laws};

    ghost eq = { is_equal row.the_row.coded };

    ghost laws = { equal_laws row.the_row.coded };

    fn eq(&self, other: &Name) -> bool
        ensures value { IsTrue result ↔ (self.now ≡ other.now) }
        ensures test { result ≡ is_equal row.the_row.coded self.now other.now }
    {
        equals(self, other)
    }
}

impl Eq for Name {
    ghost use Rattle.ds_ast.specs.contracts.name.Name as row;
    ghost use Rattle.ds_ast.specs.Equality.{equal_equivalence};

    ghost laws = { equal_equivalence row.the_row.coded };
}

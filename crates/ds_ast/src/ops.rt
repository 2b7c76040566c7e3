//! Lists that are mostly short.
ghost use Rattle.std.specs.Prelude.{◌≡◌, [], ◌∷◌, ◌++◌, length, OnOk, OnErr};

use smallvec::SmallVec;
use std::alloc::{AllocError, Global};
use std::marker::Model;

/// The operands of an instruction, in order. Contracts see the list of them. Up to four are kept in place, where the
/// unused places hold the default of their type.
#[derive(Debug, Drop)]
pub struct Ops<X> {
    items: SmallVec<X, 4>,
}

impl<X> Model for Ops<X> {
    ghost use Rattle.std.specs.Prelude.{List};

    ghost Value = { List X };

    ghost view = { λ ops. ops.items.items };
}

impl<X: Default + Drop> Ops<X> {
    /// No operands.
    pub fn new(alloc: Global) -> Self
        ensures { result ≡ [] }
    {
        Ops {
            items: SmallVec::new(alloc),
        }
    }

    /// These operands.
    pub fn from_vec(items: Vec<X>) -> Self
        ensures { result ≡ items.items }
    {
        Ops {
            items: SmallVec::from_vec(items),
        }
    }

    /// Adds an operand at the end. Where there is no memory, the list stays.
    pub fn push(&mut self, item: X) -> Result<(), AllocError>
        ensures ok { OnOk result (self.new ≡ self.old ++ item ∷ []) }
        ensures err { OnErr result (self.new ≡ self.old) }
    {
        self.items.push(item)?;
        Ok(())
    }
}

impl<X> Ops<X> {
    /// How many operands there are.
    pub fn len(&self) -> usize
        ensures { result ≡ length self.now }
    {
        self.items.len()
    }

    /// The operands in order.
    pub fn as_slice(&self) -> &[X]
        ensures { result.now ≡ self.now }
    {
        self.items.as_slice()
    }
}

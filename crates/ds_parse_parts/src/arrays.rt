//! The arrays that are open in a type.
ghost use Rattle.std.specs.Prelude.{◌≡◌, List, ℕ, [], ◌∷◌, length, IfOk, MatchOption};
ghost use Rattle.ds_grammar.specs.Types as types;

use ds_grammar::{Bound, Breach, Mark};
use std::alloc::{AllocError, Global};
use std::marker::Model;

/// The counts of the arrays that are open in a type, and where the type begins. Contracts see the place and the list
/// of the counts, the innermost first.
#[derive(Drop)]
pub struct Arrays {
    place: u32,
    counts: Vec<u32>,
}

impl Model for Arrays {
    ghost use Rattle.std.specs.Prelude.{List, ℕ, reverse};

    ghost Value = { ℕ × List ℕ };

    ghost view = { λ a. (a.place, reverse a.counts.items) };
}

impl Arrays {
    /// No array.
    pub fn new(alloc: Global) -> Arrays
        ensures { result ≡ (0, []) }
    {
        Arrays {
            place: 0,
            counts: Vec::new(alloc),
        }
    }

    /// How many arrays are open.
    pub fn len(&self) -> usize
        ensures { result ≡ length self.now.1 }
    {
        self.counts.len()
    }

    /// Whether none is open.
    pub fn is_empty(&self) -> bool
        ensures { result ≡ types.is_flat self.now.1 }
    {
        self.counts.is_empty()
    }

    /// Where the type begins, whose next array begins at `at`.
    pub fn place(&self, at: u32) -> u32
        ensures { result ≡ types.type_place self.now at }
    {
        if self.counts.is_empty() {
            at
        } else {
            self.place
        }
    }

    /// The mark of one more array in a type that begins here.
    pub fn depth_mark(&self, place: u32) -> Mark
        ensures { result ≡ types.depth_mark place self.now.1 }
    {
        Mark {
            breach: Breach {
                bound: Bound::Depth,
                at: place,
            },
            within: self.len() < 32,
        }
    }

    /// One more array inside, in a type that begins here.
    pub fn push(&mut self, place: u32, count: u32) -> Result<(), AllocError>
        ensures { IfOk result (λ u. self.new ≡ (place, count ∷ self.old.1)) }
    {
        self.place = place;
        self.counts.push(count)?;
        Ok(())
    }

    /// Closes the innermost array.
    pub fn pop(&mut self) -> Option<u32>
        ensures { MatchOption result ((self.old.1 ≡ []) × (self.new ≡ self.old))
            (λ n. (self.old.1 ≡ n ∷ self.new.1) × (self.new.0 ≡ self.old.0)) }
    {
        self.counts.pop()
    }
}

//! Names in a row.
ghost use Rattle.std.specs.Prelude.{◌≡◌, IsTrue, IsFalse, [], ◌∷◌, ◌++◌, length, None, OnErr, IfOk};
ghost use Rattle.ds_names.specs.Names.{Among, AreDistinct, place_of};

use crate::places::Places;
use ds_ast::Name;
use std::alloc::{AllocError, Global};
use std::marker::Model;

/// Names in a row, each once. Contracts see the list of them.
#[derive(Drop)]
pub struct Names<'a> {
    names: Vec<&'a Name>,
    places: Places<'a>,
}

impl<'a> Model for Names<'a> {
    ghost use Rattle.std.specs.Prelude.{◌≡◌, List};
    ghost use Rattle.std.specs.Coded.{coded_list};
    ghost use Rattle.ds_ast.specs.declared.name.Name.{Name};
    ghost use Rattle.ds_ast.specs.contracts.name.Name as row;
    ghost use Rattle.ds_names.specs.Names.{AreDistinct, place_of};
    ghost use Rattle.ds_names.specs.Places.{place_in, nows};

    ghost Value = { List Name };

    ghost coded = { coded_list row.the_row.coded };

    ghost view = { λ s. nows s.names.items };

    ghost invariant = { λ s. AreDistinct (nows s.names.items) ×
        ((q : Name) → place_in s.places.texts s.places.numbers q ≡ place_of (nows s.names.items) q) };
}

impl<'a> Names<'a> {
    /// No names.
    pub fn new(alloc: Global) -> Names<'a>
        ensures { result ≡ [] }
    {
        Names {
            names: Vec::new(alloc),
            places: Places::new(alloc),
        }
    }

    /// How many names there are.
    pub fn len(&self) -> usize
        ensures { result ≡ length self.now }
    {
        self.names.len()
    }

    /// The place of a name, from 0 on, if it stands there. This takes O(log n) comparisons.
    pub fn place(&self, name: &Name) -> Option<usize>
        ensures { result ≡ place_of self.now name.now }
    {
        self.places.get(name)
    }

    /// Puts a name behind the others, if it does not stand among them yet, and says whether it was put. An `Err` comes
    /// only where there is not enough memory; the names then stay.
    pub fn put(&mut self, name: &'a Name) -> Result<bool, AllocError>
        ensures new { IfOk result
            (λ is_new. IsTrue is_new → (place_of self.old name.now ≡ None) × (self.new ≡ self.old ++ name.now ∷ [])) }
        ensures there { IfOk result (λ is_new. IsFalse is_new → Among name.now self.old × (self.new ≡ self.old)) }
        ensures err { OnErr result (self.new ≡ self.old) }
        ensures each_once { AreDistinct self.new }
    {
        if self.places.get(name).is_some() {
            return Ok(false);
        }
        let at = self.names.len();
        self.names.push(name)?;
        match self.places.keep(name, at) {
            Ok(()) => Ok(true),
            Err(fault) => {
                let _name = self.names.pop();
                Err(fault)
            }
        }
    }
}

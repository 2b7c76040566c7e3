//! The places of names, by their texts and numbers.
ghost use Rattle.std.specs.Prelude.{◌≡◌, Some, None, OnOk, OnErr, if◌then◌else◌};
ghost use Rattle.ds_ast.specs.declared.name.Name.{Name};
ghost use Rattle.ds_ast.specs.Bounds.{is_name};
ghost use Rattle.ds_names.specs.Places.{place_in};

use ds_ast::Name;
use std::alloc::{AllocError, Global};
use std::collections::BTreeMap;

/// The place that is kept of each name.
#[derive(Drop)]
pub struct Places<'a> {
    texts: BTreeMap<&'a [u8], usize>,
    numbers: BTreeMap<u32, usize>,
}

impl<'a> Places<'a> {
    /// No name has a place.
    pub fn new(alloc: Global) -> Places<'a>
        ensures { (q : Name) → place_in result.texts result.numbers q ≡ None }
    {
        Places {
            texts: BTreeMap::new(alloc),
            numbers: BTreeMap::new(alloc),
        }
    }

    /// The place of a name, if one is kept.
    pub fn get(&self, name: &Name) -> Option<usize>
        ensures { result ≡ place_in self.now.texts self.now.numbers name.now }
    {
        match name {
            Name::Number(number) => self.numbers.get(number).copied(),
            Name::Text(text) => self.texts.get(text.as_slice()).copied(),
        }
    }

    /// Keeps the place of a name, instead of the one before. Without memory all stay.
    pub fn keep(&mut self, name: &'a Name, at: usize) -> Result<(), AllocError>
        ensures ok { OnOk result
            ((q : Name) → place_in self.new.texts self.new.numbers q ≡
            (if is_name name.now q then Some at else place_in self.old.texts self.old.numbers q)) }
        ensures err { OnErr result
            ((q : Name) → place_in self.new.texts self.new.numbers q ≡ place_in self.old.texts self.old.numbers q) }
    {
        match name {
            Name::Number(number) => {
                self.numbers.insert(*number, at)?;
            }
            Name::Text(text) => {
                self.texts.insert(text.as_slice(), at)?;
            }
        }
        Ok(())
    }
}

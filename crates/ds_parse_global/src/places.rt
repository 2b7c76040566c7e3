//! The places of struct types by their names.
ghost use Rattle.std.specs.Prelude.{◌≡◌, None, OnOk, OnErr};
ghost use Rattle.ds_ast.specs.declared.name.Name.{Name};
ghost use Rattle.ds_ast.specs.Bounds.{is_name};
ghost use Rattle.ds_parse_global.specs.Places.{place_in, first_place};

use ds_ast::Name;
use std::alloc::{AllocError, Global};
use std::collections::BTreeMap;

/// At which place each name stands for the first time.
#[derive(Drop)]
pub struct Places {
    alloc: Global,
    numbers: BTreeMap<u32, usize>,
    texts: BTreeMap<Vec<u8>, usize>,
}

impl Places {
    /// No name stands anywhere.
    pub fn new(alloc: Global) -> Places
        ensures { (q : Name) → place_in result q ≡ None }
    {
        Places {
            alloc,
            numbers: BTreeMap::new(alloc),
            texts: BTreeMap::new(alloc),
        }
    }

    /// The place of a name, if it stands somewhere.
    pub fn get(&self, name: &Name) -> Option<usize>
        ensures { result ≡ place_in self.now name.now }
    {
        match name {
            Name::Number(number) => self.numbers.get(number).copied(),
            Name::Text(bytes) => self.texts.get(bytes.as_slice()).copied(),
        }
    }

    /// A name stands at a place. Where it stood somewhere before, that place stays; and without memory all stay.
    pub fn note(&mut self, name: &Name, at: usize) -> Result<(), AllocError>
        ensures ok { OnOk result
            ((q : Name) → place_in self.new q ≡ first_place (place_in self.old q) (is_name name.now q) at) }
        ensures err { OnErr result ((q : Name) → place_in self.new q ≡ place_in self.old q) }
    {
        if self.get(name).is_some() {
            return Ok(());
        }
        match name {
            Name::Number(number) => {
                self.numbers.insert(*number, at)?;
            }
            Name::Text(bytes) => {
                let key = Vec::from_slice(self.alloc, bytes.as_slice())?;
                self.texts.insert(key, at)?;
            }
        }
        Ok(())
    }
}

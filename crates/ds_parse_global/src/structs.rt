//! The struct types of a module.
ghost use Rattle.std.specs.Prelude.{◌≡◌, [], ◌∷◌, ◌++◌, OnOk, OnErr, option_map};
ghost use Rattle.ds_ast.specs.Bounds as bounds;

use crate::places::Places;
use ds_ast::{List, Name, StructDef, Ty};
use std::alloc::{AllocError, Global};
use std::marker::Model;

/// The struct lines of a module so far. Contracts see the list of them, in the order of the text.
#[derive(Drop)]
pub struct Structs {
    lines: List<StructDef>,
    places: Places,
}

impl Model for Structs {
    ghost use Rattle.std.specs.Prelude.{◌≡◌, List};
    ghost use Rattle.std.specs.Coded.{coded_list};
    ghost use Rattle.ds_ast.specs.declared.module.StructDef.{StructDef};
    ghost use Rattle.ds_ast.specs.declared.name.Name.{Name};
    ghost use Rattle.ds_ast.specs.contracts.module.StructDef as row;
    ghost use Rattle.ds_parse_global.specs.Places.{place_in, place_of};

    ghost Value = { List StructDef };

    ghost coded = { coded_list row.the_row.coded };

    ghost view = { λ s. s.lines };

    ghost invariant = { λ s. (q : Name) → place_in s.places q ≡ place_of s.lines q };
}

impl Structs {
    /// No lines.
    pub fn new(alloc: Global) -> Structs
        ensures { result ≡ [] }
    {
        Structs {
            lines: List::new(alloc),
            places: Places::new(alloc),
        }
    }

    /// One line more, behind the others. Without memory the lines stay.
    pub fn push(&mut self, line: StructDef) -> Result<(), AllocError>
        ensures ok { OnOk result (self.new ≡ self.old ++ line ∷ []) }
        ensures err { OnErr result (self.new ≡ self.old) }
    {
        let at = self.lines.len();
        self.lines.push(line)?;
        match self.places.note(&self.lines.as_slice()[at].name, at) {
            Ok(()) => Ok(()),
            Err(fault) => {
                let _line = self.lines.pop();
                Err(fault)
            }
        }
    }

    /// The types of the fields on the first line of this name, if there is one.
    pub fn fields(&self, name: &Name) -> Option<&[Ty]>
        ensures { option_map (λ fields. fields.now) result ≡ bounds.fields_of self.now name.now }
    {
        match self.places.get(name) {
            Some(at) => match self.lines.get(at) {
                Some(line) => Some(line.fields.as_slice()),
                None => None,
            },
            None => None,
        }
    }

    /// All lines.
    pub fn into_list(self) -> List<StructDef>
        ensures { result ≡ self }
    {
        let Structs { lines, places: _ } = self;
        lines
    }
}

/// Whether two names are one.
pub fn is_name(a: &Name, b: &Name) -> bool
    ensures { result ≡ bounds.is_name a.now b.now }
{
    match a {
        Name::Number(m) => match b {
            Name::Number(n) => m == n,
            Name::Text(_) => false,
        },
        Name::Text(x) => match b {
            Name::Number(_) => false,
            Name::Text(y) => x.as_slice() == y.as_slice(),
        },
    }
}

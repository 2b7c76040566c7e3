//! The lines of struct types, by their names.
ghost use Rattle.std.specs.Prelude.{◌≡◌, ◌++◌, ◌∷◌, [], List, option_copied, slice_get, IfOk, OnOk};
ghost use Rattle.ds_ast.specs.declared.module.StructDef.{StructDef};
ghost use Rattle.ds_ast.specs.Bounds as bounds;
ghost use Rattle.ds_print.specs.Lines.{Kept};

use ds_ast::{Name, StructDef, Ty};
use ds_names::Names;
use std::alloc::{AllocError, Global};
use std::marker::Model;

/// The lines of struct types, by their names. Contracts see the list of them. Where a name has several lines, the
/// fields of the first are kept beside it.
#[derive(Drop)]
pub struct Lines<'a> {
    structs: &'a [StructDef],
    names: Names<'a>,
    fields: Vec<&'a [Ty]>,
}

impl<'a> Model for Lines<'a> {
    ghost use Rattle.std.specs.Prelude.{List};
    ghost use Rattle.ds_ast.specs.declared.module.StructDef.{StructDef};
    ghost use Rattle.ds_print.specs.Lines.{Kept};
    ghost use Rattle.ds_ast.specs.contracts.ty.Ty as row;
    ghost use Rattle.std.specs.Coded.{codes};

    ghost Value = { List StructDef };

    ghost coded = { Prim.hlevel (codes, row.the_row.coded) };

    ghost view = { λ lines. lines.structs.now };

    ghost invariant = { λ lines. Kept lines.names lines.fields.items lines.structs.now };
}

impl<'a> Lines<'a> {
    /// These lines. An `Err` comes only where there is not enough memory.
    pub fn new(alloc: Global, structs: &'a [StructDef]) -> Result<Lines<'a>, AllocError>
        ensures { IfOk result (λ lines. lines ≡ structs.now) }
    {
        let mut names = Names::new(alloc);
        let mut fields = Vec::new(alloc);
        for line in structs {
            keep(&mut names, &mut fields, line)?;
        }
        Ok(Lines {
            structs,
            names,
            fields,
        })
    }

    /// The fields of the first line of a name.
    pub fn fields_of(&self, name: &Name) -> Option<&'a [Ty]>
        ensures { option_copied result ≡ bounds.fields_of self.now name.now }
    {
        match self.names.place(name) {
            Some(place) => at(self.fields.as_slice(), place),
            None => None,
        }
    }
}

/// Keeps the fields of a line beside its name, if that is new.
fn keep<'a>(
    names: &mut Names<'a>,
    fields: &mut Vec<&'a [Ty]>,
    line: &'a StructDef,
) -> Result<(), AllocError>
    ensures { OnOk result ((lines : List StructDef) → Kept names.old fields.old.items lines
        → Kept names.new fields.new.items (lines ++ line.now ∷ [])) }
{
    if names.put(&line.name)? {
        fields.push(line.fields.as_slice())?;
    }
    Ok(())
}

/// The fields at this place, from 0 on, if it has some.
fn at<'a>(fields: &[&'a [Ty]], place: usize) -> Option<&'a [Ty]>
    ensures { result ≡ slice_get fields.now place }
{
    fields.get(place).copied()
}

//! The local names of a function.
ghost use Rattle.std.specs.Prelude.{◌≡◌, ◌↔◌, ℕ, Option, Some, IfOk, IfErr, slice_get};
ghost use Rattle.ds_names.specs.Names.{AreDistinct};
ghost use Rattle.ds_shape.specs.Accepted.{local_names};
ghost use Rattle.ds_shape.specs.Types.{Defines};
ghost use Rattle.ds_shape.specs.declared.local.LocalType as local;
ghost use Rattle.ds_check_names.specs.declared.meaning.Meaning as means;
ghost use Rattle.ds_check_names.specs.declared.meaning.Meaning.TheVariants as meanings;
ghost use Rattle.ds_check_names.specs.Entries.{value_type, block_number};
ghost use Rattle.ds_check_names.specs.Fault.{IsFaultOf};
ghost use Rattle.ds_check_names.specs.Scope.{Means};

use crate::fault::ScopeFault;
use crate::meaning::Meaning;
use crate::row::{Row, put_blocks, put_parameters};
use ds_ast::{Function, Name};
use ds_names::{Names, places_are_exact, places_are_unique};
use ds_shape::LocalType;
use std::alloc::Global;
use std::marker::Model;

/// The local names of a function: parameters, labels and results. Contracts see the function.
#[derive(Drop)]
pub struct Locals<'a> {
    function: &'a Function,
    row: Row<'a>,
}

impl<'a> Model for Locals<'a> {
    ghost use Rattle.std.specs.Prelude.{◌≡◌};
    ghost use Rattle.ds_ast.specs.declared.module.Function.{Function};
    ghost use Rattle.ds_ast.specs.contracts.module.Function as form;
    ghost use Rattle.ds_names.specs.Names.{AreDistinct};
    ghost use Rattle.ds_check_names.specs.Entries.{entries_of, names_of, meanings_of};

    ghost Value = { Function };

    ghost coded = { form.the_row.coded };

    ghost view = { λ locals. locals.function.now };

    ghost invariant = { λ locals. (locals.row.names ≡ names_of (entries_of locals.function.now))
        × (locals.row.meanings.items ≡ meanings_of (entries_of locals.function.now)) × AreDistinct locals.row.names };
}

impl<'a> Locals<'a> {
    /// The local names of a function. An `Err` comes where a name stands twice, or where there is not enough memory.
    pub fn new(alloc: Global, function: &'a Function) -> Result<Locals<'a>, ScopeFault<'a>>
        ensures named { IfOk result (λ locals. (locals ≡ function.now) × AreDistinct (local_names function.now)) }
        ensures refused { IfErr result (λ fault. IsFaultOf (local_names function.now) fault) }
    {
        let mut row = Row {
            names: Names::new(alloc),
            meanings: Vec::new(alloc),
        };
        put_parameters(&mut row, function.params.as_slice())?;
        put_blocks(&mut row, function.blocks.as_slice())?;
        Ok(Locals { function, row })
    }

    /// What a name means, if it means something. This takes O(log n) comparisons.
    pub fn meaning(&self, name: &Name) -> Option<Meaning>
        ensures { (w : means.Meaning) → (result ≡ Some w ↔ Means self.now name.now w) }
    {
        places_are_exact();
        places_are_unique();
        match self.row.names.place(name) {
            Some(place) => meaning_at(self.row.meanings.as_slice(), place),
            None => None,
        }
    }

    /// The type of a local value, if it is defined: none where no register or pair holds it.
    pub fn defined(&self, name: &Name) -> Option<Option<LocalType>>
        ensures { (t : Option local.LocalType) → (result ≡ Some t ↔ Defines self.now name.now t) }
    {
        match self.meaning(name) {
            Some(meaning) => value_type(meaning),
            None => None,
        }
    }

    /// The number of the block of this label, from 0 on, if there is one.
    pub fn block(&self, name: &Name) -> Option<usize>
        ensures { (b : ℕ) → (result ≡ Some b ↔ Means self.now name.now (meanings.Label b)) }
    {
        match self.meaning(name) {
            Some(meaning) => block_number(meaning),
            None => None,
        }
    }
}

/// The meaning of this number, from 0 on, if there is one.
fn meaning_at(meanings: &[Meaning], number: usize) -> Option<Meaning>
    ensures { result ≡ slice_get meanings.now number }
{
    meanings.get(number).copied()
}

/// The type of a value that has this meaning, if it is not a label.
fn value_type(meaning: Meaning) -> Option<Option<LocalType>>
    ensures { result ≡ value_type meaning }
{
    match meaning {
        Meaning::Parameter(ty) => Some(Some(ty)),
        Meaning::Label(_) => None,
        Meaning::Result { ty, .. } => Some(ty),
    }
}

/// The number of the block, where the meaning is a label.
fn block_number(meaning: Meaning) -> Option<usize>
    ensures { result ≡ block_number meaning }
{
    match meaning {
        Meaning::Parameter(_) => None,
        Meaning::Label(block) => Some(block),
        Meaning::Result { .. } => None,
    }
}

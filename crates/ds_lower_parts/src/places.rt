//! Names in a row, and the first place of each.
ghost use Rattle.std.specs.Prelude.{◌≡◌, ◌<◌, ◌≤◌, ◌+◌, ◌^◌, ◌∷◌, ◌++◌, [], List, length, slice_get};
ghost use Rattle.std.specs.Prelude.{IfOk, IfSome, IsErr, OnOk};
ghost use Rattle.ds_ast.specs.declared.name.Name.{Name};
ghost use Rattle.ds_names.specs.Names.{place_of};
ghost use Rattle.ds_names.specs.Places.{nows};
ghost use Rattle.ds_lower_parts.specs.Known.{Keeps};

use ds_ast::Name;
use ds_names::Names;
use std::alloc::{AllocError, Global};
use std::marker::Model;

/// Names in a row, some maybe more than once, and the first place of each. Contracts see the list of them.
#[derive(Drop)]
pub struct FirstPlaces<'a> {
    names: Vec<&'a Name>,
    kept: Names<'a>,
    firsts: Vec<u32>,
}

impl<'a> Model for FirstPlaces<'a> {
    ghost use Rattle.std.specs.Prelude.{List};
    ghost use Rattle.std.specs.Coded.{coded_list};
    ghost use Rattle.ds_ast.specs.declared.name.Name.{Name};
    ghost use Rattle.ds_ast.specs.contracts.name.Name as row;
    ghost use Rattle.ds_names.specs.Places.{nows};
    ghost use Rattle.ds_lower_parts.specs.Known.{Keeps};

    ghost Value = { List Name };

    ghost coded = { coded_list row.the_row.coded };

    ghost view = { λ s. nows s.names.items };

    ghost invariant = { λ s. Keeps s.kept s.firsts.items (nows s.names.items) };
}

/// A number as 32 bits. An `Err` comes only where it has more, as if there were no memory for so much.
pub fn small(n: usize) -> Result<u32, AllocError>
    ensures value { IfOk result (λ k. k ≡ n) }
    ensures large { IsErr result → 2 ^ 32 ≤ n }
{
    if n > 4_294_967_295 {
        return Err(AllocError);
    }
    Ok(n as u32)
}

/// The sum of two numbers. An `Err` comes only where it has more than 64 bits.
pub fn behind(at: u64, size: u64) -> Result<u64, AllocError>
    ensures value { IfOk result (λ sum. sum ≡ at + size) }
    ensures large { IsErr result → 2 ^ 64 ≤ at + size }
{
    if at > 0xffff_ffff_ffff_ffff - size {
        return Err(AllocError);
    }
    Ok(at + size)
}

/// Keeps the place of a name, if it has none yet.
fn keep<'a>(
    kept: &mut Names<'a>,
    firsts: &mut Vec<u32>,
    name: &'a Name,
    at: u32,
) -> Result<(), AllocError>
    ensures { OnOk result ((names : List Name) → at ≡ length names → Keeps kept.old firsts.old.items names
        → Keeps kept.new firsts.new.items (names ++ name.now ∷ [])) }
{
    if kept.put(name)? {
        firsts.push(at)?;
    }
    Ok(())
}

/// The number at this place, from 0 on, if there is one.
fn at(numbers: &[u32], place: usize) -> Option<u32>
    ensures { result ≡ slice_get numbers.now place }
{
    numbers.get(place).copied()
}

impl<'a> FirstPlaces<'a> {
    /// These names. An `Err` stands for want of memory, as which 2^32 names count too.
    pub fn new(alloc: Global, names: Vec<&'a Name>) -> Result<FirstPlaces<'a>, AllocError>
        ensures { IfOk result (λ s. s ≡ nows names.entry.items) }
    {
        let mut kept = Names::new(alloc);
        let mut firsts = Vec::new(alloc);
        let items = names.as_slice();
        for n in 0..items.len() {
            let at = small(n)?;
            keep(&mut kept, &mut firsts, items[n], at)?;
        }
        Ok(FirstPlaces {
            names,
            kept,
            firsts,
        })
    }

    /// How many names there are, the same ones counted as often as they stand there.
    pub fn len(&self) -> usize
        ensures { result ≡ length self.now }
    {
        self.names.len()
    }

    /// The first place of a name, from 0 on, if it stands there.
    pub fn place(&self, name: &Name) -> Option<u32>
        ensures value { result ≡ place_of self.now name.now }
        ensures within { IfSome result (λ at. at < length self.now) }
    {
        match self.kept.place(name) {
            Some(place) => at(self.firsts.as_slice(), place),
            None => None,
        }
    }
}

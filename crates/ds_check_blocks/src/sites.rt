//! Where the instructions of a function stand.
ghost use Rattle.std.specs.Prelude.{◌≡◌, ◌<◌, ◌++◌, length, slice_index_or, OnOk, IfOk};
ghost use Rattle.ds_shape.specs.Placed.{Placed as placed, placed_of};
ghost use Rattle.ds_check_blocks.specs.Sites.{sites_in, sites_from, IsSite};

use ds_ast::{Block, Function, Instr};
use std::alloc::{AllocError, Global};
use std::marker::Model;

/// Where an instruction stands: both numbers are from 0 on.
#[derive(Clone, Copy, Debug, PartialEq, Eq)]
pub struct Site {
    /// The number of its block.
    pub block: usize,
    /// Its number in the block.
    pub index: usize,
}

/// Adds the sites of so many instructions of a block.
fn push_block(sites: &mut Vec<Site>, block: usize, count: usize) -> Result<(), AllocError>
    ensures { OnOk result (sites.new.items ≡ sites.old.items ++ sites_in block 0 count) }
{
    for index in 0..count {
        sites.push(Site { block, index })?;
    }
    Ok(())
}

/// The sites of the instructions of these blocks.
fn sites_of(alloc: Global, blocks: &[Block]) -> Result<Vec<Site>, AllocError>
    ensures { IfOk result (λ sites. sites.items ≡ sites_from 0 blocks.now) }
{
    let mut sites = Vec::new(alloc);
    for i in 0..blocks.len() {
        push_block(&mut sites, i, blocks[i].code.len())?;
    }
    Ok(sites)
}

/// The instructions of a function in the order of the text. Contracts see the function.
#[derive(Drop)]
pub struct Sites<'a> {
    function: &'a Function,
    sites: Vec<Site>,
}

impl<'a> Model for Sites<'a> {
    ghost use Rattle.std.specs.Prelude.{◌≡◌};
    ghost use Rattle.ds_ast.specs.declared.module.Function.{Function};
    ghost use Rattle.ds_ast.specs.contracts.module.Function as row;
    ghost use Rattle.ds_check_blocks.specs.Sites.{sites_from};

    ghost Value = { Function };

    ghost coded = { row.the_row.coded };

    ghost view = { λ s. s.function.now };

    ghost invariant = { λ s. s.sites.items ≡ sites_from 0 s.function.now.blocks };
}

impl<'a> Sites<'a> {
    /// The instructions of this function. An `Err` comes only where there is not enough memory.
    pub fn new(alloc: Global, function: &'a Function) -> Result<Sites<'a>, AllocError>
        ensures { IfOk result (λ sites. sites ≡ function.now) }
    {
        let sites = sites_of(alloc, function.blocks.as_slice())?;
        Ok(Sites { function, sites })
    }

    /// How many there are.
    pub fn len(&self) -> usize
        ensures { result ≡ length (placed_of self.now) }
    {
        self.sites.len()
    }

    /// Where the instruction of this number stands.
    pub fn site(&self, number: usize) -> Site
        requires { number < length (placed_of self.now) }
        ensures { (p : placed) → IsSite self.now number result (slice_index_or (placed_of self.now) number p) }
    {
        self.sites[number]
    }
}

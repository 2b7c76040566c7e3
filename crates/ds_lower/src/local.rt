//! What lowering knows of a function.
ghost use Rattle.std.specs.Prelude.{◌≡◌, ◌<◌, ◌≤◌, ◌+◌, ◌^◌, ◌++◌, length, map, flat_map, slice_get};
ghost use Rattle.std.specs.Prelude.{IfOk, IfSome, IsErr, OnOk};
ghost use Rattle.ds_ast.specs.declared.module.Block.{Block as block};
ghost use Rattle.ds_ast.specs.declared.module.Param.{Param as param};
ghost use Rattle.ds_names.specs.Places.{nows};
ghost use Rattle.ds_shape.specs.Site.{instructions_before};
ghost use Rattle.ds_meaning.specs.Frames.{parts_of};
ghost use Rattle.ds_code.specs.Cells.{cells_for, cell_total, cell_of, result_cell, name_past};
ghost use Rattle.ds_code.specs.Lowering.{front, block_number};
ghost use Rattle.ds_lower.specs.Known.{offsets_from, names_past};

use crate::phis::{Front, Phi};
use ds_ast::{Block, Function, Instr, Name, Op, Param};
use ds_lower_parts::{FirstPlaces, small};
use std::alloc::{AllocError, Global};
use std::marker::Model;

/// A function with the places of its names and labels, the offsets of its blocks, and the phis at the front of each.
/// Contracts see the function.
#[derive(Drop)]
pub struct Local<'a> {
    function: &'a Function,
    firsts: FirstPlaces<'a>,
    seconds: FirstPlaces<'a>,
    labels: FirstPlaces<'a>,
    offsets: Vec<u32>,
    phis: Vec<Front<'a>>,
}

impl<'a> Model for Local<'a> {
    ghost use Rattle.ds_ast.specs.declared.module.Function.{Function};
    ghost use Rattle.ds_ast.specs.contracts.module.Function as row;
    ghost use Rattle.ds_lower.specs.Known.{InFunction};

    ghost Value = { Function };

    ghost coded = { row.the_row.coded };

    ghost view = { λ s. s.function.now };

    ghost invariant = { λ s. InFunction s.function.now s.firsts s.seconds s.labels s.offsets.items s.phis.items };
}

/// How many parts the result of an instruction has.
fn part_count(op: &Op) -> usize
    ensures { result ≡ length (parts_of op.now) }
{
    match op {
        Op::Bin { .. } => 1,
        Op::Icmp { .. } => 1,
        Op::Select { .. } => 1,
        Op::Cast { .. } => 1,
        Op::Alloca { .. } => 1,
        Op::Load { .. } => 1,
        Op::Store { .. } => 0,
        Op::Gep { .. } => 1,
        Op::Call { .. } => 1,
        Op::Phi { .. } => 1,
        Op::Rmw { .. } => 1,
        Op::Cmpxchg { .. } => 2,
        Op::Extract { .. } => 1,
        Op::Fence => 0,
        Op::Ret(_) => 0,
        Op::Br(_) => 0,
        Op::CondBr { .. } => 0,
        Op::Switch { .. } => 0,
        Op::Unreachable => 0,
    }
}

/// Adds the name of an instruction's result, where that has more parts than so many.
fn push_name<'a>(names: &mut Vec<&'a Name>, past: usize, instr: &'a Instr) -> Result<(), AllocError>
    ensures { OnOk result (nows names.new.items ≡ nows names.old.items ++ name_past past instr.now) }
{
    if part_count(&instr.op) <= past {
        return Ok(());
    }
    if let Some(name) = &instr.result {
        names.push(name)?;
    }
    Ok(())
}

/// Adds those of the instructions of a block.
fn push_names<'a>(
    names: &mut Vec<&'a Name>,
    past: usize,
    code: &'a [Instr],
) -> Result<(), AllocError>
    ensures { OnOk result (nows names.new.items ≡ nows names.old.items ++ flat_map (name_past past) code.now) }
{
    for instr in code {
        push_name(names, past, instr)?;
    }
    Ok(())
}

/// Adds those of the instructions of blocks.
fn push_all<'a>(
    names: &mut Vec<&'a Name>,
    past: usize,
    blocks: &'a [Block],
) -> Result<(), AllocError>
    ensures { OnOk result (nows names.new.items ≡ nows names.old.items ++ names_past past blocks.now) }
{
    for block in blocks {
        push_names(names, past, block.code.as_slice())?;
    }
    Ok(())
}

/// The names of parameters.
fn parameters_of<'a>(alloc: Global, params: &'a [Param]) -> Result<Vec<&'a Name>, AllocError>
    ensures { IfOk result (λ names. nows names.items ≡ map (λ (p : param). p.name) params.now) }
{
    let mut names = Vec::new(alloc);
    for param in params {
        names.push(&param.name)?;
    }
    Ok(names)
}

/// The names whose first parts have cells.
fn firsts_of<'a>(alloc: Global, function: &'a Function) -> Result<FirstPlaces<'a>, AllocError>
    ensures { IfOk result (λ names. names ≡ (cells_for function.now).firsts) }
{
    let mut names = parameters_of(alloc, function.params.as_slice())?;
    push_all(&mut names, 0, function.blocks.as_slice())?;
    FirstPlaces::new(alloc, names)
}

/// The names whose second parts have cells.
fn seconds_of<'a>(alloc: Global, function: &'a Function) -> Result<FirstPlaces<'a>, AllocError>
    ensures { IfOk result (λ names. names ≡ (cells_for function.now).seconds) }
{
    let mut names = Vec::new(alloc);
    push_all(&mut names, 1, function.blocks.as_slice())?;
    FirstPlaces::new(alloc, names)
}

/// The labels of blocks.
fn labels_of<'a>(alloc: Global, blocks: &'a [Block]) -> Result<FirstPlaces<'a>, AllocError>
    ensures { IfOk result (λ names. names ≡ map (λ (b : block). b.name) blocks.now) }
{
    let mut names = Vec::new(alloc);
    for block in blocks {
        names.push(&block.name)?;
    }
    FirstPlaces::new(alloc, names)
}

/// The sum of two numbers. An `Err` comes only where it has more than 32 bits.
fn behind(at: u32, count: usize) -> Result<u32, AllocError>
    ensures value { IfOk result (λ sum. sum ≡ at + count) }
    ensures large { IsErr result → 2 ^ 32 ≤ at + count }
{
    if count > 4_294_967_295 - at as usize {
        return Err(AllocError);
    }
    Ok(at + count as u32)
}

/// How many instructions stand before each block.
fn offsets_of(alloc: Global, blocks: &[Block]) -> Result<Vec<u32>, AllocError>
    ensures { IfOk result (λ offsets. offsets.items ≡ offsets_from 0 blocks.now) }
{
    let mut offsets = Vec::new(alloc);
    let mut at: u32 = 0;
    for n in 0..blocks.len() {
        offsets.push(at)?;
        at = behind(at, blocks[n].code.len())?;
    }
    Ok(offsets)
}

/// Adds the phis at the front of each block.
fn push_phis<'a>(
    alloc: Global,
    phis: &mut Vec<Front<'a>>,
    blocks: &'a [Block],
) -> Result<(), AllocError>
    ensures { OnOk result (phis.new.items ≡ phis.old.items ++ map (λ (b : block). front b.code) blocks.now) }
{
    for block in blocks {
        let row = Front::new(alloc, block.code.as_slice())?;
        phis.push(row)?;
    }
    Ok(())
}

/// The phis at the front of each block.
fn phis_of<'a>(alloc: Global, blocks: &'a [Block]) -> Result<Vec<Front<'a>>, AllocError>
    ensures { IfOk result (λ phis. phis.items ≡ map (λ (b : block). front b.code) blocks.now) }
{
    let mut phis = Vec::new(alloc);
    push_phis(alloc, &mut phis, blocks)?;
    Ok(phis)
}

impl<'a> Local<'a> {
    /// What is known of a function.
    pub fn new(alloc: Global, function: &'a Function) -> Result<Local<'a>, AllocError>
        ensures { IfOk result (λ local. local ≡ function.now) }
    {
        let firsts = firsts_of(alloc, function)?;
        let seconds = seconds_of(alloc, function)?;
        let count = small(firsts.len())?;
        let _total = behind(count, seconds.len())?;
        let blocks = function.blocks.as_slice();
        Ok(Local {
            function,
            firsts,
            seconds,
            labels: labels_of(alloc, blocks)?,
            offsets: offsets_of(alloc, blocks)?,
            phis: phis_of(alloc, blocks)?,
        })
    }

    /// The function.
    pub fn function(&self) -> &'a Function
        ensures { result.now ≡ self.now }
    {
        self.function
    }

    /// How many cells a frame has.
    pub fn cells(&self) -> u32
        ensures { result ≡ cell_total (cells_for self.now) }
    {
        self.firsts.len() as u32 + self.seconds.len() as u32
    }

    /// The cell of a part of a name.
    pub fn cell_of(&self, name: &Name, part: u32) -> u32
        ensures { result ≡ cell_of (cells_for self.now) name.now part }
    {
        if part == 0 {
            self.firsts.place(name).unwrap_or(0)
        } else {
            self.firsts.len() as u32 + self.seconds.place(name).unwrap_or(0)
        }
    }

    /// The cell of a part of a result, where it has a name.
    pub fn result_cell(&self, name: &Option<Name>, part: u32) -> Option<u32>
        ensures { result ≡ result_cell (cells_for self.now) name.now part }
    {
        match name {
            Some(name) => Some(self.cell_of(name, part)),
            None => None,
        }
    }

    /// The number of the first block of a label.
    pub fn block_number(&self, label: &Name) -> Option<u32>
        ensures { result ≡ block_number self.now label.now }
    {
        self.labels.place(label)
    }

    /// How many instructions stand before a block.
    pub fn offset(&self, number: u32) -> u32
        requires { number < length self.now.blocks }
        ensures { result ≡ instructions_before self.now number }
    {
        self.offsets[number as usize]
    }

    /// The phis at the front of a block.
    pub fn phis(&self, number: u32) -> &[Phi<'a>]
        requires { number < length self.now.blocks }
        ensures { IfSome (slice_get self.now.blocks number) (λ b. result.now ≡ front b.code) }
    {
        self.phis[number as usize].as_slice()
    }
}

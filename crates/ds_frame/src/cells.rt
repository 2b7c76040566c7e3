//! Cells of frames, and the values of types in them. A cell that is not there holds 0, and takes nothing.

ghost use Rattle.std.specs.Prelude.{◌≡◌, ◌+◌, ◌^◌, ◌<◌, ◌≤◌, length, take, IfOk};
ghost use Rattle.ds_ast.specs.Bounds.{width};
ghost use Rattle.ds_meaning.specs.Values.{cut};
ghost use Rattle.ds_code.specs.Machine.{read, written, all_written};
ghost use Rattle.ds_code.specs.CodeProgram.{zeros};
ghost use Rattle.ds_frame.specs.Steps.{held};

use ds_ast::Scalar;
use ds_code::{Copying, Source};
use std::alloc::{AllocError, Global};

/// How many bits a value of the type has.
pub(crate) fn bits_of(ty: Scalar) -> u32
    ensures value { result ≡ width ty }
    ensures least { 1 ≤ result }
    ensures most { result ≤ 64 }
{
    match ty {
        Scalar::I1 => 1,
        Scalar::I8 => 8,
        Scalar::I16 => 16,
        Scalar::I32 => 32,
        Scalar::I64 => 64,
        Scalar::Ptr => 64,
    }
}

/// The lowest bits of a number, as many as a value of the type has.
pub(crate) fn cut(ty: Scalar, number: u64) -> u64
    ensures value { result ≡ cut ty number }
    ensures below { result < 2 ^ width ty }
{
    match ty {
        Scalar::I1 => number % 2,
        Scalar::I8 => number % 256,
        Scalar::I16 => number % 65_536,
        Scalar::I32 => number % 4_294_967_296,
        Scalar::I64 => number,
        Scalar::Ptr => number,
    }
}

/// What stands at a source for the frame that begins at a cell.
fn read(base: u32, cells: &[u64], source: Source) -> u64
    ensures { result ≡ read base cells.now source }
{
    match source {
        Source::Cell(cell) => cells
            .get(base as usize + cell as usize)
            .copied()
            .unwrap_or(0),
        Source::Constant(number) => number,
    }
}

/// The value of a type that stands at a source for the frame that begins at a cell.
pub(crate) fn held(base: u32, cells: &[u64], ty: Scalar, source: Source) -> u64
    ensures value { result ≡ cut ty (read base cells.now source) }
    ensures below { result < 2 ^ width ty }
{
    cut(ty, read(base, cells, source))
}

/// A cell of the frame that begins at a cell takes a value, if there is one.
pub(crate) fn write(base: u32, to: Option<u32>, value: u64, cells: &mut [u64])
    ensures { cells.new ≡ written base to value cells.old }
{
    if let Some(cell) = to {
        let at = base as usize + cell as usize;
        if at < cells.len() {
            cells[at] = value;
        }
    }
}

/// The row takes the values that are copied from the frame that begins at a cell, from its front on.
pub(crate) fn read_all(base: u32, cells: &[u64], copies: &[Copying], row: &mut [u64])
    requires { length copies.now ≤ length row.old }
    ensures { take (length copies.now) row.new ≡ held base cells.now copies.now }
{
    for n in 0..copies.len() {
        let value = copies[n].value;
        row[n] = held(base, cells, value.ty, value.from);
    }
}

/// The cells of copies in the frame that begins at a cell take the values, one after another.
pub(crate) fn write_all(base: u32, copies: &[Copying], values: &[u64], cells: &mut [u64])
    requires { length copies.now ≤ length values.now }
    ensures { cells.new ≡ all_written base copies.now (take (length copies.now) values.now) cells.old }
{
    for n in 0..copies.len() {
        write(base, Some(copies[n].to), values[n], cells);
    }
}

/// So many cells that hold 0.
#[tactic(auto, unfolding(ds_code::specs::CodeProgram::zeros))]
pub(crate) fn zero_cells(alloc: Global, count: usize) -> Result<Vec<u64>, AllocError>
    requires { count < 2 ^ 32 }
    ensures { IfOk result (λ cells. cells.items ≡ zeros count) }
{
    vec![in alloc; 0; count]
}

//! How many values are copied together.
ghost use Rattle.std.specs.Prelude.{◌≤◌, All, length};
ghost use Rattle.ds_code.specs.declared.ops.Edge.{Edge as way};
ghost use Rattle.ds_code.specs.Rows.{edges_of, FitsRow, FunctionFits};

use ds_code::{BranchOp, CodeFunction, CodeInstr, CodeOp, Edge};

/// The most values on one of these edges, and at least so many.
fn row_of_edges(edges: &[Edge], least: usize) -> usize
    ensures fits { All (λ (e : way). length e.copies ≤ result) edges.now }
    ensures least { least ≤ result }
{
    let mut row = least;
    for edge in edges {
        row = row.max(edge.copies.len());
    }
    row
}

/// The most values that a branch copies together, and at least so many.
fn row_of_branch(op: &BranchOp, least: usize) -> usize
    ensures fits { All (λ (e : way). length e.copies ≤ result) (edges_of op.now) }
    ensures least { least ≤ result }
{
    match op {
        BranchOp::Jump(edge) => edge.copies.len().max(least),
        BranchOp::Either { yes, no, .. } => yes.copies.len().max(no.copies.len()).max(least),
        BranchOp::Switch { edges, .. } => row_of_edges(edges.as_slice(), least),
    }
}

/// The most values that an instruction copies together, and at least so many.
fn row_of_instr(instr: &CodeInstr, least: usize) -> usize
    ensures fits { FitsRow result instr.now }
    ensures least { least ≤ result }
{
    match &instr.op {
        CodeOp::Call { arguments, .. } => arguments.len().max(least),
        CodeOp::Branch(op) => row_of_branch(op, least),
        _ => least,
    }
}

/// The most values that an instruction of a function copies together, and at least so many.
fn row_of_function(function: &CodeFunction, least: usize) -> usize
    ensures fits { FunctionFits result function.now }
    ensures least { least ≤ result }
{
    let code = function.code.as_slice();
    let mut row = least;
    for instr in code {
        row = row_of_instr(instr, row);
    }
    row
}

/// The most values that an instruction of code copies together.
pub fn row_of(functions: &[CodeFunction]) -> usize
    ensures { All (FunctionFits result) functions.now }
{
    let mut row = 0;
    for function in functions {
        row = row_of_function(function, row);
    }
    row
}

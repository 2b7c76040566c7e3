//! The edges between the blocks of a function.
ghost use Rattle.std.specs.Prelude.{◌≡◌, ◌<◌, ◌^◌, ◌↔◌, ◌⊎◌, ℕ, Contains, length, IfOk, OnOk};
ghost use Rattle.ds_check_blocks.specs.Edges.{AreEdgesOf};
ghost use Rattle.ds_check_blocks.specs.Leads.{LeadsBy, LeadsFrom};

use crate::targets::{target, target_count};
use ds_ast::{Block, Function, Instr, Op};
use ds_check_names::Locals;
use ds_graph::Graph;
use std::alloc::{AllocError, Global};

/// Adds the numbers of the blocks that an instruction leads to.
fn push_targets(row: &mut Vec<u32>, locals: &Locals, op: &Op) -> Result<(), AllocError>
    requires few { length locals.now.blocks < 2 ^ 32 }
    ensures { OnOk result ((b : ℕ) → (Contains row.new.items b ↔ (Contains row.old.items b
        ⊎ LeadsBy locals.now b op.now))) }
{
    for number in 0..target_count(op) {
        if let Some(block) = locals.block(target(op, number)) {
            row.push(block as u32)?;
        }
    }
    Ok(())
}

/// The numbers of the blocks that these instructions lead to.
fn targets_of_code(alloc: Global, locals: &Locals, code: &[Instr]) -> Result<Vec<u32>, AllocError>
    requires few { length locals.now.blocks < 2 ^ 32 }
    ensures { IfOk result (λ row. (b : ℕ) → (Contains row.items b ↔ LeadsFrom locals.now b code.now)) }
{
    let mut row = Vec::new(alloc);
    for instr in code {
        push_targets(&mut row, locals, &instr.op)?;
    }
    Ok(row)
}

/// The blocks of a function as a graph: an edge for each label that is a block's.
pub fn edges_of(alloc: Global, function: &Function, locals: &Locals) -> Result<Graph, AllocError>
    requires same { locals.now ≡ function.now }
    requires few { length function.now.blocks < 2 ^ 32 }
    ensures { IfOk result (λ graph. AreEdgesOf function.now graph) }
{
    let mut graph = Graph::new(alloc);
    for block in function.blocks.as_slice() {
        graph.push(targets_of_code(alloc, locals, block.code.as_slice())?)?;
    }
    Ok(graph)
}

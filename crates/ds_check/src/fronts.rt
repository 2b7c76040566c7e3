//! How many phis stand at the front of each block.
ghost use Rattle.std.specs.Prelude.{IfOk};
ghost use Rattle.ds_check.specs.Front.{IsFront, AreFronts};

use ds_ast::{Block, Instr};
use ds_check_blocks::is_phi;
use std::alloc::{AllocError, Global};

/// How many phis stand at the front.
fn front(code: &[Instr]) -> usize
    ensures { IsFront code.now result }
{
    for n in 0..code.len() {
        if !is_phi(&code[n].op) {
            return n;
        }
    }
    code.len()
}

/// How many phis stand at the front of each of these blocks.
pub fn fronts(alloc: Global, blocks: &[Block]) -> Result<Vec<usize>, AllocError>
    ensures { IfOk result (λ fronts. AreFronts blocks.now fronts.items) }
{
    let mut fronts = Vec::new(alloc);
    for block in blocks {
        fronts.push(front(block.code.as_slice()))?;
    }
    Ok(fronts)
}

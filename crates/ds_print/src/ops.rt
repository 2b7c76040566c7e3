//! Instructions.
ghost use Rattle.std.specs.Prelude.{◌≡◌, ◌++◌, flat_map, OnOk, Option};
ghost use Rattle.ds_lex.specs.Written.{written};
ghost use Rattle.ds_print.specs.Canonical.{instr_pieces, op_pieces, result_pieces};

use crate::arithmetic::push_arithmetic;
use crate::atomic::push_atomic;
use crate::control::{push_branch, push_transfer};
use crate::memory::push_memory;
use crate::names::push_local;
use crate::selection::push_selection;
use crate::text::push;
use ds_ast::{Instr, Name, Op};
use std::alloc::AllocError;

/// Adds an instruction without its result.
fn push_op(text: &mut Vec<u8>, op: &Op) -> Result<(), AllocError>
    ensures { OnOk result (text.new.items ≡ text.old.items ++ written (op_pieces op.now)) }
{
    match op {
        Op::Bin { .. } | Op::Icmp { .. } | Op::Cast { .. } => push_arithmetic(text, op),
        Op::Select { .. } | Op::Phi { .. } | Op::Extract { .. } => push_selection(text, op),
        Op::Alloca { .. } | Op::Load { .. } | Op::Store { .. } | Op::Gep { .. } => {
            push_memory(text, op)
        }
        Op::Rmw { .. } | Op::Cmpxchg { .. } | Op::Fence => push_atomic(text, op),
        Op::Call { .. } | Op::Ret(_) | Op::Unreachable => push_transfer(text, op),
        _ => push_branch(text, op),
    }
}

/// Adds the name of a result and `=`, if there is one.
fn push_result(text: &mut Vec<u8>, name: &Option<Name>) -> Result<(), AllocError>
    ensures { OnOk result (text.new.items ≡ text.old.items ++ written (result_pieces name.now)) }
{
    match name {
        None => Ok(()),
        Some(name) => {
            push_local(text, name)?;
            push(text, b" = ")
        }
    }
}

/// Adds an instruction, on a line of its own behind two spaces.
fn push_instr(text: &mut Vec<u8>, instr: &Instr) -> Result<(), AllocError>
    ensures { OnOk result (text.new.items ≡ text.old.items ++ written (instr_pieces instr.now)) }
{
    push(text, b"  ")?;
    push_result(text, &instr.result)?;
    push_op(text, &instr.op)?;
    push(text, b"\n")?;
    Ok(())
}

/// Adds instructions.
pub fn push_code(text: &mut Vec<u8>, code: &[Instr]) -> Result<(), AllocError>
    ensures { OnOk result (text.new.items ≡ text.old.items ++ written (flat_map instr_pieces code.now)) }
{
    for instr in code {
        push_instr(text, instr)?;
    }
    Ok(())
}

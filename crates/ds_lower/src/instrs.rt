//! Instructions.
ghost use Rattle.std.specs.Prelude.{◌≡◌, ◌≤◌, ◌+◌, ◌^◌, ◌++◌, suc, not, IfOk, IsErr, OnOk, All};
ghost use Rattle.ds_shape.specs.Fits.{Fits};
ghost use Rattle.ds_shape.specs.Written.{types_of_op};
ghost use Rattle.ds_meaning.specs.Callees.{callee_of, is_ds_note};
ghost use Rattle.ds_meaning.specs.Places.{counted, is_note_call};
ghost use Rattle.ds_lower.specs.Notes.{is_known_note, is_note_called};
ghost use Rattle.ds_lower.specs.Known.{AllFit};
ghost use Rattle.ds_code.specs.Lowering as lowering;

use crate::local::Local;
use crate::ops::lower_op;
use ds_ast::{Instr, List, Name, Op};
use ds_code::{Called, CodeInstr, Known};
use ds_lower_parts::{Scope, callee_of};
use std::alloc::{AllocError, Global};

/// Whether an external notes a pointer.
fn is_note(external: Known) -> bool
    ensures { result ≡ is_known_note external }
{
    match external {
        Known::Malloc => false,
        Known::Free => false,
        Known::Print => false,
        Known::Create => false,
        Known::Join => false,
        Known::Note => true,
    }
}

/// Whether what is called notes a pointer.
fn is_note_called(called: Called) -> bool
    ensures { result ≡ is_note_called called }
{
    match called {
        Called::Defined(_) => false,
        Called::Declared(external) => is_note(external),
        Called::Unknown => false,
    }
}

/// Whether a call calls `ds_note`.
#[tactic(auto, using(crate::proofs::Notes::note_same))]
fn calls_note(scope: &Scope, callee: &Name) -> bool
    ensures { result ≡ is_ds_note (callee_of scope.now callee.now) }
{
    is_note_called(callee_of(scope, callee))
}

/// Whether an instruction is counted: it is no note.
fn is_counted(scope: &Scope, op: &Op) -> bool
    ensures { result ≡ not (is_note_call scope.now op.now) }
{
    match op {
        Op::Call { callee, .. } => !calls_note(scope, callee),
        _ => true,
    }
}

/// One more. An `Err` comes only where that has more than 32 bits.
fn next(seen: u32) -> Result<u32, AllocError>
    ensures value { IfOk result (λ more. more ≡ suc seen) }
    ensures large { IsErr result → 2 ^ 32 ≤ suc seen }
{
    if seen == 4_294_967_295 {
        return Err(AllocError);
    }
    Ok(seen + 1)
}

/// How many instructions are no notes, with this one.
fn seen_with(scope: &Scope, instr: &Instr, seen: u32) -> Result<u32, AllocError>
    ensures { IfOk result (λ more. more ≡ lowering.seen_with scope.now instr.now seen) }
{
    if is_counted(scope, &instr.op) {
        return next(seen);
    }
    Ok(seen)
}

/// The code of an instruction, which has this number.
fn lower_instr<'a>(
    alloc: Global,
    scope: &Scope<'_, 'a>,
    local: &Local,
    from: &Name,
    number: u32,
    instr: &'a Instr,
) -> Result<CodeInstr, AllocError>
    requires { All (Fits scope.now.structs) (types_of_op instr.now.op) }
    ensures { IfOk result (λ made. made ≡ lowering.lowered_instr scope.now local.now from.now number instr.now) }
{
    let op = lower_op(alloc, scope, local, from, &instr.result, &instr.op)?;
    Ok(CodeInstr {
        origin: number,
        to: local.result_cell(&instr.result, 0),
        op,
    })
}

/// Adds the code of a block behind so many instructions that are no notes, and counts them.
pub fn push_block<'a>(
    alloc: Global,
    scope: &Scope<'_, 'a>,
    local: &Local,
    from: &Name,
    before: u32,
    instrs: &'a [Instr],
    code: &mut List<CodeInstr>,
) -> Result<u32, AllocError>
    requires { AllFit scope.now.structs instrs.now }
    ensures code { OnOk result (code.new
        ≡ code.old ++ lowering.lowered_code scope.now local.now from.now before instrs.now) }
    ensures seen { IfOk result (λ seen. seen ≡ before + counted scope.now instrs.now) }
{
    let mut seen = before;
    for n in 0..instrs.len() {
        seen = seen_with(scope, &instrs[n], seen)?;
        let made = lower_instr(
            alloc,
            scope,
            local,
            from,
            seen.saturating_sub(1),
            &instrs[n],
        )?;
        code.push(made)?;
    }
    Ok(seen)
}

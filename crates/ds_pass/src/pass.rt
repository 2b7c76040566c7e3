//! A module with notes.
ghost use Rattle.std.specs.Prelude.{◌≡◌, [], ◌∷◌, ◌++◌, map, flat_map, OnOk, IfOk};
ghost use Rattle.ds_pass.specs.Noted.{note_name, pointer, note, note_of, notes_behind, noted_instr};
ghost use Rattle.ds_pass.specs.Noted.{noted_block, noted_function, declaration, noted};

use ds_ast::{
    Block, Bytes, Function, Instr, List, Module, Name, Op, Operand, Ops, Param, Part, RmwOp,
    Scalar, Ty, Value,
};
use std::alloc::{AllocError, Global};

/// The name of the function that is told of a pointer.
fn note_name(alloc: Global) -> Result<Name, AllocError>
    ensures { IfOk result (λ name. name ≡ note_name) }
{
    Ok(Name::Text(Bytes::from_vec(Vec::from_slice(alloc, b"ds_note".as_slice())?)))
}

/// A pointer as an operand.
fn pointer(alloc: Global, value: &Value) -> Result<Operand, AllocError>
    ensures { IfOk result (λ operand. operand ≡ pointer value.now) }
{
    Ok(Operand {
        ty: Scalar::Ptr,
        value: value.duplicate(alloc)?,
    })
}

/// The call that tells of a pointer and the address at which it is written.
fn note(alloc: Global, at: &Value, value: &Value) -> Result<Instr, AllocError>
    ensures { IfOk result (λ call. call ≡ note at.now value.now) }
{
    let mut args = Ops::new(alloc);
    args.push(pointer(alloc, at)?)?;
    args.push(pointer(alloc, value)?)?;
    Ok(Instr {
        result: None,
        op: Op::Call {
            result: Ty::Void,
            callee: note_name(alloc)?,
            args,
        },
    })
}

/// Adds the note of a value that is written at an address, where it is a pointer.
fn push_note(
    alloc: Global,
    code: &mut List<Instr>,
    ty: Scalar,
    at: &Value,
    value: &Value,
) -> Result<(), AllocError>
    ensures { OnOk result (code.new ≡ code.old ++ note_of ty at.now value.now) }
{
    match ty {
        Scalar::Ptr => {
            code.push(note(alloc, at, value)?)?;
            Ok(())
        }
        _ => Ok(()),
    }
}

/// Adds what stands behind an instruction.
fn push_notes(alloc: Global, code: &mut List<Instr>, op: &Op) -> Result<(), AllocError>
    ensures { OnOk result (code.new ≡ code.old ++ notes_behind op.now) }
{
    match op {
        Op::Store { ty, value, at } => push_note(alloc, code, *ty, at, value),
        Op::Rmw {
            op: RmwOp::Xchg,
            at,
            ty,
            value,
        } => push_note(alloc, code, *ty, at, value),
        Op::Cmpxchg { at, ty, new, .. } => push_note(alloc, code, *ty, at, new),
        _ => Ok(()),
    }
}

/// These instructions, each with what stands behind it.
fn noted_code(alloc: Global, code: &[Instr]) -> Result<List<Instr>, AllocError>
    ensures { IfOk result (λ with_notes. with_notes ≡ flat_map noted_instr code.now) }
{
    let mut with_notes = List::new(alloc);
    for instr in code {
        with_notes.push(instr.duplicate(alloc)?)?;
        push_notes(alloc, &mut with_notes, &instr.op)?;
    }
    Ok(with_notes)
}

/// These blocks with their notes.
fn noted_blocks(alloc: Global, blocks: &[Block]) -> Result<List<Block>, AllocError>
    ensures { IfOk result (λ with_notes. with_notes ≡ map noted_block blocks.now) }
{
    let mut with_notes = List::new(alloc);
    for block in blocks {
        with_notes.push(Block {
            name: block.name.duplicate(alloc)?,
            code: noted_code(alloc, block.code.as_slice())?,
        })?;
    }
    Ok(with_notes)
}

/// This function with its notes.
fn noted_function(alloc: Global, function: &Function) -> Result<Function, AllocError>
    ensures { IfOk result (λ with_notes. with_notes ≡ noted_function function.now) }
{
    Ok(Function {
        name: function.name.duplicate(alloc)?,
        result: function.result.duplicate(alloc)?,
        params: function.params.duplicate(alloc)?,
        blocks: noted_blocks(alloc, function.blocks.as_slice())?,
    })
}

/// The declaration of the function that is told of pointers.
fn declaration(alloc: Global) -> Result<Function, AllocError>
    ensures { IfOk result (λ function. function ≡ declaration) }
{
    let mut params = List::new(alloc);
    params.push(Param {
        name: Name::Number(0),
        ty: Scalar::Ptr,
    })?;
    params.push(Param {
        name: Name::Number(1),
        ty: Scalar::Ptr,
    })?;
    Ok(Function {
        name: note_name(alloc)?,
        result: Ty::Void,
        params,
        blocks: List::new(alloc),
    })
}

/// These functions with their notes, and the declaration behind them.
fn noted_functions(alloc: Global, functions: &[Function]) -> Result<List<Function>, AllocError>
    ensures { IfOk result
        (λ with_notes. with_notes ≡ map noted_function functions.now ++ declaration ∷ []) }
{
    let mut with_notes = List::new(alloc);
    for function in functions {
        with_notes.push(noted_function(alloc, function)?)?;
    }
    with_notes.push(declaration(alloc)?)?;
    Ok(with_notes)
}

/// The module with a note behind each instruction that writes a pointer to memory: a `store` of type `ptr`, an
/// `atomicrmw xchg` of type `ptr` and a `cmpxchg` of type `ptr`. A note is `call void @ds_note(ptr L, ptr V)`, where L
/// is the address and V the pointer that is written; of a `cmpxchg` V is the new value, also where it does not
/// exchange. Behind the functions stands `declare void @ds_note(ptr, ptr)`. Nothing else differs. An `Err` comes only
/// where there is not enough memory.
pub fn instrument(alloc: Global, module: &Module) -> Result<Module, AllocError>
    ensures { IfOk result (λ with_notes. with_notes ≡ noted «module».now) }
{
    Ok(Module {
        structs: module.structs.duplicate(alloc)?,
        globals: module.globals.duplicate(alloc)?,
        functions: noted_functions(alloc, module.functions.as_slice())?,
    })
}

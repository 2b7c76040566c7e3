//! A module that stores one pointer, and the same with its note.
use super::*;
use ds_ast::{
    Block, Bytes, Function, Instr, List, Module, Name, Op, Operand, Ops, Param, Scalar, Ty, Value,
};
use std::alloc::{AllocError, Global};
use std::test::Fail;

fn text(alloc: Global, name: &str) -> Result<Name, AllocError> {
    Ok(Name::Text(Bytes::from_vec(Vec::from_slice(alloc, name.as_bytes())?)))
}

/// `store ptr %0, ptr null`
fn store() -> Instr {
    Instr {
        result: None,
        op: Op::Store {
            ty: Scalar::Ptr,
            value: Value::Local(Name::Number(0)),
            at: Value::Null,
        },
    }
}

/// `call void @ds_note(ptr null, ptr %0)`
fn note(alloc: Global) -> Result<Instr, AllocError> {
    let mut args = Ops::new(alloc);
    for value in [Value::Null, Value::Local(Name::Number(0))] {
        args.push(Operand {
            ty: Scalar::Ptr,
            value,
        })?;
    }
    Ok(Instr {
        result: None,
        op: Op::Call {
            result: Ty::Void,
            callee: text(alloc, "ds_note")?,
            args,
        },
    })
}

/// A function of so many pointers.
fn function(
    alloc: Global,
    name: &str,
    params: u32,
    blocks: List<Block>,
) -> Result<Function, AllocError> {
    let mut list = List::new(alloc);
    for n in 0..params {
        list.push(Param {
            name: Name::Number(n),
            ty: Scalar::Ptr,
        })?;
    }
    Ok(Function {
        name: text(alloc, name)?,
        result: Ty::Void,
        params: list,
        blocks,
    })
}

/// A module that stores its parameter, with its note or without.
fn module(alloc: Global, has_notes: bool) -> Result<Module, AllocError> {
    let mut code = List::new(alloc);
    code.push(store())?;
    if has_notes {
        code.push(note(alloc)?)?;
    }
    let mut blocks = List::new(alloc);
    blocks.push(Block {
        name: Name::Number(1),
        code,
    })?;
    let mut functions = List::new(alloc);
    functions.push(function(alloc, "f", 1, blocks)?)?;
    if has_notes {
        functions.push(function(alloc, "ds_note", 2, List::new(alloc))?)?;
    }
    Ok(Module {
        structs: List::new(alloc),
        globals: List::new(alloc),
        functions,
    })
}

#[test]
fn a_stored_pointer_is_noted(rt: HostRuntime) -> Result<(), Fail> {
    let alloc = rt.alloc();
    let with_notes = instrument(alloc, &module(alloc, false)?)?;
    assert!(rt; with_notes == module(alloc, true)?);
    Ok(())
}

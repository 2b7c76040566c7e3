//! A small module, its copy and its near twin.
use super::*;
use std::alloc::{AllocError, Global};
use std::test::Fail;

fn named(alloc: Global, byte: u8) -> Result<Name, AllocError> {
    let mut bytes = Bytes::new(alloc);
    bytes.push(byte)?;
    Ok(Name::Text(bytes))
}

/// A block that adds, and goes on at one of two labels.
fn block(alloc: Global, number: u64) -> Result<Block, AllocError> {
    let mut indices = Ops::new(alloc);
    indices.push(Operand {
        ty: Scalar::I64,
        value: Value::Int(number),
    })?;
    let mut code = List::new(alloc);
    code.push(Instr {
        result: Some(Name::Number(1)),
        op: Op::Gep {
            ty: Ty::Struct(named(alloc, b's')?),
            base: Value::Null,
            indices,
        },
    })?;
    code.push(Instr {
        result: None,
        op: Op::CondBr {
            c: Value::Undef,
            yes: Name::Number(1),
            no: named(alloc, b'1')?,
        },
    })?;
    Ok(Block {
        name: Name::Number(0),
        code,
    })
}

/// A module of one function, with a number in it.
fn module(alloc: Global, number: u64) -> Result<Module, AllocError> {
    let mut blocks = List::new(alloc);
    blocks.push(block(alloc, number)?)?;
    let mut functions = List::new(alloc);
    functions.push(Function {
        name: named(alloc, b'f')?,
        result: Ty::Void,
        params: List::new(alloc),
        blocks,
    })?;
    Ok(Module {
        structs: List::new(alloc),
        globals: List::new(alloc),
        functions,
    })
}

#[test]
fn a_copy_equals_its_module_alone(rt: HostRuntime) -> Result<(), Fail> {
    let alloc = rt.alloc();
    let original = module(alloc, 5)?;
    let copy = original.copy(alloc)?;
    assert!(rt; copy == original);
    assert!(rt; copy != module(alloc, 6)?);
    Ok(())
}

//! The call once, with ample memory.
use super::first_unassigned;
use ds_ast::{BinOp, Block, Function, Instr, List, Name, Op, Scalar, Ty, Value};
use ds_check_blocks::{Sites, edges_of};
use ds_check_names::Locals;
use std::alloc::{AllocError, Global};
use std::test::Fail;

/// A function of one block, `1`: `%2 = add i32 %2, 1`, and a return.
fn function(alloc: Global) -> Result<Function, AllocError> {
    let mut code = List::new(alloc);
    code.push(Instr {
        result: Some(Name::Number(2)),
        op: Op::Bin {
            op: BinOp::Add,
            ty: Scalar::I32,
            a: Value::Local(Name::Number(2)),
            b: Value::Int(1),
        },
    })?;
    code.push(Instr {
        result: None,
        op: Op::Ret(None),
    })?;
    let mut blocks = List::new(alloc);
    blocks.push(Block {
        name: Name::Number(1),
        code,
    })?;
    Ok(Function {
        name: Name::Number(0),
        result: Ty::Void,
        params: List::new(alloc),
        blocks,
    })
}

/// Its first use before an assignment; nothing is asked of a function of no or many blocks.
fn asked(alloc: Global, function: &Function) -> Result<Option<usize>, AllocError> {
    let count = function.blocks.len();
    if count == 0 || count > 9 {
        return Ok(None);
    }
    match Locals::new(alloc, function) {
        Ok(locals) => {
            let sites = Sites::new(alloc, function)?;
            let graph = edges_of(alloc, function, &locals)?;
            first_unassigned(alloc, function, &locals, &sites, &graph)
        }
        Err(_) => Ok(None),
    }
}

#[test]
fn finds_a_use_before_its_assignment(rt: HostRuntime) -> Result<(), Fail> {
    let alloc = rt.alloc();
    let function = function(alloc)?;
    assert!(rt; asked(alloc, &function)? == Some(0));
    Ok(())
}

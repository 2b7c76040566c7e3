//! Each call once, with ample memory.
use super::*;
use ds_ast::{
    Block, Bytes, Function, GlobalDef, Init, Instr, List, Module, Name, Op, Param, Scalar, Ty,
    Value,
};
use ds_shape::LocalType;
use std::alloc::{AllocError, Global};
use std::test::Fail;

/// The function `7` of one parameter, `1`, and a block, `2`, which returns.
fn function(alloc: Global) -> Result<Function, AllocError> {
    let mut params = List::new(alloc);
    params.push(Param {
        name: Name::Number(1),
        ty: Scalar::I32,
    })?;
    let mut code = List::new(alloc);
    code.push(Instr {
        result: None,
        op: Op::Ret(None),
    })?;
    let mut blocks = List::new(alloc);
    blocks.push(Block {
        name: Name::Number(2),
        code,
    })?;
    Ok(Function {
        name: Name::Number(7),
        result: Ty::Void,
        params,
        blocks,
    })
}

/// A module of it and of the global `g`.
fn whole(alloc: Global) -> Result<Module, AllocError> {
    let mut globals = List::new(alloc);
    globals.push(GlobalDef {
        name: Name::Text(Bytes::from_vec(Vec::from_slice(alloc, b"g".as_slice())?)),
        ty: Ty::One(Scalar::I64),
        init: Init::Zero,
    })?;
    let mut functions = List::new(alloc);
    functions.push(function(alloc)?)?;
    Ok(Module {
        structs: List::new(alloc),
        globals,
        functions,
    })
}

/// A global, a function, a parameter and a label mean themselves.
#[test]
fn finds_what_names_mean(rt: HostRuntime) -> Result<(), Fail> {
    let alloc = rt.alloc();
    let m = whole(alloc)?;
    let f = function(alloc)?;
    let seven = Name::Number(7);
    let parameter = LocalType::Plain(Scalar::I32);
    match Entities::new(alloc, &m) {
        Ok(entities) => match Locals::new(alloc, &f) {
            Ok(locals) => {
                assert!(rt; entities.is_function(&seven));
                assert!(rt; !entities.is_global(&seven));
                assert!(rt; entities.function(&seven).is_some());
                assert!(rt;
                    locals.meaning(&Name::Number(1)) == Some(Meaning::Parameter(parameter))
                );
                assert!(rt; locals.defined(&Name::Number(1)) == Some(Some(parameter)));
                assert!(rt; locals.block(&Name::Number(2)) == Some(0));
                assert!(rt; is_defined(&entities, &locals, &Value::Global(seven)));
                Ok(())
            }
            Err(_) => Err(Fail::new("a fault")),
        },
        Err(_) => Err(Fail::new("a fault")),
    }
}

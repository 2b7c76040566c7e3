//! The check of small modules with ample memory.
ghost use Rattle.std.specs.Prelude.{◌≡◌, IfOk, [], ◌∷◌, None};
ghost use Rattle.ds_ast.specs.declared.instr.Op.TheVariants.{Ret};
ghost use Rattle.ds_ast.specs.Bounds.{Bounds};

use crate::{TypeFault, check};
use ds_ast::{Block, Bytes, Function, Instr, List, Module, Name, Op, Ty};
use ds_shape::layout;
use std::alloc::{AllocError, Global};
use std::test::Fail;

/// The code of one return.
fn code(alloc: Global) -> Result<List<Instr>, AllocError>
    ensures { IfOk result (λ code. code ≡ record { result = None; op = Ret None } ∷ []) }
{
    let mut code = List::new(alloc);
    code.push(Instr {
        result: None,
        op: Op::Ret(None),
    })?;
    Ok(code)
}

/// A module of one function, which returns at once: `main`, or another.
fn one_function(alloc: Global, is_main: bool) -> Result<Module, AllocError>
    ensures { IfOk result Bounds }
{
    let name = if is_main {
        b"main".as_slice()
    } else {
        b"other".as_slice()
    };
    let mut blocks = List::new(alloc);
    blocks.push(Block {
        name: Name::Number(0),
        code: code(alloc)?,
    })?;
    let mut functions = List::new(alloc);
    functions.push(Function {
        name: Name::Text(Bytes::from_vec(Vec::from_slice(alloc, name)?)),
        result: Ty::Void,
        params: List::new(alloc),
        blocks,
    })?;
    Ok(Module {
        structs: List::new(alloc),
        globals: List::new(alloc),
        functions,
    })
}

/// What the check answers for it.
fn asked(alloc: Global, is_main: bool) -> Result<&'static str, AllocError> {
    let module = one_function(alloc, is_main)?;
    let shapes = match layout(alloc, &module) {
        Ok(shapes) => shapes,
        Err(_) => return Ok("no layout"),
    };
    match check(alloc, &module, &shapes) {
        Ok(()) => Ok("accepted"),
        Err(TypeFault::NoMain) => Ok("no main"),
        Err(_) => Ok("another fault"),
    }
}

#[test]
fn asks_for_a_main(rt: HostRuntime) -> Result<(), Fail> {
    let alloc = rt.alloc();
    assert_eq!(rt; asked(alloc, true)?, "accepted");
    assert_eq!(rt; asked(alloc, false)?, "no main");
    Ok(())
}

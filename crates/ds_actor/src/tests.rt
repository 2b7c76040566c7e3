//! An actor on the smallest code.
ghost use Rattle.std.specs.Prelude.{◌≡◌, All, IfOk};
ghost use Rattle.ds_code.specs.Rows.{FitsRow};

use crate::{Actor, turn};
use ds_ast::List;
use ds_code::{Code, CodeFunction, CodeInstr, CodeOp, CodeParts};
use ds_map::Limits;
use ds_step::VecWords;
use std::alloc::{AllocError, Global};
use std::test::Fail;

/// Code whose main returns at once.
fn code_of(alloc: Global) -> Result<Code, AllocError>
    ensures { IfOk result (λ code. code.row ≡ 0) }
{
    let (origin, to, op) = (0, None, CodeOp::Ret(None));
    let mut code = List::new(alloc);
    code.push(CodeInstr { origin, to, op })?;
    let mut functions = List::new(alloc);
    functions.push(CodeFunction {
        cells: 0,
        first: None,
        may_start: false,
        code,
    })?;
    Ok(Code::new(CodeParts {
        main: 0,
        image: List::new(alloc),
        names: List::new(alloc),
        functions,
        row: 0,
    }))
}

#[test]
fn an_actor_begins(rt: HostRuntime) -> Result<(), Fail> {
    let alloc = rt.alloc();
    let code = code_of(alloc)?;
    let limits = Limits::default_limits();
    let mut words = VecWords::new(alloc, &limits, &[])?;
    let mut actor = Actor::new(alloc, &code, &limits, 0)?;
    assert_eq!(rt; turn(&code, &mut actor, &mut words).step().row, 1);
    assert_eq!(rt; actor.units(), 2);
    assert_eq!(rt; actor.stop(), None);
    Ok(())
}

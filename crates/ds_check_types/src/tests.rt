//! Each call once, with ample memory.
use super::*;
use ds_ast::{Function, Init, List, Module, Name, Op, Scalar, Ty, Value};
use ds_check_names::{Entities, Locals};
use ds_shape::layout;
use std::test::Fail;

/// A `switch` with two cases keeps its rule, and zeros have a type.
#[test]
fn decides_with_memory(rt: HostRuntime) -> Result<(), Fail> {
    let alloc = rt.alloc();
    let lines = Module {
        structs: List::new(alloc),
        globals: List::new(alloc),
        functions: List::new(alloc),
    };
    let function = Function {
        name: Name::Number(0),
        result: Ty::Void,
        params: List::new(alloc),
        blocks: List::new(alloc),
    };
    let mut cases = List::new(alloc);
    cases.push((1, Name::Number(1)))?;
    cases.push((2, Name::Number(1)))?;
    let switch = Op::Switch {
        ty: Scalar::I8,
        value: Value::Undef,
        other: Name::Number(1),
        cases,
    };
    match layout(alloc, &lines) {
        Ok(shapes) => match Entities::new(alloc, &lines) {
            Ok(entities) => match Locals::new(alloc, &function) {
                Ok(locals) => {
                    assert!(rt; is_typed(alloc, &entities, &locals, &shapes, &function, &switch)?);
                    assert!(rt; is_initial(&entities, &shapes, &Init::Zero, &Ty::Void));
                    Ok(())
                }
                Err(_) => Err(Fail::new("a fault")),
            },
            Err(_) => Err(Fail::new("a fault")),
        },
        Err(_) => Err(Fail::new("a fault")),
    }
}

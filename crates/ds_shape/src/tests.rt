//! A layout with ample memory. What the program tells of modules without one is shown by whole runs of it.
use super::{ShapeFault, layout};
use ds_ast::{List, Module, Name, Scalar, StructDef, Ty};
use std::alloc::{AllocError, Global};
use std::test::Fail;

/// A module of the struct types `%1` of two fields and `%2` of none, where the second line has this number.
fn module(alloc: Global, second: u32) -> Result<Module, AllocError> {
    let mut fields = List::new(alloc);
    fields.push(Ty::One(Scalar::I8))?;
    fields.push(Ty::Struct(Name::Number(2)))?;
    let mut structs = List::new(alloc);
    structs.push(StructDef {
        name: Name::Number(1),
        fields,
    })?;
    structs.push(StructDef {
        name: Name::Number(second),
        fields: List::new(alloc),
    })?;
    Ok(Module {
        structs,
        globals: List::new(alloc),
        functions: List::new(alloc),
    })
}

/// How many fields the struct types `%1` and `%3` have, and what is told of a module without a layout.
#[test]
fn lays_out_or_tells_the_fault(rt: HostRuntime) -> Result<(), Fail> {
    let whole = module(rt.alloc(), 2)?;
    match layout(rt.alloc(), &whole) {
        Ok(shapes) => {
            assert!(rt;
                matches!(shapes.fields_of(&Name::Number(1)), Some(fields) if fields.len() == 2)
            );
            assert!(rt; shapes.fields_of(&Name::Number(3)).is_none());
        }
        Err(_) => panic!(rt; "no layout"),
    }
    let unknown = module(rt.alloc(), 3)?;
    assert!(rt;
        matches!(
            layout(rt.alloc(), &unknown),
            Err(ShapeFault::Unknown {
                name: Name::Number(2)
            })
        )
    );
    Ok(())
}

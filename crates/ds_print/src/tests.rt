//! The text of a small module.
use super::{print, push_global, push_local};
use ds_ast::{Bytes, Function, List, Module, Name, StructDef, Ty};
use std::test::Fail;

#[test]
fn writes_a_module_and_names(rt: HostRuntime) -> Result<(), Fail> {
    let alloc = rt.alloc();
    let mut structs = List::new(alloc);
    structs.push(StructDef {
        name: Name::Number(7),
        fields: List::new(alloc),
    })?;
    let mut functions = List::new(alloc);
    functions.push(Function {
        name: Name::Text(Bytes::from_vec(b"a b".as_slice().to_vec(alloc)?)),
        result: Ty::Void,
        params: List::new(alloc),
        blocks: List::new(alloc),
    })?;
    let module = Module {
        structs,
        globals: List::new(alloc),
        functions,
    };
    let expected = "%7 = type { }\ndeclare void @\"a b\"()\n";
    assert_eq!(rt; print(alloc, &module)?.as_slice(), expected.as_bytes());
    let mut text = Vec::new(alloc);
    push_local(&mut text, &Name::Number(7))?;
    push_global(&mut text, &Name::Number(7))?;
    assert_eq!(rt; text.as_slice(), b"%7@7".as_slice());
    Ok(())
}

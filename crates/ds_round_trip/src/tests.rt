//! Calls that the program does not make, each with ample memory.
use crate::parse_printed;
use ds_ast::{Function, Instr, List, Module, Name, Op, Ty};
use ds_lex::lex;
use ds_parse_instr::parse_instr;
use ds_print::print;
use std::test::Fail;

#[test]
fn module_and_back(rt: HostRuntime) -> Result<(), Fail> {
    let alloc = rt.alloc();
    let mut functions = List::new(alloc);
    functions.push(Function {
        name: Name::Number(0),
        result: Ty::Void,
        params: List::new(alloc),
        blocks: List::new(alloc),
    })?;
    let module = Module {
        structs: List::new(alloc),
        globals: List::new(alloc),
        functions,
    };
    let text = print(alloc, &module)?;
    assert_eq!(rt; text.as_slice(), b"declare void @0()\n".as_slice());
    match parse_printed(alloc, &module) {
        Ok(found) => assert_eq!(rt; found, module),
        Err(fault) => panic!(rt; "{fault}"),
    }
    Ok(())
}

#[test]
fn instruction(rt: HostRuntime) -> Result<(), Fail> {
    let alloc = rt.alloc();
    let text = b"ret void ret".as_slice();
    match lex(alloc, text) {
        Ok(tokens) => {
            let mut at = 0;
            assert!(rt; tokens.as_slice().len() > 0);
            match parse_instr(alloc, text, &tokens, &mut at) {
                Ok(instr) => assert_eq!(rt;
                    instr,
                    Instr {
                        result: None,
                        op: Op::Ret(None)
                    }
                ),
                Err(fault) => panic!(rt; "{fault}"),
            }
            assert_eq!(rt; at, 2);
        }
        Err(fault) => panic!(rt; "{fault}"),
    }
    Ok(())
}

//! Names of both kinds in a row.
use super::*;
use ds_ast::{Bytes, Name};
use std::alloc::{AllocError, Global};
use std::test::Fail;

fn text(alloc: Global, name: &str) -> Result<Name, AllocError> {
    Ok(Name::Text(Bytes::from_vec(Vec::from_slice(alloc, name.as_bytes())?)))
}

/// A number and the text of its digits are two names, and a text may be empty. With memory each is put once.
#[test]
fn puts_each_name_once(rt: HostRuntime) -> Result<(), Fail> {
    let alloc = rt.alloc();
    let named = [
        (Name::Number(7), true, 0),
        (text(alloc, "7")?, true, 1),
        (text(alloc, "")?, true, 2),
        (Name::Number(7), false, 0),
    ];
    let mut names = Names::new(alloc);
    for (name, is_new, place) in &named {
        assert!(rt; names.put(name)? == *is_new);
        assert!(rt; names.place(name) == Some(*place));
    }
    assert!(rt; names.len() == 3);
    assert!(rt; names.place(&text(alloc, "0")?).is_none());
    Ok(())
}

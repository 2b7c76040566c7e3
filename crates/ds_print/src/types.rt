//! Types.
ghost use Rattle.std.specs.Prelude.{◌≡◌, ◌++◌, OnOk};
ghost use Rattle.ds_lex.specs.Written.{written};
ghost use Rattle.ds_print.specs.Canonical.{type_pieces};

use crate::names::push_local;
use crate::text::{push, push_count};
use crate::values::push_scalar;
use ds_ast::Ty;
use std::alloc::AllocError;

/// Adds a type.
pub fn push_type(text: &mut Vec<u8>, ty: &Ty) -> Result<(), AllocError>
    ensures { OnOk result (text.new.items ≡ text.old.items ++ written (type_pieces ty.now)) }
{
    match ty {
        Ty::Void => push(text, b"void"),
        Ty::One(scalar) => push_scalar(text, *scalar),
        Ty::Array { count, of } => {
            push(text, b"[")?;
            push_count(text, *count)?;
            push(text, b" x ")?;
            push_type(text, of.get())?;
            push(text, b"]")?;
            Ok(())
        }
        Ty::Struct(name) => push_local(text, name),
    }
}

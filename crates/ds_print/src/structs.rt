//! Lines of struct types.
ghost use Rattle.std.specs.Prelude.{◌≡◌, ◌++◌, map, flat_map, OnOk};
ghost use Rattle.ds_lex.specs.Written.{written};
ghost use Rattle.ds_print.specs.Canonical.{type_pieces, struct_pieces, listed_behind_space};

use crate::names::push_local;
use crate::text::{push, push_space};
use crate::types::push_type;
use ds_ast::{StructDef, Ty};
use std::alloc::AllocError;

/// Adds the types of fields, with commas between them, behind a space.
fn push_fields(text: &mut Vec<u8>, fields: &[Ty]) -> Result<(), AllocError>
    ensures { OnOk result
        (text.new.items ≡ text.old.items ++ written (listed_behind_space (map type_pieces fields.now))) }
{
    for (index, field) in fields.iter().enumerate() {
        push_space(text, index)?;
        push_type(text, field)?;
    }
    Ok(())
}

/// Adds the line of a struct type.
fn push_struct(text: &mut Vec<u8>, line: &StructDef) -> Result<(), AllocError>
    ensures { OnOk result (text.new.items ≡ text.old.items ++ written (struct_pieces line.now)) }
{
    push_local(text, &line.name)?;
    push(text, b" = type {")?;
    push_fields(text, line.fields.as_slice())?;
    push(text, b" }\n")?;
    Ok(())
}

/// Adds the lines of struct types.
pub fn push_structs(text: &mut Vec<u8>, lines: &[StructDef]) -> Result<(), AllocError>
    ensures { OnOk result (text.new.items ≡ text.old.items ++ written (flat_map struct_pieces lines.now)) }
{
    for line in lines {
        push_struct(text, line)?;
    }
    Ok(())
}

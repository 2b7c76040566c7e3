//! The lines of a module, each with the types that it writes.
ghost use Rattle.std.specs.Prelude.{◌≡◌, [], ◌∷◌, ◌++◌, map, flat_map, option_copied, OnOk, IfOk};
ghost use Rattle.std.specs.Option.{option_to_list};
ghost use Rattle.ds_shape.specs.Written as written;
ghost use Rattle.ds_shape.specs.Index.{types_in, line_in, lines_in};

use ds_ast::{Function, GlobalDef, Instr, Module, Name, Op, StructDef, Ty};
use std::alloc::{AllocError, Global};

/// A line of a module.
#[derive(Drop)]
pub struct WrittenLine<'a> {
    /// The name of the struct type, the global or the function.
    pub name: &'a Name,
    /// Whether it is a struct type's.
    pub is_struct: bool,
    /// The types that it writes, in the order of the text.
    pub types: Vec<&'a Ty>,
}

/// The type that an instruction writes, beside those of registers.
fn type_of_op(op: &Op) -> Option<&Ty>
    ensures { option_to_list (option_copied result) ≡ written.types_of_op op.now }
{
    match op {
        Op::Alloca { ty, count: _ } => Some(ty),
        Op::Gep {
            ty,
            base: _,
            indices: _,
        } => Some(ty),
        Op::Call {
            result,
            callee: _,
            args: _,
        } => Some(result),
        _ => None,
    }
}

/// Adds the type that an instruction writes.
fn push_type_of_op<'a>(types: &mut Vec<&'a Ty>, op: &'a Op) -> Result<(), AllocError>
    ensures { OnOk result (types_in types.new.items ≡ types_in types.old.items ++ written.types_of_op op.now) }
{
    if let Some(ty) = type_of_op(op) {
        types.push(ty)?;
    }
    Ok(())
}

/// Adds the types that instructions write.
fn push_types_of_code<'a>(types: &mut Vec<&'a Ty>, code: &'a [Instr]) -> Result<(), AllocError>
    ensures { OnOk result
        (types_in types.new.items ≡ types_in types.old.items ++ flat_map (λ i. written.types_of_op i.op) code.now) }
{
    for instr in code {
        push_type_of_op(types, &instr.op)?;
    }
    Ok(())
}

/// The types that a function writes.
fn types_of_function<'a>(alloc: Global, function: &'a Function) -> Result<Vec<&'a Ty>, AllocError>
    ensures { IfOk result (λ types. types_in types.items ≡ written.types_of_function function.now) }
{
    let mut types = Vec::new(alloc);
    types.push(&function.result)?;
    for block in function.blocks.as_slice() {
        push_types_of_code(&mut types, block.code.as_slice())?;
    }
    Ok(types)
}

/// The types of fields.
fn types_of_fields<'a>(alloc: Global, fields: &'a [Ty]) -> Result<Vec<&'a Ty>, AllocError>
    ensures { IfOk result (λ types. types_in types.items ≡ fields.now) }
{
    let mut types = Vec::new(alloc);
    for field in fields {
        types.push(field)?;
    }
    Ok(types)
}

/// Adds the lines of struct types.
fn push_structs<'a>(
    alloc: Global,
    lines: &mut Vec<WrittenLine<'a>>,
    structs: &'a [StructDef],
) -> Result<(), AllocError>
    ensures { OnOk result
        (lines_in lines.new.items ≡ lines_in lines.old.items ++ map written.struct_line structs.now) }
{
    for def in structs {
        let types = types_of_fields(alloc, def.fields.as_slice())?;
        lines.push(WrittenLine {
            name: &def.name,
            is_struct: true,
            types,
        })?;
    }
    Ok(())
}

/// Adds the lines of globals.
fn push_globals<'a>(
    alloc: Global,
    lines: &mut Vec<WrittenLine<'a>>,
    globals: &'a [GlobalDef],
) -> Result<(), AllocError>
    ensures { OnOk result
        (lines_in lines.new.items ≡ lines_in lines.old.items ++ map written.global_line globals.now) }
{
    for def in globals {
        let mut types = Vec::new(alloc);
        types.push(&def.ty)?;
        lines.push(WrittenLine {
            name: &def.name,
            is_struct: false,
            types,
        })?;
    }
    Ok(())
}

/// Adds the lines of functions.
fn push_functions<'a>(
    alloc: Global,
    lines: &mut Vec<WrittenLine<'a>>,
    functions: &'a [Function],
) -> Result<(), AllocError>
    ensures { OnOk result
        (lines_in lines.new.items ≡ lines_in lines.old.items ++ map written.function_line functions.now) }
{
    for def in functions {
        let types = types_of_function(alloc, def)?;
        lines.push(WrittenLine {
            name: &def.name,
            is_struct: false,
            types,
        })?;
    }
    Ok(())
}

/// The lines of a module, in the order of the text.
pub fn lines_of<'a>(alloc: Global, whole: &'a Module) -> Result<Vec<WrittenLine<'a>>, AllocError>
    ensures { IfOk result (λ lines. lines_in lines.items ≡ written.lines_of whole.now) }
{
    let mut lines = Vec::new(alloc);
    push_structs(alloc, &mut lines, whole.structs.as_slice())?;
    push_globals(alloc, &mut lines, whole.globals.as_slice())?;
    push_functions(alloc, &mut lines, whole.functions.as_slice())?;
    Ok(lines)
}

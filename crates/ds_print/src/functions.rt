//! Functions, declared and defined.
ghost use Rattle.std.specs.Prelude.{◌≡◌, ◌++◌, List, [], ◌∷◌, map, flat_map, OnOk};
ghost use Rattle.ds_lex.specs.Written.{written, Piece};
ghost use Rattle.ds_print.specs.Canonical.{block_pieces, function_pieces, listed, param_pieces, param_type};
ghost use Rattle.ds_print.specs.Canonical.{type_pieces};
ghost use Rattle.ds_print.specs.Parts.{declaration_pieces, definition_pieces};
ghost use Rattle.ds_print.specs.Names.{global, punct, space};

use crate::names::{push_global, push_label, push_local};
use crate::ops::push_code;
use crate::text::{push, push_comma};
use crate::types::push_type;
use crate::values::push_scalar;
use ds_ast::{Block, Function, Param};
use std::alloc::AllocError;

/// Adds a parameter: its type and its name.
fn push_param(text: &mut Vec<u8>, param: &Param) -> Result<(), AllocError>
    ensures { OnOk result (text.new.items ≡ text.old.items ++ written (param_pieces param.now)) }
{
    push_scalar(text, param.ty)?;
    push(text, b" ")?;
    push_local(text, &param.name)?;
    Ok(())
}

/// Adds the parameters of a definition with commas between them.
fn push_params(text: &mut Vec<u8>, params: &[Param]) -> Result<(), AllocError>
    ensures { OnOk result (text.new.items ≡ text.old.items ++ written (listed (map param_pieces params.now))) }
{
    for (index, param) in params.iter().enumerate() {
        push_comma(text, index)?;
        push_param(text, param)?;
    }
    Ok(())
}

/// Adds the types of the parameters of a declaration with commas between them.
fn push_param_types(text: &mut Vec<u8>, params: &[Param]) -> Result<(), AllocError>
    ensures { OnOk result (text.new.items ≡ text.old.items ++ written (listed (map param_type params.now))) }
{
    for (index, param) in params.iter().enumerate() {
        push_comma(text, index)?;
        push_scalar(text, param.ty)?;
    }
    Ok(())
}

/// Adds the type of the result, the name, and the bracket in front of the parameters.
fn push_head(text: &mut Vec<u8>, function: &Function) -> Result<(), AllocError>
    ensures { OnOk result
        (text.new.items ≡ text.old.items
        ++ written (space ∷ type_pieces function.now.result ++ space ∷ global function.now.name ∷ punct "(" ∷ [])) }
{
    push(text, b" ")?;
    push_type(text, &function.result)?;
    push(text, b" ")?;
    push_global(text, &function.name)?;
    push(text, b"(")?;
    Ok(())
}

/// Adds a block: its label on a line of its own, and its instructions.
fn push_block(text: &mut Vec<u8>, block: &Block) -> Result<(), AllocError>
    ensures { OnOk result (text.new.items ≡ text.old.items ++ written (block_pieces block.now)) }
{
    push_label(text, &block.name)?;
    push(text, b"\n")?;
    push_code(text, block.code.as_slice())?;
    Ok(())
}

/// Adds blocks.
fn push_blocks(text: &mut Vec<u8>, blocks: &[Block]) -> Result<(), AllocError>
    ensures { OnOk result (text.new.items ≡ text.old.items ++ written (flat_map block_pieces blocks.now)) }
{
    for block in blocks {
        push_block(text, block)?;
    }
    Ok(())
}

/// Adds a declaration.
fn push_declaration(text: &mut Vec<u8>, function: &Function) -> Result<(), AllocError>
    ensures { OnOk result (text.new.items ≡ text.old.items ++ written (declaration_pieces function.now)) }
{
    push(text, b"declare")?;
    push_head(text, function)?;
    push_param_types(text, function.params.as_slice())?;
    push(text, b")")?;
    push(text, b"\n")?;
    Ok(())
}

/// Adds a definition.
fn push_definition(text: &mut Vec<u8>, function: &Function) -> Result<(), AllocError>
    ensures { OnOk result (text.new.items ≡ text.old.items ++ written (definition_pieces function.now)) }
{
    push(text, b"define")?;
    push_head(text, function)?;
    push_params(text, function.params.as_slice())?;
    push(text, b")")?;
    push(text, b" {\n")?;
    push_blocks(text, function.blocks.as_slice())?;
    push(text, b"}\n")?;
    Ok(())
}

/// Adds a function: a declaration where it has no blocks, and else a definition.
fn push_function(text: &mut Vec<u8>, function: &Function) -> Result<(), AllocError>
    ensures { OnOk result (text.new.items ≡ text.old.items ++ written (function_pieces function.now)) }
{
    if function.blocks.is_empty() {
        push_declaration(text, function)
    } else {
        push_definition(text, function)
    }
}

/// Adds functions.
pub fn push_functions(text: &mut Vec<u8>, functions: &[Function]) -> Result<(), AllocError>
    ensures { OnOk result (text.new.items ≡ text.old.items ++ written (flat_map function_pieces functions.now)) }
{
    for function in functions {
        push_function(text, function)?;
    }
    Ok(())
}

//! Definitions.
ghost use Rattle.ds_grammar.specs.Reading.{Gives, value_at};
ghost use Rattle.ds_grammar.specs.Functions as functions;

use crate::body::body_from;
use crate::parameters::defined_parameters;
use ds_ast::Function;
use ds_grammar::ParseFault;
use ds_parse_parts::{Rest, global, ignored_run, punct, type_of};
use std::alloc::Global;

/// A definition, behind its word.
#[tactic(auto, unfolding(ds_grammar::specs::Functions::define_line))]
pub fn define_line<'a>(alloc: Global, rest: Rest<'a>) -> Result<(Function, Rest<'a>), ParseFault>
    ensures { Gives result (value_at functions.define_line rest.entry) }
{
    let (_, rest) = ignored_run(alloc, rest)?;
    let (ty, rest) = type_of(alloc, true, None, rest)?;
    let (name, rest) = global(alloc, rest)?;
    let rest = punct(b"(", rest)?;
    let (params, rest) = defined_parameters(alloc, rest)?;
    let (_, rest) = ignored_run(alloc, rest)?;
    let rest = punct(b"{", rest)?;
    let (params, counter) = params.into_parts();
    let (body, rest) = body_from(alloc, counter, rest)?;
    let (blocks, rest) = body.ended(rest)?;
    let rest = punct(b"}", rest)?;
    let function = Function {
        name,
        result: ty,
        params,
        blocks,
    };
    Ok((function, rest))
}

//! Declarations.
ghost use Rattle.std.specs.Prelude.{◌≡◌, Some, IfOk};
ghost use Rattle.ds_grammar.specs.Reading.{Gives, Passes, first_value, value_at};
ghost use Rattle.ds_grammar.specs.Sort.{no_value};
ghost use Rattle.ds_grammar.specs.Grammar.{One};
ghost use Rattle.ds_grammar.specs.Rows as rows;
ghost use Rattle.ds_grammar.specs.Functions as functions;
ghost use Rattle.ds_parse_function.specs.Runs as runs;

use crate::names::numbered;
use ds_ast::{Function, List, Name, Param, Scalar};
use ds_grammar::{
    ParseFault, items_take_tokens, optionals_are_read, readings_take_tokens, runs_go_on,
};
use ds_lex::TokenKind;
use ds_parse_parts::{
    Rest, global, ignored_run, is_punct, local_name, punct, scalar, scalar_of, type_of,
};
use std::alloc::{AllocError, Global};

/// What begins the next parameter behind these, if there is one.
pub fn next_parameter(params: &List<Param>, rest: &Rest) -> Option<Option<(Scalar, u32)>>
    ensures { result ≡ first_value (λ t. functions.next_parameter params.now t.kind t.bytes t.at) rest.now.left }
{
    match rest.peek() {
        Some((kind, bytes, at)) => match params.as_slice() {
            [] => match scalar_of(kind, bytes) {
                Some(ty) => Some(Some((ty, at))),
                None => None,
            },
            [_, ..] => {
                if is_punct(b",", kind, bytes) {
                    Some(None)
                } else {
                    None
                }
            }
        },
        None => None,
    }
}

/// The local name that the next token is, if it is one.
fn next_name(alloc: Global, rest: &Rest) -> Result<Option<Name>, AllocError>
    ensures { IfOk result (λ name. name ≡ first_value (λ t. rows.local_name t.kind t.bytes) rest.now.left) }
{
    match rest.peek() {
        Some((kind, bytes, _)) => local_name(alloc, kind, bytes),
        None => Ok(None),
    }
}

/// The name of a parameter, which need not be written.
fn optional_name<'a>(alloc: Global, rest: Rest<'a>) -> Result<(Option<Name>, Rest<'a>), ParseFault>
    ensures { Gives result (value_at runs.optional_name rest.entry) }
{
    optionals_are_read();
    let name = next_name(alloc, &rest)?;
    match name {
        Some(name) => Ok((Some(name), rest.past())),
        None => Ok((None, rest)),
    }
}

/// These parameters with one more, of which the type was read. Its name is dropped, and it takes the next number.
#[tactic(auto, unfolding(crate::specs::Runs::optional_name))]
fn declared_rest<'a>(
    alloc: Global,
    params: List<Param>,
    ty: Scalar,
    rest: Rest<'a>,
) -> Result<(List<Param>, Rest<'a>), ParseFault>
    ensures { Gives result (value_at (functions.declared_more params (Some (ty, 0))) rest.entry) }
{
    let (_, rest) = ignored_run(alloc, rest)?;
    let (_, rest) = optional_name(alloc, rest)?;
    let mut params = params;
    let name = numbered(params.len() as u64);
    params.push(Param { name, ty })?;
    Ok((params, rest))
}

/// One parameter of a declaration more, of which the type or the comma before it was read.
fn declared_more<'a>(
    alloc: Global,
    params: List<Param>,
    ty: Option<(Scalar, u32)>,
    rest: Rest<'a>,
) -> Result<(List<Param>, Rest<'a>), ParseFault>
    ensures { Gives result (value_at (functions.declared_more params ty) rest.entry) }
{
    match ty {
        Some((ty, _)) => declared_rest(alloc, params, ty, rest),
        None => {
            let (ty, rest) = scalar(rest)?;
            declared_rest(alloc, params, ty, rest)
        }
    }
}

/// The parameters of a declaration.
#[tactic(auto, unfolding(ds_grammar::specs::Functions::declared_parameters, crate::specs::Runs::declared_from))]
fn declared_parameters<'a>(
    alloc: Global,
    rest: Rest<'a>,
) -> Result<(List<Param>, Rest<'a>), ParseFault>
    ensures { Gives result (value_at functions.declared_parameters rest.entry) }
{
    runs_go_on();
    items_take_tokens();
    let mut rest = rest;
    let mut params = List::new(alloc);
    while let Some(item) = next_parameter(&params, &rest) {
        let (more, behind) = declared_more(alloc, params, item, rest.past())?;
        params = more;
        rest = behind;
    }
    Ok((params, rest))
}

/// Whether the next token is a name of metadata.
fn is_next_meta(rest: &Rest) -> bool
    ensures { rows.fact result ≡ first_value (λ t. rows.fact (functions.is_meta t.kind)) rest.now.left }
{
    matches!(rest.peek(), Some((TokenKind::Meta, _, _)))
}

/// Any number of pairs of names of metadata.
#[tactic(auto, unfolding(ds_grammar::specs::Functions::metadata_pairs))]
fn metadata_pairs<'a>(rest: Rest<'a>) -> Result<Rest<'a>, ParseFault>
    ensures { Passes result (value_at functions.metadata_pairs rest.entry) }
{
    runs_go_on();
    readings_take_tokens();
    let mut rest = rest;
    while is_next_meta(&rest) {
        rest = metadata_name(rest.past())?;
    }
    Ok(rest)
}

/// A name of metadata.
fn metadata_name<'a>(rest: Rest<'a>) -> Result<Rest<'a>, ParseFault>
    ensures { Passes result (value_at (One {a = no_value} (λ t. rows.fact (functions.is_meta t.kind))) rest.entry) }
{
    if is_next_meta(&rest) {
        Ok(rest.past())
    } else {
        Err(rest.stopped())
    }
}

/// A declaration, behind its word.
#[tactic(auto, unfolding(ds_grammar::specs::Functions::declare_line))]
pub fn declare_line<'a>(alloc: Global, rest: Rest<'a>) -> Result<(Function, Rest<'a>), ParseFault>
    ensures { Gives result (value_at functions.declare_line rest.entry) }
{
    let rest = metadata_pairs(rest)?;
    let (_, rest) = ignored_run(alloc, rest)?;
    let (result_type, rest) = type_of(alloc, true, None, rest)?;
    let (name, rest) = global(alloc, rest)?;
    let rest = punct(b"(", rest)?;
    let (params, rest) = declared_parameters(alloc, rest)?;
    let rest = punct(b")", rest)?;
    let (_, rest) = ignored_run(alloc, rest)?;
    let function = Function {
        name,
        result: result_type,
        params,
        blocks: List::new(alloc),
    };
    Ok((function, rest))
}

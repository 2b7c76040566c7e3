//! Calls.
ghost use Rattle.std.specs.Prelude.{◌≡◌};
ghost use Rattle.std.specs.Option.{option_to_list};
ghost use Rattle.ds_grammar.specs.Reading.{Gives, first_value, value_at};
ghost use Rattle.ds_grammar.specs.Instructions as instructions;

use crate::trails::is_empty;
use ds_ast::{Op, Operand, Ops, Scalar};
use ds_grammar::{Mark, ParseFault, items_take_tokens, runs_go_on};
use ds_lex::TokenKind;
use ds_parse_parts::{
    Rest, endings, global, ignored_run, is_punct, punct, scalar, scalar_of, type_of, value,
};
use std::alloc::Global;

/// What begins an argument, if a token does: its type where it is the first one, and a comma before each other.
fn argument_item(first: bool, kind: TokenKind, bytes: &[u8]) -> Option<Option<Scalar>>
    ensures { result ≡ instructions.next_argument first kind bytes.now }
{
    if first {
        match scalar_of(kind, bytes) {
            Some(ty) => Some(Some(ty)),
            None => None,
        }
    } else if is_punct(b",", kind, bytes) {
        Some(None)
    } else {
        None
    }
}

/// What begins the next argument behind these, if there is one.
fn next_argument(arguments: &Ops<Operand>, rest: &Rest) -> Option<Option<Scalar>>
    ensures { result ≡ first_value
        (λ t. instructions.next_argument (instructions.is_empty arguments.now) t.kind t.bytes) rest.now.left }
{
    let first = is_empty(arguments);
    match rest.peek() {
        Some((kind, bytes, _)) => argument_item(first, kind, bytes),
        None => None,
    }
}

/// The value of an argument, behind its type.
#[tactic(auto, unfolding(ds_grammar::specs::Instructions::argument_value))]
fn argument_value<'a>(
    alloc: Global,
    arguments: Ops<Operand>,
    ty: Scalar,
    rest: Rest<'a>,
) -> Result<(Ops<Operand>, Rest<'a>), ParseFault>
    ensures { Gives result (value_at (instructions.argument_value arguments ty) rest.entry) }
{
    let (_, rest) = ignored_run(alloc, rest)?;
    let (value, rest) = value(alloc, ty, rest)?;
    let mut arguments = arguments;
    arguments.push(Operand { ty, value })?;
    Ok((arguments, rest))
}

/// The rest of an argument, of which the type or the comma before it was read.
fn argument_rest<'a>(
    alloc: Global,
    arguments: Ops<Operand>,
    ty: Option<Scalar>,
    rest: Rest<'a>,
) -> Result<(Ops<Operand>, Rest<'a>), ParseFault>
    ensures { Gives result (value_at (instructions.argument_rest arguments ty) rest.entry) }
{
    match ty {
        Some(ty) => argument_value(alloc, arguments, ty, rest),
        None => {
            let (ty, rest) = scalar(rest)?;
            argument_value(alloc, arguments, ty, rest)
        }
    }
}

/// Arguments with commas between them, maybe none.
#[tactic(auto, unfolding(ds_grammar::specs::Instructions::arguments_from))]
fn arguments<'a>(alloc: Global, rest: Rest<'a>) -> Result<(Ops<Operand>, Rest<'a>), ParseFault>
    ensures { Gives result (value_at instructions.arguments rest.entry) }
{
    runs_go_on();
    items_take_tokens();
    let mut rest = rest;
    let mut arguments = Ops::new(alloc);
    while let Some(item) = next_argument(&arguments, &rest) {
        let (more, behind) = argument_rest(alloc, arguments, item, rest.past())?;
        arguments = more;
        rest = behind;
    }
    Ok((arguments, rest))
}

/// A call, behind its word. Where its result is named, its type is not `void`; else a type that is not takes a
/// number, with this mark.
#[tactic(auto, unfolding(ds_grammar::specs::Instructions::call_row))]
pub fn call_row<'a>(
    alloc: Global,
    named: bool,
    mark: Option<Mark>,
    rest: Rest<'a>,
) -> Result<(Op, Rest<'a>), ParseFault>
    ensures { Gives result (value_at (instructions.call_row named (option_to_list mark)) rest.entry) }
{
    let (_, rest) = ignored_run(alloc, rest)?;
    let (ty, rest) = type_of(alloc, !named, mark, rest)?;
    let (callee, rest) = global(alloc, rest)?;
    let rest = punct(b"(", rest)?;
    let (args, rest) = arguments(alloc, rest)?;
    let rest = punct(b")", rest)?;
    let (_, rest) = ignored_run(alloc, rest)?;
    let (_, rest) = endings(rest)?;
    let op = Op::Call {
        result: ty,
        callee,
        args,
    };
    Ok((op, rest))
}

//! Single tokens of a form.
ghost use Rattle.std.specs.Prelude.{◌≡◌, IfOk};
ghost use Rattle.ds_grammar.specs.Reading.{Gives, Passes, value_at};
ghost use Rattle.ds_grammar.specs.Rows as rows;

use crate::literals::{token_name, value_of};
use crate::rest::Rest;
use crate::words::scalar_of;
use ds_ast::{Name, Scalar, Value};
use ds_grammar::{ParseFault, optionals_are_read};
use ds_lex::TokenKind;
use std::alloc::{AllocError, Global};

/// The type of a register.
#[tactic(auto, unfolding(ds_grammar::specs::Rows::scalar))]
pub fn scalar<'a>(rest: Rest<'a>) -> Result<(Scalar, Rest<'a>), ParseFault>
    ensures { Gives result (value_at rows.scalar rest.entry) }
{
    let read = match rest.peek() {
        Some((kind, bytes, _)) => scalar_of(kind, bytes),
        None => None,
    };
    rest.take(read)
}

/// Whether a token is this bracket, comma or `=`.
pub fn is_punct(spelled: &[u8], kind: TokenKind, bytes: &[u8]) -> bool
    ensures { result ≡ rows.is_punct spelled.now kind bytes.now }
{
    matches!(kind, TokenKind::Punct) && bytes == spelled
}

/// This bracket, comma or `=`.
pub fn punct<'a>(spelled: &[u8], rest: Rest<'a>) -> Result<Rest<'a>, ParseFault>
    ensures { Passes result (value_at (rows.punct_of spelled.now) rest.entry) }
{
    let found = match rest.peek() {
        Some((kind, bytes, _)) => is_punct(spelled, kind, bytes),
        None => false,
    };
    if found {
        Ok(rest.past())
    } else {
        Err(rest.stopped())
    }
}

/// A number, whose value means nothing.
pub fn any_number<'a>(rest: Rest<'a>) -> Result<Rest<'a>, ParseFault>
    ensures { Passes result (value_at rows.any_number rest.entry) }
{
    let found = match rest.peek() {
        Some((kind, _, _)) => matches!(kind, TokenKind::Number),
        None => false,
    };
    if found {
        Ok(rest.past())
    } else {
        Err(rest.stopped())
    }
}

/// The name of a local value, if a token is one.
pub fn local_name(alloc: Global, kind: TokenKind, bytes: &[u8]) -> Result<Option<Name>, AllocError>
    ensures { IfOk result (λ name. name ≡ rows.local_name kind bytes.now) }
{
    match kind {
        TokenKind::Local => token_name(alloc, bytes),
        _ => Ok(None),
    }
}

/// The result of an instruction, which need not be written.
#[tactic(auto, unfolding(ds_grammar::specs::Rows::result_name))]
pub fn result_name<'a>(
    alloc: Global,
    rest: Rest<'a>,
) -> Result<(Option<Name>, Rest<'a>), ParseFault>
    ensures { Gives result (value_at rows.result_name rest.entry) }
{
    optionals_are_read();
    let name = match rest.peek() {
        Some((kind, bytes, _)) => local_name(alloc, kind, bytes)?,
        None => None,
    };
    match name {
        Some(name) => {
            let rest = punct(b"=", rest.past())?;
            Ok((Some(name), rest))
        }
        None => Ok((None, rest)),
    }
}

/// A value of this type.
#[tactic(auto, unfolding(ds_grammar::specs::Rows::value))]
pub fn value<'a>(alloc: Global, ty: Scalar, rest: Rest<'a>) -> Result<(Value, Rest<'a>), ParseFault>
    ensures { Gives result (value_at (rows.value ty) rest.entry) }
{
    let read = match rest.peek() {
        Some((kind, bytes, at)) => value_of(alloc, ty, kind, bytes, at)?,
        None => None,
    };
    let ((value, mark), rest) = rest.take(read)?;
    Ok((value, rest.marked(mark)))
}

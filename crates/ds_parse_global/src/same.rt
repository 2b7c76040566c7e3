//! A type that is written again.
ghost use Rattle.std.specs.Prelude.{◌≡◌, IfOk};
ghost use Rattle.ds_grammar.specs.Reading.{Passes, first_value, value_at};
ghost use Rattle.ds_grammar.specs.Rows as rows;
ghost use Rattle.ds_grammar.specs.Globals as globals;
ghost use Rattle.ds_parse_global.specs.Same as same;

use crate::structs::is_name;
use ds_ast::{Name, Ty};
use ds_grammar::ParseFault;
use ds_lex::{TokenKind, number_of};
use ds_parse_parts::{Rest, is_punct, local_name, punct, scalar_word, word};
use std::alloc::{AllocError, Global};

/// Whether a token is this word.
fn is_word(spelled: &[u8], kind: TokenKind, bytes: &[u8]) -> bool
    ensures { result ≡ rows.is_word spelled.now kind bytes.now }
{
    matches!(kind, TokenKind::Word) && bytes == spelled
}

/// Whether a token is this local name.
fn is_local(alloc: Global, name: &Name, kind: TokenKind, bytes: &[u8]) -> Result<bool, AllocError>
    ensures { IfOk result (λ found. found ≡ globals.is_local name.now kind bytes.now) }
{
    match local_name(alloc, kind, bytes)? {
        Some(found) => Ok(is_name(&found, name)),
        None => Ok(false),
    }
}

/// Whether a token is the first of this type.
pub fn is_type_front(
    alloc: Global,
    ty: &Ty,
    kind: TokenKind,
    bytes: &[u8],
) -> Result<bool, AllocError>
    ensures { IfOk result (λ found. found ≡ globals.is_type_front ty.now kind bytes.now) }
{
    match ty {
        Ty::Void => Ok(is_word(b"void", kind, bytes)),
        Ty::One(scalar) => Ok(is_word(scalar_word(*scalar), kind, bytes)),
        Ty::Array { .. } => Ok(is_punct(b"[", kind, bytes)),
        Ty::Struct(name) => is_local(alloc, name, kind, bytes),
    }
}

/// Whether the next token is the first of this type.
fn is_next_front(alloc: Global, ty: &Ty, rest: &Rest) -> Result<bool, AllocError>
    ensures { IfOk result
        (λ found. rows.fact found
        ≡ first_value (λ t. rows.fact (globals.is_type_front ty.now t.kind t.bytes)) rest.now.left) }
{
    match rest.peek() {
        Some((kind, bytes, _)) => is_type_front(alloc, ty, kind, bytes),
        None => Ok(false),
    }
}

/// The first token of this type.
fn type_front<'a>(alloc: Global, ty: &Ty, rest: Rest<'a>) -> Result<Rest<'a>, ParseFault>
    ensures { Passes result (value_at (same.type_front ty.now) rest.entry) }
{
    if is_next_front(alloc, ty, &rest)? {
        Ok(rest.past())
    } else {
        Err(rest.stopped())
    }
}

/// Whether a token is this count.
fn is_count(count: u32, kind: TokenKind, bytes: &[u8]) -> bool
    ensures { rows.fact result ≡ globals.is_count count kind bytes.now }
{
    match kind {
        TokenKind::Number => match number_of(bytes) {
            Some(number) => number == count as u64,
            None => false,
        },
        _ => false,
    }
}

/// This count.
fn same_count<'a>(count: u32, rest: Rest<'a>) -> Result<Rest<'a>, ParseFault>
    ensures { Passes result (value_at (same.same_count count) rest.entry) }
{
    let found = match rest.peek() {
        Some((kind, bytes, _)) => is_count(count, kind, bytes),
        None => false,
    };
    if found {
        Ok(rest.past())
    } else {
        Err(rest.stopped())
    }
}

/// The rest of this type, of which the first token was read.
pub fn same_rest<'a>(alloc: Global, ty: &Ty, rest: Rest<'a>) -> Result<Rest<'a>, ParseFault>
    ensures { Passes result (value_at (globals.same_rest ty.now) rest.entry) }
{
    match ty {
        Ty::Void | Ty::One(_) | Ty::Struct(_) => Ok(rest),
        Ty::Array { count, of } => {
            let rest = same_count(*count, rest)?;
            let rest = word(b"x", rest)?;
            let of = of.get();
            let rest = type_front(alloc, of, rest)?;
            let rest = same_rest(alloc, of, rest)?;
            punct(b"]", rest)
        }
    }
}

/// The same type again.
pub fn same_type<'a>(alloc: Global, ty: &Ty, rest: Rest<'a>) -> Result<Rest<'a>, ParseFault>
    ensures { Passes result (value_at (globals.same_type ty.now) rest.entry) }
{
    let rest = type_front(alloc, ty, rest)?;
    same_rest(alloc, ty, rest)
}

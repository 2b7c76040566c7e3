//! Operands, and the words around them.
ghost use Rattle.std.specs.Prelude.{◌≡◌, IfOk};
ghost use Rattle.ds_grammar.specs.Reading.{Gives, Passes, first_value, value_at};
ghost use Rattle.ds_grammar.specs.Rows as rows;
ghost use Rattle.ds_grammar.specs.Instructions as instructions;

use crate::literals::token_name;
use crate::parts::{local_name, value};
use crate::rest::Rest;
use ds_ast::{Name, Scalar, Value};
use ds_grammar::{ParseFault, optionals_are_read};
use ds_lex::TokenKind;
use std::alloc::{AllocError, Global};

/// Whether the next token is this word.
pub fn is_next_word(spelled: &[u8], rest: &Rest) -> bool
    ensures { rows.fact result ≡ first_value (λ t. rows.fact (rows.is_word spelled.now t.kind t.bytes)) rest.now.left }
{
    match rest.peek() {
        Some((TokenKind::Word, bytes, _)) => bytes == spelled,
        _ => false,
    }
}

/// This word.
pub fn word<'a>(spelled: &[u8], rest: Rest<'a>) -> Result<Rest<'a>, ParseFault>
    ensures { Passes result (value_at (rows.word_spelled spelled.now) rest.entry) }
{
    if is_next_word(spelled, &rest) {
        Ok(rest.past())
    } else {
        Err(rest.stopped())
    }
}

/// The word of a type.
pub fn scalar_word(ty: Scalar) -> &'static [u8]
    ensures { result.now ≡ instructions.scalar_word ty }
{
    match ty {
        Scalar::I1 => b"i1",
        Scalar::I8 => b"i8",
        Scalar::I16 => b"i16",
        Scalar::I32 => b"i32",
        Scalar::I64 => b"i64",
        Scalar::Ptr => b"ptr",
    }
}

/// The same type as before.
#[tactic(auto, unfolding(ds_grammar::specs::Instructions::same_scalar))]
pub fn same_scalar<'a>(ty: Scalar, rest: Rest<'a>) -> Result<Rest<'a>, ParseFault>
    ensures { Passes result (value_at (instructions.same_scalar ty) rest.entry) }
{
    word(scalar_word(ty), rest)
}

/// This type, and a value of it.
#[tactic(auto, unfolding(ds_grammar::specs::Instructions::typed_value))]
pub fn typed_value<'a>(
    alloc: Global,
    ty: Scalar,
    rest: Rest<'a>,
) -> Result<(Value, Rest<'a>), ParseFault>
    ensures { Gives result (value_at (instructions.typed_value ty) rest.entry) }
{
    let rest = same_scalar(ty, rest)?;
    value(alloc, ty, rest)
}

/// The name of a local value.
#[tactic(auto, unfolding(ds_grammar::specs::Instructions::local))]
pub fn local<'a>(alloc: Global, rest: Rest<'a>) -> Result<(Name, Rest<'a>), ParseFault>
    ensures { Gives result (value_at instructions.local rest.entry) }
{
    let read = match rest.peek() {
        Some((kind, bytes, _)) => local_name(alloc, kind, bytes)?,
        None => None,
    };
    rest.take(read)
}

/// The name of a global, if a token is one.
fn global_name(alloc: Global, kind: TokenKind, bytes: &[u8]) -> Result<Option<Name>, AllocError>
    ensures { IfOk result (λ name. name ≡ instructions.global_name kind bytes.now) }
{
    match kind {
        TokenKind::Global => token_name(alloc, bytes),
        _ => Ok(None),
    }
}

/// The name of a global.
#[tactic(auto, unfolding(ds_grammar::specs::Instructions::global))]
pub fn global<'a>(alloc: Global, rest: Rest<'a>) -> Result<(Name, Rest<'a>), ParseFault>
    ensures { Gives result (value_at instructions.global rest.entry) }
{
    let read = match rest.peek() {
        Some((kind, bytes, _)) => global_name(alloc, kind, bytes)?,
        None => None,
    };
    rest.take(read)
}

/// `label`, and the name of a block.
#[tactic(auto, unfolding(ds_grammar::specs::Instructions::target))]
pub fn target<'a>(alloc: Global, rest: Rest<'a>) -> Result<(Name, Rest<'a>), ParseFault>
    ensures { Gives result (value_at instructions.target rest.entry) }
{
    let rest = word(b"label", rest)?;
    local(alloc, rest)
}

/// `atomic`, which need not be written.
#[tactic(auto, unfolding(ds_grammar::specs::Instructions::optional_atomic))]
pub fn optional_atomic<'a>(rest: Rest<'a>) -> Result<(Option<()>, Rest<'a>), ParseFault>
    ensures { Gives result (value_at instructions.optional_atomic rest.entry) }
{
    optionals_are_read();
    if is_next_word(b"atomic", &rest) {
        Ok((Some(()), rest.past()))
    } else {
        Ok((None, rest))
    }
}

//! What initialisers begin with.
ghost use Rattle.std.specs.Prelude.{◌≡◌, IfOk, option_map, drop, true};
ghost use Rattle.ds_ast.specs.Bounds as bounds;
ghost use Rattle.ds_grammar.specs.Reading.{Gives, value_at};
ghost use Rattle.ds_grammar.specs.Globals as globals;
ghost use Rattle.ds_grammar.specs.Texts as texts;
ghost use Rattle.ds_grammar.specs.Tokens as tokens;
ghost use Rattle.ds_grammar.specs.declared.item.InitHead.TheVariants as variant;
ghost use Rattle.ds_parse_global.specs.Heads as heads;

use crate::structs::Structs;
use ds_ast::{Bytes, Init, List, Scalar, Ty, Value};
use ds_grammar::{Bound, Breach, InitHead, Mark, ParseFault};
use ds_lex::TokenKind;
use ds_parse_parts::{Rest, is_punct, range_mark, text_of, value_of};
use std::alloc::{AllocError, Global};

/// The type of each element in square brackets behind a type, where there may be some.
pub fn element_type(ty: &Ty) -> Option<&Ty>
    ensures { option_map (λ of. of.now) result ≡ bounds.element_type ty.now }
{
    match ty {
        Ty::Array { of, .. } => Some(of.get()),
        _ => None,
    }
}

/// The types of the elements in curly brackets behind a type, where such brackets may stand.
pub fn field_types<'a>(structs: &'a Structs, ty: &Ty) -> Option<&'a [Ty]>
    ensures { option_map (λ types. types.now) result ≡ bounds.field_types structs.now ty.now }
{
    match ty {
        Ty::Struct(name) => structs.fields(name),
        _ => Some(&[]),
    }
}

/// The type that literals behind a type are read as.
fn literal_type(ty: &Ty) -> Scalar
    ensures { result ≡ globals.literal_type ty.now }
{
    match ty {
        Ty::One(scalar) => *scalar,
        _ => Scalar::Ptr,
    }
}

/// The value that a token is, if it is one and no local one, with the mark of its range.
fn constant(
    alloc: Global,
    ty: &Ty,
    kind: TokenKind,
    bytes: &[u8],
    at: u32,
) -> Result<Option<(Value, Mark)>, AllocError>
    ensures { IfOk result (λ found. found ≡ globals.constant ty.now kind bytes.now at) }
{
    match kind {
        TokenKind::Local => Ok(None),
        _ => value_of(alloc, literal_type(ty), kind, bytes, at),
    }
}

/// Whether a type is `i8`.
fn is_byte(ty: &Ty) -> bool
    ensures { result ≡ globals.is_byte ty.now }
{
    matches!(ty, Ty::One(Scalar::I8))
}

/// Whether the elements of a type are bytes.
fn has_bytes(ty: &Ty) -> bool
    ensures { result ≡ globals.is_bytes (bounds.element_type ty.now) }
{
    match element_type(ty) {
        Some(of) => is_byte(of),
        None => false,
    }
}

/// The text that a token is, behind its `c`.
fn text_head(alloc: Global, bytes: &[u8], at: u32) -> Result<(InitHead, Mark), AllocError>
    ensures { IfOk result
        (λ head. head ≡ (variant.Bytes (texts.text_of (drop 1 bytes.now)), tokens.range_mark at true)) }
{
    let text = match bytes {
        [] => Vec::new(alloc),
        [_, text @ ..] => text_of(alloc, text)?,
    };
    Ok((InitHead::Bytes(Bytes::from_vec(text)), range_mark(at, true)))
}

/// The value that an initialiser is, if a token is one.
fn value_head(
    alloc: Global,
    ty: &Ty,
    kind: TokenKind,
    bytes: &[u8],
    at: u32,
) -> Result<Option<(InitHead, Mark)>, AllocError>
    ensures { IfOk result
        (λ head. head ≡ option_map (λ found. (variant.Word found.0, found.1))
        (globals.constant ty.now kind bytes.now at)) }
{
    match constant(alloc, ty, kind, bytes, at)? {
        Some((value, mark)) => Ok(Some((InitHead::Word(value), mark))),
        None => Ok(None),
    }
}

/// What an initialiser of a type begins with, if a token does, with the mark of a literal's range.
fn init_head(
    alloc: Global,
    structs: &Structs,
    ty: &Ty,
    kind: TokenKind,
    bytes: &[u8],
    at: u32,
) -> Result<Option<(InitHead, Mark)>, AllocError>
    ensures { IfOk result (λ head. head ≡ globals.init_head structs.now ty.now kind bytes.now at) }
{
    match kind {
        TokenKind::CText => {
            if has_bytes(ty) {
                Ok(Some(text_head(alloc, bytes, at)?))
            } else {
                Ok(None)
            }
        }
        TokenKind::Punct => {
            if is_punct(b"[", TokenKind::Punct, bytes) {
                Ok(Some((InitHead::Array, range_mark(at, true))))
            } else if is_punct(b"{", TokenKind::Punct, bytes)
                && field_types(structs, ty).is_some()
            {
                Ok(Some((InitHead::Fields, range_mark(at, true))))
            } else {
                Ok(None)
            }
        }
        TokenKind::Word => {
            if bytes == b"zeroinitializer".as_slice() {
                Ok(Some((InitHead::Zero, range_mark(at, true))))
            } else {
                value_head(alloc, ty, TokenKind::Word, bytes, at)
            }
        }
        _ => value_head(alloc, ty, kind, bytes, at),
    }
}

/// The first token of an initialiser of a type, with the mark of a literal's range.
pub fn head<'a>(
    alloc: Global,
    structs: &Structs,
    ty: &Ty,
    rest: Rest<'a>,
) -> Result<((InitHead, Mark), Rest<'a>), ParseFault>
    ensures { Gives result (value_at (heads.head structs.now ty.now) rest.entry) }
{
    let read = match rest.peek() {
        Some((kind, bytes, at)) => init_head(alloc, structs, ty, kind, bytes, at)?,
        None => None,
    };
    rest.take(read)
}

/// Bytes as the elements of an array.
pub fn array_of_bytes(alloc: Global, bytes: &Bytes) -> Result<Init, AllocError>
    ensures { IfOk result (λ init. init ≡ globals.array_of_bytes bytes.now) }
{
    let mut parts = List::new(alloc);
    for byte in bytes.as_slice() {
        parts.push(Init::Word(Value::Int(*byte as u64)))?;
    }
    Ok(Init::Array(parts))
}

/// What stands behind the first token of an initialiser, which stands at `at`, where no bracket more may be open.
pub fn init_leaf<'a>(
    at: u32,
    head: InitHead,
    rest: Rest<'a>,
) -> Result<(Init, Rest<'a>), ParseFault>
    ensures { Gives result (value_at (globals.init_leaf at head) rest.entry) }
{
    match head {
        InitHead::Zero => Ok((Init::Zero, rest)),
        InitHead::Word(value) => Ok((Init::Word(value), rest)),
        InitHead::Bytes(_) | InitHead::Array | InitHead::Fields => {
            let breach = Breach {
                bound: Bound::Depth,
                at,
            };
            let rest = rest.marked(Mark {
                breach,
                within: false,
            });
            Err(rest.stopped())
        }
    }
}

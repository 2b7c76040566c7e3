//! Names and literals.
ghost use Rattle.std.specs.Prelude.{◌≡◌, ◌-◌, ◌%◌, ◌^◌, IfOk, option_map};
ghost use Rattle.ds_grammar.specs.Tokens as spec;

use crate::texts::text_of;
use crate::words::are_digits;
use ds_ast::{Bytes, Name, Scalar, Value};
use ds_grammar::{Bound, Breach, Mark};
use ds_lex::{TokenKind, number_of};
use std::alloc::{AllocError, Global};

/// The name that stands behind `%` or `@`, if it is one.
#[tactic(auto, unfolding(ds_grammar::specs::Tokens::name_of))]
pub fn name_of(alloc: Global, bytes: &[u8]) -> Result<Option<Name>, AllocError>
    ensures { IfOk result (λ name. name ≡ spec.name_of bytes.now) }
{
    if are_digits(bytes) {
        match number_of(bytes) {
            Some(number) if number < 1 << 32 => Ok(Some(Name::Number(number as u32))),
            _ => Ok(None),
        }
    } else if is_text(bytes) {
        let bytes = text_of(alloc, bytes)?;
        Ok(Some(Name::Text(Bytes::from_vec(bytes))))
    } else {
        let bytes = Vec::from_slice(alloc, bytes)?;
        Ok(Some(Name::Text(Bytes::from_vec(bytes))))
    }
}

/// Whether the bytes are a text.
fn is_text(bytes: &[u8]) -> bool
    ensures { result ≡ spec.is_text bytes.now }
{
    match bytes {
        [] => false,
        [first, ..] => *first == b'"',
    }
}

/// The name of a token that begins with `%` or `@`, if it has one.
pub fn token_name(alloc: Global, bytes: &[u8]) -> Result<Option<Name>, AllocError>
    ensures { IfOk result (λ name. name ≡ spec.token_name bytes.now) }
{
    match bytes {
        [] => Ok(None),
        [_, name @ ..] => name_of(alloc, name),
    }
}

/// The greatest literal of a type.
fn greatest(ty: Scalar) -> u64
    ensures { result ≡ 2 ^ spec.width_of ty - 1 }
{
    match ty {
        Scalar::I1 => 1,
        Scalar::I8 => 255,
        Scalar::I16 => 65_535,
        Scalar::I32 => 4_294_967_295,
        Scalar::I64 | Scalar::Ptr => 18_446_744_073_709_551_615,
    }
}

/// The least literal of a type, modulo 2^64.
fn least(ty: Scalar) -> u64
    ensures { result ≡ 2 ^ 64 - 2 ^ (spec.width_of ty - 1) }
{
    match ty {
        Scalar::I1 => 18_446_744_073_709_551_615,
        Scalar::I8 => 18_446_744_073_709_551_488,
        Scalar::I16 => 18_446_744_073_709_518_848,
        Scalar::I32 => 18_446_744_071_562_067_968,
        Scalar::I64 | Scalar::Ptr => 9_223_372_036_854_775_808,
    }
}

/// Whether a literal, given modulo 2^64, is in the range of its type.
#[tactic(auto, unfolding(ds_grammar::specs::Tokens::fits_width))]
pub fn fits_type(ty: Scalar, bytes: &[u8], number: u64) -> bool
    ensures { result ≡ spec.fits_type ty bytes.now number }
{
    if matches!(ty, Scalar::Ptr) {
        return true;
    }
    match bytes {
        [b'-', ..] => number == 0 || least(ty) <= number,
        _ => number <= greatest(ty),
    }
}

/// A number, given modulo 2^64, as it is kept in a type.
pub fn kept(ty: Scalar, number: u64) -> u64
    ensures { result ≡ number % 2 ^ spec.width_of ty }
{
    match ty {
        Scalar::I1 => number % 2,
        Scalar::I8 => number % 256,
        Scalar::I16 => number % 65_536,
        Scalar::I32 => number % 4_294_967_296,
        Scalar::I64 | Scalar::Ptr => number,
    }
}

/// The mark of a range at a place.
pub fn range_mark(at: u32, within: bool) -> Mark
    ensures { result ≡ spec.range_mark at within }
{
    Mark {
        breach: Breach {
            bound: Bound::Range,
            at,
        },
        within,
    }
}

/// The value that a word is, with the mark of its range.
fn word_value(ty: Scalar, bytes: &[u8], at: u32) -> Option<(Value, Mark)>
    ensures { result ≡ option_map (spec.with_range at) (spec.lookup (spec.value_words ty) bytes.now) }
{
    let is_truth = matches!(ty, Scalar::I1);
    if bytes == b"true".as_slice() {
        Some((Value::Int(1), range_mark(at, is_truth)))
    } else if bytes == b"false".as_slice() {
        Some((Value::Int(0), range_mark(at, is_truth)))
    } else if bytes == b"null".as_slice() {
        Some((Value::Null, range_mark(at, true)))
    } else if bytes == b"undef".as_slice() {
        Some((Value::Undef, range_mark(at, true)))
    } else {
        None
    }
}

/// The value of a type that a token is, with the mark of its range.
pub fn value_of(
    alloc: Global,
    ty: Scalar,
    kind: TokenKind,
    bytes: &[u8],
    at: u32,
) -> Result<Option<(Value, Mark)>, AllocError>
    ensures { IfOk result (λ found. found ≡ spec.value_of ty kind bytes.now at) }
{
    match kind {
        TokenKind::Number => match number_of(bytes) {
            Some(number) => {
                let mark = range_mark(at, fits_type(ty, bytes, number));
                Ok(Some((Value::Int(kept(ty, number)), mark)))
            }
            None => Ok(None),
        },
        TokenKind::Word => Ok(word_value(ty, bytes, at)),
        TokenKind::Local => match token_name(alloc, bytes)? {
            Some(name) => Ok(Some((Value::Local(name), range_mark(at, true)))),
            None => Ok(None),
        },
        TokenKind::Global => match token_name(alloc, bytes)? {
            Some(name) => Ok(Some((Value::Global(name), range_mark(at, true)))),
            None => Ok(None),
        },
        _ => Ok(None),
    }
}

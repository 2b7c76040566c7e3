//! Initialisers.
ghost use Rattle.std.specs.Prelude.{◌≡◌, IfOk, slice_get};
ghost use Rattle.std.specs.Option.{option_copied};
ghost use Rattle.ds_ast.specs.Bounds as bounds;
ghost use Rattle.ds_grammar.specs.Reading.{Gives, Passes, first_value, value_at};
ghost use Rattle.ds_grammar.specs.Globals as globals;

use crate::heads::{array_of_bytes, element_type, field_types, head, init_leaf};
use crate::same::{is_type_front, same_rest, same_type};
use crate::structs::Structs;
use ds_ast::{Init, List, Ty};
use ds_grammar::{InitHead, ParseFault, readings_take_tokens, runs_go_on};
use ds_lex::TokenKind;
use ds_parse_parts::{Rest, is_punct, punct};
use std::alloc::{AllocError, Global};

/// Whether a token begins an element behind these, of this type: the type where it is the first one, which is then
/// `true`, and a comma before each other.
fn element_item(
    alloc: Global,
    parts: &[Init],
    ty: Option<&Ty>,
    kind: TokenKind,
    bytes: &[u8],
) -> Result<Option<bool>, AllocError>
    ensures { IfOk result (λ item. item ≡ globals.next_element parts.now (option_copied ty.entry) kind bytes.now) }
{
    match parts {
        [] => match ty {
            Some(ty) => {
                if is_type_front(alloc, ty, kind, bytes)? {
                    Ok(Some(true))
                } else {
                    Ok(None)
                }
            }
            None => Ok(None),
        },
        [_, ..] => {
            if is_punct(b",", kind, bytes) {
                Ok(Some(false))
            } else {
                Ok(None)
            }
        }
    }
}

/// Whether the next token begins an element behind these, of this type, and whether it is the first one.
fn next_element(
    alloc: Global,
    parts: &List<Init>,
    ty: Option<&Ty>,
    rest: &Rest,
) -> Result<Option<bool>, AllocError>
    ensures { IfOk result
        (λ item. item ≡ first_value
        (λ u. globals.next_element parts.now (option_copied ty.entry) u.kind u.bytes) rest.now.left) }
{
    match rest.peek() {
        Some((kind, bytes, _)) => element_item(alloc, parts.as_slice(), ty, kind, bytes),
        None => Ok(None),
    }
}

/// The type of an element, of which the first token was read where it is the first one.
fn element_type_rest<'a>(
    alloc: Global,
    is_first: bool,
    ty: &Ty,
    rest: Rest<'a>,
) -> Result<Rest<'a>, ParseFault>
    ensures { Passes result (value_at (globals.element_type_rest is_first ty.now) rest.entry) }
{
    if is_first {
        same_rest(alloc, ty, rest)
    } else {
        same_type(alloc, ty, rest)
    }
}

/// The elements with one more of this type.
#[cycle(initialiser)]
fn one_element<'a>(
    alloc: Global,
    structs: &Structs,
    left: u32,
    parts: List<Init>,
    is_first: bool,
    ty: Option<&Ty>,
    rest: Rest<'a>,
) -> Result<(List<Init>, Rest<'a>), ParseFault>
    ensures { Gives result
        (value_at (globals.one_element (globals.initialiser structs.now left) parts is_first (option_copied ty.entry))
        rest.entry) }
{
    match ty {
        Some(ty) => {
            let mut parts = parts;
            let rest = element_type_rest(alloc, is_first, ty, rest)?;
            let (init, rest) = initialiser(alloc, structs, left, ty, rest)?;
            parts.push(init)?;
            Ok((parts, rest))
        }
        None => Err(rest.stopped()),
    }
}

/// The elements of an array, each of this type.
#[cycle(initialiser)]
#[tactic(auto, unfolding(ds_grammar::specs::Globals::elements))]
fn elements<'a>(
    alloc: Global,
    structs: &Structs,
    left: u32,
    ty: Option<&Ty>,
    rest: Rest<'a>,
) -> Result<(List<Init>, Rest<'a>), ParseFault>
    ensures { Gives result
        (value_at (globals.elements (globals.initialiser structs.now left) (option_copied ty.entry)) rest.entry) }
{
    runs_go_on();
    readings_take_tokens();
    let mut rest = rest;
    let mut parts = List::new(alloc);
    while let Some(is_first) = next_element(alloc, &parts, ty, &rest)? {
        let (more, behind) = one_element(alloc, structs, left, parts, is_first, ty, rest.past())?;
        parts = more;
        rest = behind;
    }
    Ok((parts, rest))
}

/// The fields of a struct, each of the type at its place.
#[cycle(initialiser)]
#[tactic(auto, unfolding(ds_grammar::specs::Globals::fields))]
fn fields<'a>(
    alloc: Global,
    structs: &Structs,
    left: u32,
    types: &[Ty],
    rest: Rest<'a>,
) -> Result<(List<Init>, Rest<'a>), ParseFault>
    ensures { Gives result (value_at (globals.fields (globals.initialiser structs.now left) types.now) rest.entry) }
{
    runs_go_on();
    readings_take_tokens();
    let mut rest = rest;
    let mut parts = List::new(alloc);
    while let Some(is_first) = next_element(alloc, &parts, field_at(types, parts.len()), &rest)? {
        let ty = field_at(types, parts.len());
        let (more, behind) = one_element(alloc, structs, left, parts, is_first, ty, rest.past())?;
        parts = more;
        rest = behind;
    }
    Ok((parts, rest))
}

/// The type of the field behind so many, if there is one.
fn field_at(types: &[Ty], n: usize) -> Option<&Ty>
    ensures { option_copied result ≡ globals.field_at types.now n }
{
    nth(types, n)
}

/// The type at a place, if there is one.
fn nth(types: &[Ty], n: usize) -> Option<&Ty>
    ensures { option_copied result ≡ slice_get types.now n }
{
    types.get(n)
}

/// What stands behind the first token of an initialiser, where so many brackets more may be open.
#[cycle(initialiser)]
fn init_rest<'a>(
    alloc: Global,
    structs: &Structs,
    left: u32,
    ty: &Ty,
    head: InitHead,
    rest: Rest<'a>,
) -> Result<(Init, Rest<'a>), ParseFault>
    ensures { Gives result
        (value_at (globals.init_rest structs.now (globals.initialiser structs.now left) ty.now head) rest.entry) }
{
    match head {
        InitHead::Zero => Ok((Init::Zero, rest)),
        InitHead::Word(value) => Ok((Init::Word(value), rest)),
        InitHead::Bytes(bytes) => Ok((array_of_bytes(alloc, &bytes)?, rest)),
        InitHead::Array => {
            let (parts, rest) = elements(alloc, structs, left, element_type(ty), rest)?;
            let rest = punct(b"]", rest)?;
            Ok((Init::Array(parts), rest))
        }
        InitHead::Fields => {
            let types = known_types(structs, ty);
            let (parts, rest) = fields(alloc, structs, left, types, rest)?;
            let rest = punct(b"}", rest)?;
            Ok((Init::Fields(parts), rest))
        }
    }
}

/// The types of the elements in curly brackets behind a type, none where such brackets may not stand.
fn known_types<'a>(structs: &'a Structs, ty: &Ty) -> &'a [Ty]
    ensures { result.now ≡ globals.or_none (bounds.field_types structs.now ty.now) }
{
    match field_types(structs, ty) {
        Some(types) => types,
        None => &[],
    }
}

/// What a global of this type, or a part of one, begins with, where so many brackets may be opened.
#[cycle(initialiser)]
pub fn initialiser<'a>(
    alloc: Global,
    structs: &Structs,
    left: u32,
    ty: &Ty,
    rest: Rest<'a>,
) -> Result<(Init, Rest<'a>), ParseFault>
    ensures { Gives result (value_at (globals.initialiser structs.now left ty.now) rest.entry) }
{
    let ((head, mark), rest) = head(alloc, structs, ty, rest)?;
    let at = mark.breach.at;
    let rest = rest.marked(mark);
    if left == 0 {
        init_leaf(at, head, rest)
    } else {
        init_rest(alloc, structs, left - 1, ty, head, rest)
    }
}

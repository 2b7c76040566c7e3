//! Struct types and the lists of types in them.
ghost use Rattle.std.specs.Prelude.{◌≡◌, IfOk};
ghost use Rattle.ds_grammar.specs.Reading.{Gives, first_value, value_at};
ghost use Rattle.ds_grammar.specs.Globals as globals;

use ds_ast::{List, Name, StructDef, Ty};
use ds_grammar::{ParseFault, items_take_tokens, runs_go_on};
use ds_lex::TokenKind;
use ds_parse_parts::{
    Arrays, Rest, array_front, arrays_from, base_type, closed_type, is_punct, punct, type_of, word,
};
use std::alloc::{AllocError, Global};

/// What a type begins with, if a token does: a type with no others in it, or else the `[` of an array. With its place.
fn type_begin(
    alloc: Global,
    kind: TokenKind,
    bytes: &[u8],
    at: u32,
) -> Result<Option<(Option<Ty>, u32)>, AllocError>
    ensures { IfOk result (λ begin. begin ≡ globals.type_begin kind bytes.now at) }
{
    if is_punct(b"[", kind, bytes) {
        Ok(Some((None, at)))
    } else {
        match base_type(alloc, true, kind, bytes)? {
            Some(ty) => Ok(Some((Some(ty), at))),
            None => Ok(None),
        }
    }
}

/// What is left of an array type, behind its `[`, which stands at `at`.
#[tactic(auto, unfolding(ds_grammar::specs::Globals::type_rest))]
fn array_rest<'a>(alloc: Global, at: u32, rest: Rest<'a>) -> Result<(Ty, Rest<'a>), ParseFault>
    ensures { Gives result (value_at (globals.type_rest (None, at)) rest.entry) }
{
    let (first, rest) = array_front(Arrays::new(alloc), at, rest)?;
    let (opened, rest) = arrays_from(None, first, rest)?;
    let read = match rest.peek() {
        Some((kind, bytes, _)) => base_type(alloc, true, kind, bytes)?,
        None => None,
    };
    let (base, rest) = rest.take(read)?;
    closed_type(alloc, opened, base, rest)
}

/// The rest of a type.
#[tactic(auto, unfolding(ds_grammar::specs::Globals::type_rest))]
fn type_rest<'a>(
    alloc: Global,
    begin: (Option<Ty>, u32),
    rest: Rest<'a>,
) -> Result<(Ty, Rest<'a>), ParseFault>
    ensures { Gives result (value_at (globals.type_rest begin) rest.entry) }
{
    match begin {
        (Some(ty), _) => Ok((ty, rest)),
        (None, at) => array_rest(alloc, at, rest),
    }
}

/// What begins the next type of a list, if a token does: the type where it is the first one, and a comma before each
/// other.
fn type_item(
    alloc: Global,
    types: &[Ty],
    kind: TokenKind,
    bytes: &[u8],
    at: u32,
) -> Result<Option<Option<(Option<Ty>, u32)>>, AllocError>
    ensures { IfOk result (λ item. item ≡ globals.next_type types.now kind bytes.now at) }
{
    match types {
        [] => match type_begin(alloc, kind, bytes, at)? {
            Some(begin) => Ok(Some(Some(begin))),
            None => Ok(None),
        },
        [_, ..] => {
            if is_punct(b",", kind, bytes) {
                Ok(Some(None))
            } else {
                Ok(None)
            }
        }
    }
}

/// What begins the next type behind these, if there is one.
fn next_type(
    alloc: Global,
    types: &List<Ty>,
    rest: &Rest,
) -> Result<Option<Option<(Option<Ty>, u32)>>, AllocError>
    ensures { IfOk result
        (λ item. item ≡ first_value (λ t. globals.next_type types.now t.kind t.bytes t.at) rest.now.left) }
{
    match rest.peek() {
        Some((kind, bytes, at)) => type_item(alloc, types.as_slice(), kind, bytes, at),
        None => Ok(None),
    }
}

/// The types with one more, which begins so.
fn types_more<'a>(
    alloc: Global,
    types: List<Ty>,
    item: Option<(Option<Ty>, u32)>,
    rest: Rest<'a>,
) -> Result<(List<Ty>, Rest<'a>), ParseFault>
    ensures { Gives result (value_at (globals.types_more types item) rest.entry) }
{
    let mut types = types;
    match item {
        Some(begin) => {
            let (ty, rest) = type_rest(alloc, begin, rest)?;
            types.push(ty)?;
            Ok((types, rest))
        }
        None => {
            let (ty, rest) = type_of(alloc, true, None, rest)?;
            types.push(ty)?;
            Ok((types, rest))
        }
    }
}

/// Types with commas between them, maybe none.
#[tactic(auto, unfolding(ds_grammar::specs::Globals::types))]
fn types<'a>(alloc: Global, rest: Rest<'a>) -> Result<(List<Ty>, Rest<'a>), ParseFault>
    ensures { Gives result (value_at globals.types rest.entry) }
{
    runs_go_on();
    items_take_tokens();
    let mut rest = rest;
    let mut types = List::new(alloc);
    while let Some(item) = next_type(alloc, &types, &rest)? {
        let (more, behind) = types_more(alloc, types, item, rest.past())?;
        types = more;
        rest = behind;
    }
    Ok((types, rest))
}

/// A struct type, behind its name.
#[tactic(auto, unfolding(ds_grammar::specs::Globals::struct_line))]
pub fn struct_line<'a>(
    alloc: Global,
    name: Name,
    rest: Rest<'a>,
) -> Result<(StructDef, Rest<'a>), ParseFault>
    ensures { Gives result (value_at (globals.struct_line name) rest.entry) }
{
    let rest = punct(b"=", rest)?;
    let rest = word(b"type", rest)?;
    let rest = punct(b"{", rest)?;
    let (fields, rest) = types(alloc, rest)?;
    let rest = punct(b"}", rest)?;
    Ok((StructDef { name, fields }, rest))
}

//! Types.
ghost use Rattle.std.specs.Prelude.{◌≡◌, IfOk, if◌then◌else◌, MatchOption, Some, None, [], ◌∷◌};
ghost use Rattle.std.specs.Option.{option_to_list};
ghost use Rattle.ds_ast.specs.Bounds as bounds;
ghost use Rattle.ds_grammar.specs.Reading.{Gives, first_value, value_at};
ghost use Rattle.ds_grammar.specs.Types as types;

use crate::arrays::Arrays;
use crate::literals::{range_mark, token_name};
use crate::operands::word;
use crate::rest::Rest;
use crate::words::scalar_of;
use ds_ast::{Boxed, Ty};
use ds_grammar::{Mark, ParseFault, items_take_tokens, marks_are_read, runs_go_on};
use ds_lex::{TokenKind, number_of};
use std::alloc::{AllocError, Global};

/// How many elements an array has, with the mark of its range.
fn count_of(kind: TokenKind, bytes: &[u8], at: u32) -> Option<(u32, Mark)>
    ensures { result ≡ types.count_of kind bytes.now at }
{
    match kind {
        TokenKind::Number => match number_of(bytes) {
            Some(number) => {
                let mark = range_mark(at, number <= 1 << 31);
                Some(((number % (1 << 32)) as u32, mark))
            }
            None => None,
        },
        _ => None,
    }
}

/// How many elements an array has.
#[tactic(auto, unfolding(ds_grammar::specs::Types::array_count))]
fn array_count<'a>(rest: Rest<'a>) -> Result<(u32, Rest<'a>), ParseFault>
    ensures { Gives result (value_at types.array_count rest.entry) }
{
    let read = match rest.peek() {
        Some((kind, bytes, at)) => count_of(kind, bytes, at),
        None => None,
    };
    let ((count, mark), rest) = rest.take(read)?;
    Ok((count, rest.marked(mark)))
}

/// Where the next token is the `[` of an array, its place.
fn next_array(rest: &Rest) -> Option<u32>
    ensures { result ≡ first_value (λ t. types.array_place t.kind t.bytes t.at) rest.now.left }
{
    match rest.peek() {
        Some((TokenKind::Punct, b"[", at)) => Some(at),
        _ => None,
    }
}

/// What stands behind the `[` of an array, which stands at `at`, up to the type of its elements.
#[tactic(auto, unfolding(ds_grammar::specs::Types::array_front))]
pub fn array_front<'a>(
    opened: Arrays,
    at: u32,
    rest: Rest<'a>,
) -> Result<(Arrays, Rest<'a>), ParseFault>
    ensures { Gives result (value_at (types.array_front opened at) rest.entry) }
{
    let place = opened.place(at);
    let rest = rest.marked(opened.depth_mark(place));
    let (count, rest) = array_count(rest)?;
    let rest = word(b"x", rest)?;
    let mut opened = opened;
    opened.push(place, count)?;
    Ok((opened, rest))
}

/// Whether there are values of a type: it is not `void`.
pub fn has_values(ty: &Ty) -> bool
    ensures { result ≡ bounds.has_values ty.now }
{
    match ty {
        Ty::Void => false,
        Ty::One(_) => true,
        Ty::Array { .. } => true,
        Ty::Struct(_) => true,
    }
}

/// The mark of a number, where it is taken.
pub fn taken(mark: Option<Mark>, is_taken: bool) -> Option<Mark>
    ensures by_marks { option_to_list result ≡ types.taken_by (option_to_list mark) is_taken }
    ensures by_test { option_to_list result ≡ if is_taken then option_to_list mark else [] }
{
    if is_taken { mark } else { None }
}

/// What stands behind the `[` of an array; at the first token of its type a number is taken, with this mark.
fn marked_front<'a>(
    mark: Option<Mark>,
    opened: Arrays,
    at: u32,
    rest: Rest<'a>,
) -> Result<(Arrays, Rest<'a>), ParseFault>
    ensures { Gives result (value_at (types.marked_front (option_to_list mark) opened at) rest.entry) }
{
    marks_are_read();
    let rest = rest.marked_by(taken(mark, opened.is_empty()));
    array_front(opened, at, rest)
}

/// Any number of arrays that a type goes on with, inside these.
#[tactic(auto, unfolding(ds_grammar::specs::Types::arrays_from))]
pub fn arrays_from<'a>(
    mark: Option<Mark>,
    opened: Arrays,
    rest: Rest<'a>,
) -> Result<(Arrays, Rest<'a>), ParseFault>
    ensures { Gives result (value_at (types.arrays_from (option_to_list mark) opened) rest.entry) }
{
    runs_go_on();
    items_take_tokens();
    let mut rest = rest;
    let mut opened = opened;
    while let Some(at) = next_array(&rest) {
        let (inner, behind) = marked_front(mark, opened, at, rest.past())?;
        opened = inner;
        rest = behind;
    }
    Ok((opened, rest))
}

/// The type that a word is, where `void` may or may not stand.
fn word_type(may_be_void: bool, bytes: &[u8]) -> Option<Ty>
    ensures { result ≡ types.word_type may_be_void bytes.now }
{
    if bytes == b"void".as_slice() {
        if may_be_void { Some(Ty::Void) } else { None }
    } else {
        match scalar_of(TokenKind::Word, bytes) {
            Some(scalar) => Some(Ty::One(scalar)),
            None => None,
        }
    }
}

/// The type inside all arrays, if a token is one.
pub fn base_type(
    alloc: Global,
    may_be_void: bool,
    kind: TokenKind,
    bytes: &[u8],
) -> Result<Option<Ty>, AllocError>
    ensures { IfOk result (λ ty. ty ≡ types.base_type may_be_void kind bytes.now) }
{
    match kind {
        TokenKind::Word => Ok(word_type(may_be_void, bytes)),
        TokenKind::Local => match token_name(alloc, bytes)? {
            Some(name) => Ok(Some(Ty::Struct(name))),
            None => Ok(None),
        },
        _ => Ok(None),
    }
}

/// The type with one of its arrays around it; a type that nests more arrays than it may is not built.
fn closed(alloc: Global, too_deep: bool, count: u32, ty: Ty) -> Result<Ty, AllocError>
    ensures { IfOk result (λ t. t ≡ types.around too_deep count ty) }
{
    if too_deep {
        Ok(ty)
    } else {
        Ok(Ty::Array {
            count,
            of: Boxed::new(alloc, ty)?,
        })
    }
}

/// The count of the innermost array, where the next token closes it. The array is closed.
fn next_end(opened: &mut Arrays, rest: &Rest) -> Option<u32>
    ensures { MatchOption result
        ((first_value (λ t. types.closes opened.old.1 t.kind t.bytes) rest.now.left ≡ None)
        × (opened.new ≡ opened.old))
        (λ n. (first_value (λ t. types.closes opened.old.1 t.kind t.bytes) rest.now.left ≡ Some tt)
        × (opened.old.1 ≡ n ∷ opened.new.1)) }
{
    match rest.peek() {
        Some((TokenKind::Punct, b"]", _)) => opened.pop(),
        _ => None,
    }
}

/// A `]` for each of these arrays around the type.
#[tactic(auto, unfolding(ds_grammar::specs::Types::closed_type))]
pub fn closed_type<'a>(
    alloc: Global,
    opened: Arrays,
    base: Ty,
    rest: Rest<'a>,
) -> Result<(Ty, Rest<'a>), ParseFault>
    ensures { Gives result (value_at (types.closed_type opened base) rest.entry) }
{
    runs_go_on();
    let too_deep = opened.len() > 32;
    let mut opened = opened;
    let mut ty = base;
    let mut rest = rest;
    while let Some(count) = next_end(&mut opened, &rest) {
        ty = closed(alloc, too_deep, count, ty)?;
        rest = rest.past();
    }
    if opened.is_empty() {
        Ok((ty, rest))
    } else {
        Err(rest.stopped())
    }
}

/// `void`, a type of a register, an array, or the name of a struct; `void` alone may be forbidden. Where it is not
/// `void` its first token
/// takes a number, with this mark.
#[tactic(auto, unfolding(ds_grammar::specs::Types::type_of))]
pub fn type_of<'a>(
    alloc: Global,
    may_be_void: bool,
    mark: Option<Mark>,
    rest: Rest<'a>,
) -> Result<(Ty, Rest<'a>), ParseFault>
    ensures { Gives result (value_at (types.type_of may_be_void (option_to_list mark)) rest.entry) }
{
    marks_are_read();
    let (opened, rest) = arrays_from(mark, Arrays::new(alloc), rest)?;
    let may_be_void = may_be_void || !opened.is_empty();
    let read = match rest.peek() {
        Some((kind, bytes, _)) => base_type(alloc, may_be_void, kind, bytes)?,
        None => None,
    };
    let (base, rest) = rest.take(read)?;
    let is_taken = opened.is_empty() && has_values(&base);
    let rest = rest.marked_by(taken(mark, is_taken));
    closed_type(alloc, opened, base, rest)
}

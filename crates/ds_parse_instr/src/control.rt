//! Rows that leave a block, each behind its word.
ghost use Rattle.std.specs.Prelude.{◌≡◌};
ghost use Rattle.ds_grammar.specs.Reading.{Gives, value_at};
ghost use Rattle.ds_grammar.specs.Instructions as instructions;

use ds_ast::{List, Name, Op, Operand, Scalar};
use ds_grammar::{Mark, ParseFault, readings_take_tokens, runs_go_on};
use ds_lex::{TokenKind, number_of};
use ds_parse_parts::{
    Rest, endings, fits_type, is_next_word, kept, local, punct, range_mark, scalar, scalar_of,
    scalar_word, target, value,
};
use std::alloc::Global;

/// What a token behind `ret` says: `void`, or the type of a value.
fn returned(kind: TokenKind, bytes: &[u8]) -> Option<Option<Scalar>>
    ensures { result ≡ instructions.returned kind bytes.now }
{
    match kind {
        TokenKind::Word => {
            if bytes == b"void".as_slice() {
                return Some(None);
            }
            match scalar_of(kind, bytes) {
                Some(ty) => Some(Some(ty)),
                None => None,
            }
        }
        _ => None,
    }
}

/// The value that is returned, if one is.
fn returned_value<'a>(
    alloc: Global,
    ty: Option<Scalar>,
    rest: Rest<'a>,
) -> Result<(Option<Operand>, Rest<'a>), ParseFault>
    ensures { Gives result (value_at (instructions.returned_value ty) rest.entry) }
{
    match ty {
        Some(ty) => {
            let (value, rest) = value(alloc, ty, rest)?;
            Ok((Some(Operand { ty, value }), rest))
        }
        None => Ok((None, rest)),
    }
}

/// `ret`.
#[tactic(auto, unfolding(ds_grammar::specs::Instructions::ret_row))]
pub fn ret_row<'a>(alloc: Global, rest: Rest<'a>) -> Result<(Op, Rest<'a>), ParseFault>
    ensures { Gives result (value_at instructions.ret_row rest.entry) }
{
    let read = match rest.peek() {
        Some((kind, bytes, _)) => returned(kind, bytes),
        None => None,
    };
    let (ty, rest) = rest.take(read)?;
    let (value, rest) = returned_value(alloc, ty, rest)?;
    let (_, rest) = endings(rest)?;
    Ok((Op::Ret(value), rest))
}

/// Whether a token behind `br` is `i1`, which a condition follows, or `label`.
fn is_conditional(kind: TokenKind, bytes: &[u8]) -> Option<bool>
    ensures { result ≡ instructions.is_conditional kind bytes.now }
{
    match kind {
        TokenKind::Word => {
            if bytes == b"i1".as_slice() {
                Some(true)
            } else if bytes == b"label".as_slice() {
                Some(false)
            } else {
                None
            }
        }
        _ => None,
    }
}

/// The targets of a branch, behind its first word.
fn branch<'a>(
    alloc: Global,
    conditional: bool,
    rest: Rest<'a>,
) -> Result<(Op, Rest<'a>), ParseFault>
    ensures { Gives result (value_at (instructions.branch conditional) rest.entry) }
{
    if conditional {
        let (c, rest) = value(alloc, Scalar::I1, rest)?;
        let rest = punct(b",", rest)?;
        let (yes, rest) = target(alloc, rest)?;
        let rest = punct(b",", rest)?;
        let (no, rest) = target(alloc, rest)?;
        let (_, rest) = endings(rest)?;
        Ok((Op::CondBr { c, yes, no }, rest))
    } else {
        let (block, rest) = local(alloc, rest)?;
        let (_, rest) = endings(rest)?;
        Ok((Op::Br(block), rest))
    }
}

/// `br`.
#[tactic(auto, unfolding(ds_grammar::specs::Instructions::br_row))]
pub fn br_row<'a>(alloc: Global, rest: Rest<'a>) -> Result<(Op, Rest<'a>), ParseFault>
    ensures { Gives result (value_at instructions.br_row rest.entry) }
{
    let read = match rest.peek() {
        Some((kind, bytes, _)) => is_conditional(kind, bytes),
        None => None,
    };
    let (conditional, rest) = rest.take(read)?;
    branch(alloc, conditional, rest)
}

/// The number of a case that a token is, in its type, with the mark of its range.
fn case_of(ty: Scalar, kind: TokenKind, bytes: &[u8], at: u32) -> Option<(u64, Mark)>
    ensures { result ≡ instructions.case_of ty kind bytes.now at }
{
    match kind {
        TokenKind::Number => match number_of(bytes) {
            Some(number) => {
                let mark = range_mark(at, fits_type(ty, bytes, number));
                Some((kept(ty, number), mark))
            }
            None => None,
        },
        _ => None,
    }
}

/// The number of a case.
#[tactic(auto, unfolding(ds_grammar::specs::Instructions::case_number))]
fn case_number<'a>(ty: Scalar, rest: Rest<'a>) -> Result<(u64, Rest<'a>), ParseFault>
    ensures { Gives result (value_at (instructions.case_number ty) rest.entry) }
{
    let read = match rest.peek() {
        Some((kind, bytes, at)) => case_of(ty, kind, bytes, at),
        None => None,
    };
    let ((number, mark), rest) = rest.take(read)?;
    Ok((number, rest.marked(mark)))
}

/// The cases with one more, whose type was read.
#[tactic(auto, unfolding(ds_grammar::specs::Instructions::case_rest))]
fn case_rest<'a>(
    alloc: Global,
    ty: Scalar,
    cases: List<(u64, Name)>,
    rest: Rest<'a>,
) -> Result<(List<(u64, Name)>, Rest<'a>), ParseFault>
    ensures { Gives result (value_at (instructions.case_rest ty cases) rest.entry) }
{
    let mut cases = cases;
    let (number, rest) = case_number(ty, rest)?;
    let rest = punct(b",", rest)?;
    let (block, rest) = target(alloc, rest)?;
    cases.push((number, block))?;
    Ok((cases, rest))
}

/// The cases of a `switch`, each of this type.
#[tactic(auto, unfolding(ds_grammar::specs::Instructions::cases))]
fn cases<'a>(
    alloc: Global,
    ty: Scalar,
    rest: Rest<'a>,
) -> Result<(List<(u64, Name)>, Rest<'a>), ParseFault>
    ensures { Gives result (value_at (instructions.cases ty) rest.entry) }
{
    runs_go_on();
    readings_take_tokens();
    let mut rest = rest;
    let mut cases = List::new(alloc);
    'cases: while is_next_word(scalar_word(ty), &rest) {
        let (more, behind) = case_rest(alloc, ty, cases, rest.past())?;
        cases = more;
        rest = behind;
    }
    Ok((cases, rest))
}

/// `switch`.
#[tactic(auto, unfolding(ds_grammar::specs::Instructions::switch_row))]
pub fn switch_row<'a>(alloc: Global, rest: Rest<'a>) -> Result<(Op, Rest<'a>), ParseFault>
    ensures { Gives result (value_at instructions.switch_row rest.entry) }
{
    let (ty, rest) = scalar(rest)?;
    let (value, rest) = value(alloc, ty, rest)?;
    let rest = punct(b",", rest)?;
    let (other, rest) = target(alloc, rest)?;
    let rest = punct(b"[", rest)?;
    let (cases, rest) = cases(alloc, ty, rest)?;
    let rest = punct(b"]", rest)?;
    let (_, rest) = endings(rest)?;
    Ok((
        Op::Switch {
            ty,
            value,
            other,
            cases,
        },
        rest,
    ))
}

/// `unreachable`.
#[tactic(auto, unfolding(ds_grammar::specs::Instructions::unreachable_row))]
pub fn unreachable_row<'a>(rest: Rest<'a>) -> Result<(Op, Rest<'a>), ParseFault>
    ensures { Gives result (value_at instructions.unreachable_row rest.entry) }
{
    let (_, rest) = endings(rest)?;
    Ok((Op::Unreachable, rest))
}

//! Runs of tokens that mean nothing.
ghost use Rattle.std.specs.Prelude.{◌≡◌};
ghost use Rattle.ds_grammar.specs.Reading.{Gives, Passes, first_value, value_at};
ghost use Rattle.ds_grammar.specs.Rows as rows;

use crate::brackets::{Brackets, goes_on};
use crate::parts::any_number;
use crate::rest::Rest;
use crate::words::is_ignored_word;
use ds_grammar::{Ending, ParseFault, RunItem, readings_take_tokens, runs_go_on};
use ds_lex::TokenKind;
use std::alloc::Global;

/// Any tokens whose brackets match, up to this bracket.
#[tactic(auto, unfolding(ds_grammar::specs::Rows::balanced))]
pub fn balanced<'a>(alloc: Global, closer: u8, rest: Rest<'a>) -> Result<Rest<'a>, ParseFault>
    ensures { Passes result (value_at (rows.balanced closer) rest.entry) }
{
    runs_go_on();
    let mut brackets = Brackets::new(alloc, closer)?;
    let mut rest = rest;
    while goes_on(&mut brackets, &rest)? {
        rest = rest.past();
    }
    if brackets.is_empty() {
        Ok(rest)
    } else {
        Err(rest.stopped())
    }
}

/// What begins an item of a run of ignored words, if a token does.
pub fn run_item(after_word: bool, kind: TokenKind, bytes: &[u8]) -> Option<RunItem>
    ensures { result ≡ rows.run_item after_word kind bytes.now }
{
    match kind {
        TokenKind::Word => {
            if bytes == b"align".as_slice() {
                Some(RunItem::Align)
            } else if is_ignored_word(bytes) {
                Some(RunItem::Word)
            } else {
                None
            }
        }
        TokenKind::Attr => Some(RunItem::Attr),
        TokenKind::Punct => {
            if after_word && bytes == b"(".as_slice() {
                Some(RunItem::Group)
            } else {
                None
            }
        }
        _ => None,
    }
}

/// The item of a run of ignored words that the next token begins, if it begins one.
fn next_run_item(after_word: bool, rest: &Rest) -> Option<RunItem>
    ensures { result ≡ first_value (λ t. rows.run_item after_word t.kind t.bytes) rest.now.left }
{
    match rest.peek() {
        Some((kind, bytes, _)) => run_item(after_word, kind, bytes),
        None => None,
    }
}

/// The rest of an item, and whether a group may follow.
pub fn run_rest<'a>(
    alloc: Global,
    item: RunItem,
    rest: Rest<'a>,
) -> Result<(bool, Rest<'a>), ParseFault>
    ensures { Gives result (value_at (rows.run_rest item) rest.entry) }
{
    match item {
        RunItem::Word => Ok((true, rest)),
        RunItem::Align => {
            let rest = any_number(rest)?;
            Ok((false, rest))
        }
        RunItem::Attr => Ok((false, rest)),
        RunItem::Group => {
            let rest = balanced(alloc, b')', rest)?;
            Ok((false, rest))
        }
    }
}

/// A run of ignored words, each with a group behind it or without, of `align` with a number and of `#N`, where a
/// group may stand first or not.
#[tactic(auto, unfolding(ds_grammar::specs::Rows::ignored_from))]
pub fn ignored_from<'a>(
    alloc: Global,
    after_word: bool,
    rest: Rest<'a>,
) -> Result<(bool, Rest<'a>), ParseFault>
    ensures { Gives result (value_at (rows.ignored_from after_word) rest.entry) }
{
    runs_go_on();
    readings_take_tokens();
    let mut rest = rest;
    let mut after_word = after_word;
    while let Some(item) = next_run_item(after_word, &rest) {
        let (flag, behind) = run_rest(alloc, item, rest.past())?;
        after_word = flag;
        rest = behind;
    }
    Ok((after_word, rest))
}

/// A run of ignored words from its first on.
pub fn ignored_run<'a>(alloc: Global, rest: Rest<'a>) -> Result<(bool, Rest<'a>), ParseFault>
    ensures { Gives result (value_at rows.ignored_run rest.entry) }
{
    ignored_from(alloc, false, rest)
}

/// What begins an ending, if a token does.
fn ending_item(in_attrs: bool, kind: TokenKind, bytes: &[u8]) -> Option<Ending>
    ensures { result ≡ rows.ending_item in_attrs kind bytes.now }
{
    match kind {
        TokenKind::Punct => {
            if !in_attrs && bytes == b",".as_slice() {
                Some(Ending::Comma)
            } else {
                None
            }
        }
        TokenKind::Attr => Some(Ending::Attr),
        _ => None,
    }
}

/// The ending that the next token begins, if it begins one.
pub fn next_ending(in_attrs: bool, rest: &Rest) -> Option<Ending>
    ensures { result ≡ first_value (λ t. rows.ending_item in_attrs t.kind t.bytes) rest.now.left }
{
    match rest.peek() {
        Some((kind, bytes, _)) => ending_item(in_attrs, kind, bytes),
        None => None,
    }
}

/// Whether a token behind the comma of an ending is metadata or `align`.
pub fn is_metadata(kind: TokenKind, bytes: &[u8]) -> Option<bool>
    ensures { result ≡ rows.is_metadata kind bytes.now }
{
    match kind {
        TokenKind::Meta => Some(true),
        TokenKind::Word => {
            if bytes == b"align".as_slice() {
                Some(false)
            } else {
                None
            }
        }
        _ => None,
    }
}

/// A second piece of metadata, or the number of an `align`.
pub fn ending_last<'a>(metadata: bool, rest: Rest<'a>) -> Result<Rest<'a>, ParseFault>
    ensures { Passes result (value_at (rows.ending_last metadata) rest.entry) }
{
    let found = match rest.peek() {
        Some((TokenKind::Meta, _, _)) => metadata,
        Some((TokenKind::Number, _, _)) => !metadata,
        _ => false,
    };
    if found {
        Ok(rest.past())
    } else {
        Err(rest.stopped())
    }
}

/// The rest of an ending, and whether it was `#N`.
fn ending_rest<'a>(ending: Ending, rest: Rest<'a>) -> Result<(bool, Rest<'a>), ParseFault>
    ensures { Gives result (value_at (rows.ending_rest ending) rest.entry) }
{
    match ending {
        Ending::Attr => Ok((true, rest)),
        Ending::Comma => {
            let read = match rest.peek() {
                Some((kind, bytes, _)) => is_metadata(kind, bytes),
                None => None,
            };
            let (metadata, rest) = rest.take(read)?;
            let rest = ending_last(metadata, rest)?;
            Ok((false, rest))
        }
    }
}

/// Any run of commas with `align` and a number or with two pieces of metadata, and then of `#N`.
#[tactic(auto, unfolding(ds_grammar::specs::Rows::endings_from))]
pub fn endings<'a>(rest: Rest<'a>) -> Result<(bool, Rest<'a>), ParseFault>
    ensures { Gives result (value_at rows.endings rest.entry) }
{
    runs_go_on();
    readings_take_tokens();
    let mut rest = rest;
    let mut in_attrs = false;
    while let Some(ending) = next_ending(in_attrs, &rest) {
        let (flag, behind) = ending_rest(ending, rest.past())?;
        in_attrs = flag;
        rest = behind;
    }
    Ok((in_attrs, rest))
}

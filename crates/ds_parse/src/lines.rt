//! Lines of a module that mean nothing here.
ghost use Rattle.std.specs.Prelude.{◌≡◌};
ghost use Rattle.ds_grammar.specs.Reading.{Gives, Passes, first_value, value_at};
ghost use Rattle.ds_grammar.specs.Rows.{fact};
ghost use Rattle.ds_grammar.specs.Functions as functions;

use ds_grammar::{ParseFault, optionals_are_read};
use ds_lex::TokenKind;
use ds_parse_parts::{Rest, balanced, is_next_word, punct};
use std::alloc::Global;

/// `=`, and a text.
#[tactic(auto, unfolding(ds_grammar::specs::Functions::text_line))]
pub fn text_line<'a>(rest: Rest<'a>) -> Result<Rest<'a>, ParseFault>
    ensures { Passes result (value_at functions.text_line rest.entry) }
{
    let rest = punct(b"=", rest)?;
    let found = match rest.peek() {
        Some((kind, _, _)) => matches!(kind, TokenKind::Text),
        None => false,
    };
    if found {
        Ok(rest.past())
    } else {
        Err(rest.stopped())
    }
}

/// Whether the next token is `datalayout` or `triple`.
fn is_next_target(rest: &Rest) -> bool
    ensures { fact result ≡ first_value (λ t. fact (functions.is_target_word t.kind t.bytes)) rest.now.left }
{
    match rest.peek() {
        Some((kind, bytes, _)) => {
            matches!(kind, TokenKind::Word)
                && (bytes == b"datalayout".as_slice() || bytes == b"triple".as_slice())
        }
        None => false,
    }
}

/// `datalayout` or `triple`, `=`, and a text, behind `target`.
#[tactic(auto, unfolding(ds_grammar::specs::Functions::target_line))]
pub fn target_line<'a>(rest: Rest<'a>) -> Result<Rest<'a>, ParseFault>
    ensures { Passes result (value_at functions.target_line rest.entry) }
{
    if is_next_target(&rest) {
        text_line(rest.past())
    } else {
        Err(rest.stopped())
    }
}

/// `{`, tokens whose brackets match, and `}`.
#[tactic(auto, unfolding(ds_grammar::specs::Functions::group))]
fn group<'a>(alloc: Global, rest: Rest<'a>) -> Result<Rest<'a>, ParseFault>
    ensures { Passes result (value_at functions.group rest.entry) }
{
    let rest = punct(b"{", rest)?;
    balanced(alloc, b'}', rest)
}

/// `#N`, `=` and a group, behind `attributes`.
#[tactic(auto, unfolding(ds_grammar::specs::Functions::attributes_line))]
pub fn attributes_line<'a>(alloc: Global, rest: Rest<'a>) -> Result<Rest<'a>, ParseFault>
    ensures { Passes result (value_at functions.attributes_line rest.entry) }
{
    let found = match rest.peek() {
        Some((kind, _, _)) => matches!(kind, TokenKind::Attr),
        None => false,
    };
    if !found {
        return Err(rest.stopped());
    }
    let rest = punct(b"=", rest.past())?;
    group(alloc, rest)
}

/// `distinct`, which need not be written.
#[tactic(auto, unfolding(ds_grammar::specs::Functions::optional_distinct))]
fn optional_distinct<'a>(rest: Rest<'a>) -> Result<(Option<()>, Rest<'a>), ParseFault>
    ensures { Gives result (value_at functions.optional_distinct rest.entry) }
{
    optionals_are_read();
    if is_next_word(b"distinct", &rest) {
        Ok((Some(()), rest.past()))
    } else {
        Ok((None, rest))
    }
}

/// `=`, `distinct` or not, a `!` alone and a group, behind a name of metadata.
#[tactic(auto, unfolding(ds_grammar::specs::Functions::metadata_line))]
pub fn metadata_line<'a>(alloc: Global, rest: Rest<'a>) -> Result<Rest<'a>, ParseFault>
    ensures { Passes result (value_at functions.metadata_line rest.entry) }
{
    let rest = punct(b"=", rest)?;
    let (_, rest) = optional_distinct(rest)?;
    let found = match rest.peek() {
        Some((TokenKind::Meta, bytes, _)) => bytes == b"!".as_slice(),
        _ => false,
    };
    if !found {
        return Err(rest.stopped());
    }
    group(alloc, rest.past())
}

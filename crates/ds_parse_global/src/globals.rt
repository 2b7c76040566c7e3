//! Globals.
ghost use Rattle.std.specs.Prelude.{◌≡◌};
ghost use Rattle.ds_grammar.specs.Reading.{Gives, Passes, first_value, value_at};
ghost use Rattle.ds_grammar.specs.Rows as rows;
ghost use Rattle.ds_grammar.specs.Globals as globals;
ghost use Rattle.ds_parse_global.specs.Heads as heads;

use crate::nested::initialiser;
use crate::structs::Structs;
use ds_ast::{GlobalDef, Name};
use ds_grammar::ParseFault;
use ds_lex::TokenKind;
use ds_parse_parts::{Rest, endings, ignored_run, punct, type_of};
use std::alloc::Global;

/// How many brackets may be open at once in an initialiser.
const MOST_BRACKETS: u32 = 64;

/// Whether the next token is `global` or `constant`.
fn is_next_global_word(rest: &Rest) -> bool
    ensures { rows.fact result ≡ first_value (λ t. rows.fact (globals.is_global_word t.kind t.bytes)) rest.now.left }
{
    match rest.peek() {
        Some((TokenKind::Word, bytes, _)) => {
            bytes == b"global".as_slice() || bytes == b"constant".as_slice()
        }
        _ => false,
    }
}

/// `global` or `constant`.
fn global_word<'a>(rest: Rest<'a>) -> Result<Rest<'a>, ParseFault>
    ensures { Passes result (value_at heads.global_word rest.entry) }
{
    if is_next_global_word(&rest) {
        Ok(rest.past())
    } else {
        Err(rest.stopped())
    }
}

/// A global, behind its name, where these struct types stand before it.
#[tactic(auto, unfolding(ds_grammar::specs::Globals::global_line))]
pub fn global_line<'a>(
    alloc: Global,
    structs: &Structs,
    name: Name,
    rest: Rest<'a>,
) -> Result<(GlobalDef, Rest<'a>), ParseFault>
    ensures { Gives result (value_at (globals.global_line structs.now name) rest.entry) }
{
    let rest = punct(b"=", rest)?;
    let (_, rest) = ignored_run(alloc, rest)?;
    let rest = global_word(rest)?;
    let (ty, rest) = type_of(alloc, true, None, rest)?;
    let (init, rest) = initialiser(alloc, structs, MOST_BRACKETS, &ty, rest)?;
    let (_, rest) = endings(rest)?;
    Ok((GlobalDef { name, ty, init }, rest))
}

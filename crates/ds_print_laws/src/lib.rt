//! Laws about the canonical text of a module, each the contract of a function that does nothing but to call other
//! laws.
//!
//! A caller calls the function and uses what it ensures. The laws speak of every module within its bounds.
#![tactic(auto)]

ghost use Rattle.ds_print_laws.specs.Apart.{CanonicalPiecesAreApart};
ghost use Rattle.ds_print_laws.specs.Laws.{ApartTextsAreSpelled, CanonicalTextsAreParsed};
ghost use Rattle.ds_print_laws.specs.Laws.{CanonicalTextsSpellTheirModules, CanonicalTokensAreRead, PlacedAreLexemes};

use ds_grammar::{optionals_are_read, reading_is_exact, runs_go_on};
use ds_lex::{decimals_are_read, written_texts_are_lexed};
use ds_parse::{texts_are_not_refused, texts_spell_one_module};

/// The tokens that the canonical text of a module is written of are read as that module, up to the last of them and
/// with nothing out of its bound.
pub fn canonical_tokens_are_read()
    ensures { CanonicalTokensAreRead }
{
    runs_go_on();
    optionals_are_read();
    decimals_are_read();
}

/// The tokens of a text that is written piece by piece are those of the pieces, and a canonical text whose pieces are
/// apart spells its module.
pub fn apart_texts_are_spelled()
    ensures lexemes { PlacedAreLexemes }
    ensures spelled { ApartTextsAreSpelled }
{
    written_texts_are_lexed();
    canonical_tokens_are_read();
    reading_is_exact();
}

/// The pieces that the canonical text of a module is written of are apart: the gaps are blanks, and each token is
/// spelled, in its range, and ends before what is written behind it.
pub fn canonical_pieces_are_apart()
    ensures { CanonicalPiecesAreApart }
{
    decimals_are_read();
}

/// The canonical text of a module within its bounds spells that module.
pub fn canonical_texts_spell_their_modules()
    ensures { CanonicalTextsSpellTheirModules }
{
    apart_texts_are_spelled();
    canonical_pieces_are_apart();
}

/// The canonical text of a module within its bounds spells that module and no other, and has no fault. So `parse`
/// gives the module.
pub fn canonical_texts_are_parsed()
    ensures { CanonicalTextsAreParsed }
{
    canonical_texts_spell_their_modules();
    texts_spell_one_module();
    texts_are_not_refused();
}

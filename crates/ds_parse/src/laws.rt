//! Laws about texts of modules: a caller calls the function, and uses what it ensures.
ghost use Rattle.ds_parse.specs.Laws.{TextsSpellOneModule, TextsAreNotRefused};

use ds_grammar::{forms_are_unique, whole_answers_are_exact};
use ds_lex::{tokens_are_unique, tokens_or_fault};

/// A text spells one module at most.
pub fn texts_spell_one_module()
    ensures { TextsSpellOneModule }
{
    tokens_are_unique();
    forms_are_unique();
}

/// A text that spells a module has no fault.
pub fn texts_are_not_refused()
    ensures { TextsAreNotRefused }
{
    tokens_or_fault();
    tokens_are_unique();
    whole_answers_are_exact();
}

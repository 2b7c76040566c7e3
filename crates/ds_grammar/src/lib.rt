//! Grammars of token lists, and laws about them, each the contract of a function that does nothing.
//!
//! A caller calls the function and uses what it ensures. The laws speak of every grammar.
#![tactic(auto)]

ghost use Rattle.ds_grammar.specs.Laws.{FormsAreUnique, MarksAreUnique, PrefixesAreFronts, DeadEndsExist};
ghost use Rattle.ds_grammar.specs.Laws.{DeadEndsAreUnique, ReadingIsExact, FormsAreRead, RunsTakeItems, RunsEnd};
ghost use Rattle.ds_grammar.specs.Laws.{RunsStop, OptionalsAreRead, MarksAreRead, ReadingsTakeTokens};
ghost use Rattle.ds_grammar.specs.Laws.{ItemsTakeTokens, AnswersAreExact, SpelledIsAnswered, RefusedIsAnswered};
ghost use Rattle.ds_grammar.specs.Laws.{TokensLieInside, WholeAnswersAreExact, WholesAreAnswered};
ghost use Rattle.ds_grammar.specs.Laws.{WholesAreNotRefused, RefusedWholesAreAnswered};

mod fault;
mod item;

pub use fault::{Bound, Breach, Mark, ParseFault};
pub use item::{Begin, Behind, Ending, Entity, Head, InitHead, RunItem, Stage};

/// Tokens have at most one value and one list of marks by a grammar.
pub fn forms_are_unique()
    ensures { FormsAreUnique }
{}

/// A front has one list of marks.
pub fn marks_are_unique()
    ensures { MarksAreUnique }
{}

/// What stands in front of a front is a front.
pub fn prefixes_are_fronts()
    ensures { PrefixesAreFronts }
{}

/// Every list of tokens has a first dead end, where the end of the text is one too.
pub fn dead_ends_exist()
    ensures { DeadEndsExist }
{}

/// A list of tokens has one first dead end.
pub fn dead_ends_are_unique()
    ensures { DeadEndsAreUnique }
{}

/// What a grammar reads is what the form says: the value, the first dead end and the least breach.
pub fn reading_is_exact()
    ensures { ReadingIsExact }
{}

/// Where the tokens before the first dead end have the form, their value is read.
pub fn forms_are_read()
    ensures { FormsAreRead }
{}

/// A run takes an item and goes on from the state that it gives, ends where no item begins, and stops where an item
/// stops.
pub fn runs_go_on()
    ensures items { RunsTakeItems }
    ensures end { RunsEnd }
    ensures stop { RunsStop }
{}

/// A part that may be missing is read where the next token begins it.
pub fn optionals_are_read()
    ensures { OptionalsAreRead }
{}

/// Marks before a form are marks of the place.
pub fn marks_are_read()
    ensures { MarksAreRead }
{}

/// Behind what was read no more tokens are left than before it.
pub fn readings_take_tokens()
    ensures { ReadingsTakeTokens }
{}

/// Behind an item of a run fewer tokens are left than before it.
pub fn items_take_tokens()
    ensures { ItemsTakeTokens }
{}

/// The answer to what is read is what the tokens say, where a breach is a fault.
pub fn answers_are_exact()
    ensures exact { AnswersAreExact }
    ensures spelled { SpelledIsAnswered }
    ensures fault { RefusedIsAnswered }
{}

/// The answer to what is read of a whole text is what its tokens say, where a breach is a fault and so is a token
/// that is left.
pub fn whole_answers_are_exact()
    ensures exact { WholeAnswersAreExact }
    ensures spelled { WholesAreAnswered }
    ensures refused { WholesAreNotRefused }
    ensures fault { RefusedWholesAreAnswered }
{}

/// The tokens of a text lie in it.
pub fn tokens_lie_inside()
    ensures { TokensLieInside }
{}

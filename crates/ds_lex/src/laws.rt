//! Laws about tokens, each the contract of a function that does nothing: a caller calls it, and uses what it ensures.
ghost use Rattle.ds_lex.specs.Written.{WrittenIsLexed, WrittenIsSpelled, DecimalsAreDigits, DecimalsAreRead};
ghost use Rattle.ds_lex.specs.Written.{NegativesAreRead, TokensAreUnique};

/// A text has one list of tokens.
pub fn tokens_are_unique()
    ensures { TokensAreUnique }
{}

/// A text that is written token by token, each apart from the next, has these tokens, and each is spelled as it was
/// written.
pub fn written_texts_are_lexed()
    ensures lexed { WrittenIsLexed }
    ensures spelled { WrittenIsSpelled }
{}

/// The digits of a number in decimal are read as that number.
pub fn decimals_are_read()
    ensures digits { DecimalsAreDigits }
    ensures number { DecimalsAreRead }
    ensures negative { NegativesAreRead }
{}

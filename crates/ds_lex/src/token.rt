//! Tokens and lists of them.
ghost use Rattle.std.specs.Prelude.{◌≡◌};

use std::marker::Model;

/// What a token is. A *name* is a letter (`A` to `Z`, `a` to `z`, `$`, `.` or `_`) or a `-`, and then any number of
/// letters,
/// `-` and digits; a *text* is a `"`, bytes other than `"`, and a `"`.
#[derive(Clone, Copy, Debug, PartialEq, Eq)]
pub enum TokenKind {
    /// A name that does not begin with `-`, as `define`, `i64` and `seq_cst`.
    Word,
    /// A word, digits below 2^32 or a text, and a `:` at once behind it.
    Label,
    /// `%` and a name, digits below 2^32 or a text.
    Local,
    /// `@` and a name, digits below 2^32 or a text.
    Global,
    /// `#` and digits.
    Attr,
    /// `!` alone, or `!` and a name or digits.
    Meta,
    /// One or more decimal digits, maybe behind a `-`, with a value from -2^63 to 2^64 - 1.
    Number,
    /// A text.
    Text,
    /// `c` and a text at once behind it.
    CText,
    /// One of `(`, `)`, `{`, `}`, `[`, `]`, `,`, `=`, `*`, `<` and `>`.
    Punct,
    /// The end of the text. It is empty, and the last token.
    End,
}

/// A token and where it stands in its text: its spelling is the bytes from `start` up to but without `end`.
#[derive(Clone, Copy, Debug, PartialEq, Eq)]
pub struct Token {
    /// What the token is.
    pub kind: TokenKind,
    /// How many bytes stand before it.
    pub start: u32,
    /// How many bytes stand before its end.
    pub end: u32,
}

/// The tokens of a text, in order. Contracts see the list of them.
#[derive(Debug, Drop)]
pub struct Tokens {
    tokens: Vec<Token>,
}

impl Model for Tokens {
    ghost use Rattle.std.specs.Prelude.{List};
    ghost use Rattle.ds_lex.specs.declared.token.Token.{Token};

    ghost Value = { List Token };

    ghost view = { λ tokens. tokens.tokens.items };
}

impl Tokens {
    /// These tokens.
    pub fn new(tokens: Vec<Token>) -> Self
        ensures { result ≡ tokens.items }
    {
        Tokens { tokens }
    }

    /// The tokens in order.
    pub fn as_slice(&self) -> &[Token]
        ensures { result.now ≡ self.now }
    {
        self.tokens.as_slice()
    }
}

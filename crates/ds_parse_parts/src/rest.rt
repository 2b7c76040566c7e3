//! The tokens that are left to read.
ghost use Rattle.std.specs.Prelude.{◌≡◌, ◌≤◌, length, option_map};
ghost use Rattle.std.specs.Option.{option_to_list};
ghost use Rattle.ds_grammar.specs.Lexemes.{lexemes, AreInside};
ghost use Rattle.ds_grammar.specs.Fault as fault;
ghost use Rattle.ds_grammar.specs.Fault.{dead_fault};
ghost use Rattle.ds_grammar.specs.Parsed.{settled_by, whole_by};
ghost use Rattle.ds_grammar.specs.Reading as reading;
ghost use Rattle.ds_grammar.specs.Reading.{first, past};

use crate::words::is_refused;
use ds_grammar::{Bound, Breach, Mark, ParseFault};
use ds_lex::{Token, TokenKind};
use std::marker::Model;

/// The tokens of a text that are left to read, without the end of the text, and the least breach that was read so far.
#[derive(Drop)]
pub struct Rest<'a> {
    text: &'a [u8],
    tokens: &'a [Token],
    worst: Option<Breach>,
}

impl<'a> Model for Rest<'a> {
    ghost use Rattle.std.specs.Prelude.{◌≤◌, length};
    ghost use Rattle.ds_grammar.specs.Lexemes.{lexemes, AreInside};
    ghost use Rattle.ds_grammar.specs.Reading.{Place};

    ghost Value = { Place };

    ghost view = { λ r. record { left = lexemes r.text.now r.tokens.now; end = length r.text.now; worst = r.worst } };

    ghost invariant = { λ r. (length r.text.now ≤ 8388608) × AreInside r.text.now r.tokens.now };
}

impl<'a> Rest<'a> {
    /// All these tokens of a text.
    pub fn new(text: &'a [u8], tokens: &'a [Token]) -> Rest<'a>
        requires small { length text.now ≤ 8388608 }
        requires inside { AreInside text.now tokens.now }
        ensures { result ≡ reading.start (lexemes text.now tokens.now) (length text.now) }
    {
        Rest {
            text,
            tokens,
            worst: None,
        }
    }

    /// The next token: its kind, its bytes, and where it begins.
    pub fn peek(&self) -> Option<(TokenKind, &'a [u8], u32)>
        ensures { option_map (λ t. record { kind = t.0; bytes = t.1.now; at = t.2 }) result ≡ first self.now.left }
    {
        match self.tokens {
            [] => None,
            [token, ..] => Some((
                token.kind,
                &self.text[token.start as usize..token.end as usize],
                token.start,
            )),
        }
    }

    /// The place behind the next token.
    pub fn past(self) -> Rest<'a>
        ensures { result ≡ past self.entry }
    {
        let Rest {
            text,
            tokens,
            worst,
        } = self;
        let tokens = match tokens {
            [] => tokens,
            [_, rest @ ..] => rest,
        };
        Rest {
            text,
            tokens,
            worst,
        }
    }

    /// This place with one more mark.
    pub fn marked(self, mark: Mark) -> Rest<'a>
        ensures { result ≡ reading.marked self.entry mark }
    {
        let Rest {
            text,
            tokens,
            worst,
        } = self;
        Rest {
            text,
            tokens,
            worst: worse(worst, mark),
        }
    }

    /// This place with this mark more, if there is one.
    pub fn marked_by(self, mark: Option<Mark>) -> Rest<'a>
        ensures { result ≡ reading.marked_all self.entry (option_to_list mark) }
    {
        match mark {
            Some(mark) => self.marked(mark),
            None => self,
        }
    }

    /// The fault where the next token is dead: that of the least breach, or else that of the token.
    pub fn stopped(&self) -> ParseFault
        ensures { result ≡ reading.refusal self.now.worst (dead_fault self.now.end self.now.left) }
    {
        match self.worst {
            Some(breach) => breach_fault(breach),
            None => match self.peek() {
                None => ParseFault::Expected {
                    at: self.text.len() as u32,
                },
                Some((kind, bytes, at)) => token_fault(kind, bytes, at),
            },
        }
    }

    /// One token that has this value.
    pub fn take<A>(self, value: Option<A>) -> Result<(A, Rest<'a>), ParseFault>
        ensures { result ≡ reading.took_at value self.entry }
    {
        match value {
            Some(value) => Ok((value, self.past())),
            None => Err(self.stopped()),
        }
    }

    /// This value and how many tokens are left, or the fault of the least breach, if one was read.
    pub fn finish<A: Drop>(self, value: A) -> Result<(A, usize), ParseFault>
        ensures { result ≡ settled_by self.entry.worst value (length self.entry.left) }
    {
        match self.worst {
            Some(breach) => Err(breach_fault(breach)),
            None => Ok((value, self.tokens.len())),
        }
    }

    /// This value where no token is left, or a fault: that of the least breach, or else that of the first token that
    /// is left.
    pub fn finish_whole<A: Drop>(self, value: A) -> Result<A, ParseFault>
        ensures { result ≡ whole_by self.entry.worst self.entry.end value self.entry.left }
    {
        match self.worst {
            Some(breach) => Err(breach_fault(breach)),
            None => match self.peek() {
                None => Ok(value),
                Some((kind, bytes, at)) => Err(token_fault(kind, bytes, at)),
            },
        }
    }
}

/// The least breach with one more mark.
fn worse(worst: Option<Breach>, mark: Mark) -> Option<Breach>
    ensures { result ≡ reading.worse worst mark }
{
    if mark.within {
        return worst;
    }
    match worst {
        Some(breach) if breach.at <= mark.breach.at => Some(breach),
        _ => Some(mark.breach),
    }
}

/// The fault of a breach.
fn breach_fault(breach: Breach) -> ParseFault
    ensures { result ≡ fault.breach_fault breach }
{
    match breach.bound {
        Bound::Range => ParseFault::Range { at: breach.at },
        Bound::Depth => ParseFault::DeepType { at: breach.at },
    }
}

/// The fault of a token that is dead.
fn token_fault(kind: TokenKind, bytes: &[u8], at: u32) -> ParseFault
    ensures { result ≡ fault.token_fault kind bytes.now at }
{
    if is_refused(kind, bytes) {
        ParseFault::Unsupported { at }
    } else {
        ParseFault::Expected { at }
    }
}

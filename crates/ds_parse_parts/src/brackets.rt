//! The brackets that are open in a balanced group.
ghost use Rattle.std.specs.Prelude.{◌≡◌, Bool, List, ℕ, [], ◌∷◌, Some, None, IfOk, MatchBool, MatchOption, IsTrue};
ghost use Rattle.std.specs.Prelude.{◌↔◌};
ghost use Rattle.ds_grammar.specs.Reading.{first_value};
ghost use Rattle.ds_grammar.specs.Rows.{open_behind, opened_by, closed_by};

use crate::rest::Rest;
use ds_lex::TokenKind;
use std::alloc::{AllocError, Global};
use std::marker::Model;

/// The brackets that are open, each as the one that closes it. Contracts see the list of them, the innermost first.
#[derive(Drop)]
pub struct Brackets {
    open: Vec<u8>,
}

impl Model for Brackets {
    ghost use Rattle.std.specs.Prelude.{List, ℕ, reverse};

    ghost Value = { List ℕ };

    ghost view = { λ b. reverse b.open.items };
}

impl Brackets {
    /// One bracket that is open.
    pub fn new(alloc: Global, closer: u8) -> Result<Brackets, AllocError>
        ensures { IfOk result (λ b. b ≡ closer ∷ []) }
    {
        let mut open = Vec::new(alloc);
        open.push(closer)?;
        Ok(Brackets { open })
    }

    /// Whether none is open.
    pub fn is_empty(&self) -> bool
        ensures { IsTrue result ↔ (self.now ≡ []) }
    {
        self.open.is_empty()
    }

    /// One more bracket that is open.
    fn push(&mut self, closer: u8) -> Result<(), AllocError>
        ensures { IfOk result (λ u. self.new ≡ closer ∷ self.old) }
    {
        self.open.push(closer)?;
        Ok(())
    }

    /// Closes the innermost bracket.
    fn pop(&mut self) -> Option<u8>
        ensures { MatchOption result ((self.old ≡ []) × (self.new ≡ [])) (λ c. self.old ≡ c ∷ self.new) }
    {
        self.open.pop()
    }

    /// Goes on behind a token. `false` where the group does not go on with it: none is open, or the token closes
    /// another bracket.
    pub fn step(&mut self, kind: TokenKind, bytes: &[u8]) -> Result<bool, AllocError>
        ensures { IfOk result
            (λ on. MatchBool on (open_behind self.old kind bytes.now ≡ Some self.new)
            ((open_behind self.old kind bytes.now ≡ None) × (self.new ≡ self.old))) }
    {
        match self.pop() {
            None => Ok(false),
            Some(innermost) => match closes(kind, bytes, innermost) {
                Some(true) => Ok(true),
                Some(false) => {
                    self.push(innermost)?;
                    Ok(false)
                }
                None => {
                    self.push(innermost)?;
                    match opens(kind, bytes) {
                        Some(closer) => self.push(closer)?,
                        None => {}
                    }
                    Ok(true)
                }
            },
        }
    }
}

/// The bracket that closes a token, where the token is one that opens.
fn opens(kind: TokenKind, bytes: &[u8]) -> Option<u8>
    ensures { result ≡ opened_by kind bytes.now }
{
    if !matches!(kind, TokenKind::Punct) {
        None
    } else if bytes == b"(".as_slice() {
        Some(b')')
    } else if bytes == b"[".as_slice() {
        Some(b']')
    } else if bytes == b"{".as_slice() {
        Some(b'}')
    } else {
        None
    }
}

/// Where a token is a bracket that closes, whether it is this one.
fn closes(kind: TokenKind, bytes: &[u8], closer: u8) -> Option<bool>
    ensures { result ≡ closed_by kind bytes.now closer }
{
    if !matches!(kind, TokenKind::Punct) {
        return None;
    }
    match bytes {
        [byte @ (b')' | b']' | b'}')] => Some(*byte == closer),
        _ => None,
    }
}

/// Whether a group goes on with the next token, and goes on behind it.
pub fn goes_on(brackets: &mut Brackets, rest: &Rest) -> Result<bool, AllocError>
    ensures { IfOk result (λ on. MatchBool on
        (first_value (λ t. open_behind brackets.old t.kind t.bytes) rest.now.left ≡ Some brackets.new)
        ((first_value (λ t. open_behind brackets.old t.kind t.bytes) rest.now.left ≡ None)
        × (brackets.new ≡ brackets.old))) }
{
    match rest.peek() {
        Some((kind, bytes, _)) => brackets.step(kind, bytes),
        None => Ok(false),
    }
}

//! The token at the front of bytes.
ghost use Rattle.std.specs.Prelude.{◌≡◌, ◌≤◌, ◌∷◌, length, IfSome, OnOk};
ghost use Rattle.ds_lex.specs.Lexed as lexed;
ghost use Rattle.ds_lex.specs.Scan as scan;

use crate::bytes::{ByteClass, RunOf, begins_name, belongs, class_of, is_quote};
use crate::number::{is_small, number_of};
use crate::token::TokenKind;

/// Why no token begins with some bytes.
#[derive(Clone, Copy, Debug, PartialEq, Eq)]
pub enum Flaw {
    /// The first byte begins none.
    Byte,
    /// The first byte begins a name, and no name follows.
    Name,
    /// What begins is a number or a name in digits, but not a whole one or not one in its range.
    Number,
    /// A text begins that has no end.
    Text,
}

/// A token's kind and its number of bytes.
type Found = (TokenKind, usize);

/// The kind of the token at the front and its number of bytes, or why none begins there.
#[tactic(auto, unfolding(crate::specs::Scan::token_at))]
pub fn token_at(bytes: &[u8]) -> Result<Found, Flaw>
    ensures { result ≡ scan.token_at bytes.now }
{
    match bytes {
        [] => Ok((TokenKind::End, 0)),
        [first, rest @ ..] => match class_of(*first) {
            ByteClass::Letter => Ok(worded(bytes)),
            ByteClass::Digit => counted(bytes),
            ByteClass::Minus => signed(bytes),
            ByteClass::Percent => named(TokenKind::Local, rest),
            ByteClass::At => named(TokenKind::Global, rest),
            ByteClass::Hash => attribute(rest),
            ByteClass::Bang => Ok((TokenKind::Meta, metadata_len(rest))),
            ByteClass::Quote => quoted(bytes),
            ByteClass::Mark => Ok((TokenKind::Punct, 1)),
            ByteClass::Blank | ByteClass::Semicolon | ByteClass::Other => Err(Flaw::Byte),
        },
    }
}

/// The word or the label that begins with a letter, or the `c` with a text behind it.
#[tactic(auto, unfolding(crate::specs::Scan::worded))]
fn worded(bytes: &[u8]) -> Found
    ensures { result ≡ scan.worded bytes.now }
{
    match ctext_len(bytes) {
        Some(len) => (TokenKind::CText, len),
        None => labelled(TokenKind::Word, run_len(RunOf::NameBytes, bytes), bytes),
    }
}

/// The text at the front, or the label that it makes with a colon.
#[tactic(auto, unfolding(crate::specs::Scan::quoted))]
fn quoted(bytes: &[u8]) -> Result<Found, Flaw>
    ensures { result ≡ scan.quoted bytes.now }
{
    match text_len(bytes) {
        Some(len) => Ok(labelled(TokenKind::Text, len, bytes)),
        None => Err(Flaw::Text),
    }
}

/// The number or the label that begins with a digit.
#[tactic(auto, unfolding(crate::specs::Scan::counted))]
fn counted(bytes: &[u8]) -> Result<Found, Flaw>
    ensures { result ≡ scan.counted bytes.now }
{
    let len = run_len(RunOf::Digits, bytes);
    if starts_colon(&bytes[len..]) {
        numbered(TokenKind::Label, len + 1, &bytes[..len])
    } else {
        integer(len, bytes)
    }
}

/// The number that begins with a sign.
#[tactic(auto, unfolding(crate::specs::Scan::signed))]
fn signed(bytes: &[u8]) -> Result<Found, Flaw>
    ensures { result ≡ scan.signed bytes.now }
{
    match bytes {
        [] => Err(Flaw::Byte),
        [_, digits @ ..] => match run_len(RunOf::Digits, digits) {
            0 => Err(Flaw::Byte),
            len => integer(1 + len, bytes),
        },
    }
}

/// The number of this many bytes, if no byte goes on it and it is in its range.
#[tactic(auto, unfolding(crate::specs::Scan::integer))]
fn integer(len: usize, bytes: &[u8]) -> Result<Found, Flaw>
    requires { len ≤ length bytes.now }
    ensures { result ≡ scan.integer len bytes.now }
{
    if !goes_on(&bytes[len..]) && number_of(&bytes[..len]).is_some() {
        Ok((TokenKind::Number, len))
    } else {
        Err(Flaw::Number)
    }
}

/// The local or the global whose name these bytes begin with.
#[tactic(auto, unfolding(crate::specs::Scan::named))]
fn named(kind: TokenKind, bytes: &[u8]) -> Result<Found, Flaw>
    ensures { result ≡ scan.named kind bytes.now }
{
    if starts_name(bytes) {
        return Ok((kind, 1 + run_len(RunOf::NameBytes, bytes)));
    }
    match run_len(RunOf::Digits, bytes) {
        0 => match text_len(bytes) {
            Some(len) => Ok((kind, 1 + len)),
            None => Err(Flaw::Name),
        },
        len => numbered(kind, 1 + len, &bytes[..len]),
    }
}

/// A token of this many bytes with a name in digits, if that is below 2^32.
#[tactic(auto, unfolding(crate::specs::Scan::numbered))]
fn numbered(kind: TokenKind, len: usize, digits: &[u8]) -> Result<Found, Flaw>
    ensures { result ≡ scan.numbered kind len digits.now }
{
    if is_small(digits) {
        Ok((kind, len))
    } else {
        Err(Flaw::Number)
    }
}

/// The name of a group of attributes, where these bytes stand behind its `#`.
#[tactic(auto, unfolding(crate::specs::Scan::attribute))]
fn attribute(bytes: &[u8]) -> Result<Found, Flaw>
    ensures { result ≡ scan.attribute bytes.now }
{
    match run_len(RunOf::Digits, bytes) {
        0 => Err(Flaw::Name),
        len => Ok((TokenKind::Attr, 1 + len)),
    }
}

/// How many bytes a `!` has with the name or the digits behind it.
#[tactic(auto, unfolding(crate::specs::Scan::metadata_len))]
fn metadata_len(bytes: &[u8]) -> usize
    ensures { result ≡ scan.metadata_len bytes.now }
{
    if starts_name(bytes) {
        1 + run_len(RunOf::NameBytes, bytes)
    } else {
        1 + run_len(RunOf::Digits, bytes)
    }
}

/// A token of this many bytes, or the label that a colon behind it makes of it.
#[tactic(auto, unfolding(crate::specs::Scan::labelled))]
fn labelled(kind: TokenKind, len: usize, bytes: &[u8]) -> Found
    requires { len ≤ length bytes.now }
    ensures { result ≡ scan.labelled kind len bytes.now }
{
    if starts_colon(&bytes[len..]) {
        (TokenKind::Label, len + 1)
    } else {
        (kind, len)
    }
}

/// How many bytes `c` and the text behind it have, if both stand at the front.
#[tactic(auto, unfolding(crate::specs::Scan::ctext_len))]
fn ctext_len(bytes: &[u8]) -> Option<usize>
    ensures len { result ≡ scan.ctext_len bytes.now }
{
    match bytes {
        [b'c', text @ ..] => Some(1 + text_len(text)?),
        _ => None,
    }
}

/// How many bytes the text at the front has, with its quotes.
#[tactic(auto, unfolding(crate::specs::Scan::text_len))]
fn text_len(bytes: &[u8]) -> Option<usize>
    ensures len { result ≡ scan.text_len bytes.now }
    ensures within { IfSome result (λ len. len ≤ length bytes.now) }
{
    match bytes {
        [] => None,
        [first, inside @ ..] => {
            if is_quote(*first) {
                Some(1 + closed_len(inside)?)
            } else {
                None
            }
        }
    }
}

/// How many bytes stand up to and with the first quote.
#[tactic(auto, unfolding(crate::specs::Scan::closed_len))]
fn closed_len(bytes: &[u8]) -> Option<usize>
    ensures len { result ≡ scan.closed_len bytes.now }
    ensures within { IfSome result (λ len. len ≤ length bytes.now) }
{
    let len = run_len(RunOf::TextBytes, bytes);
    (len < bytes.len()).then_some(len + 1)
}

/// Whether the bytes begin with a colon.
fn starts_colon(bytes: &[u8]) -> bool
    ensures { result ≡ scan.starts_colon bytes.now }
{
    match bytes {
        [] => false,
        [first, ..] => *first == b':',
    }
}

/// Whether the bytes begin with one that begins a name.
fn starts_name(bytes: &[u8]) -> bool
    ensures { result ≡ scan.starts_name bytes.now }
{
    match bytes {
        [] => false,
        [first, ..] => begins_name(*first),
    }
}

/// Whether the bytes begin with one that goes on a name or a number before them.
fn goes_on(bytes: &[u8]) -> bool
    ensures { result ≡ lexed.goes_on bytes.now }
{
    match bytes {
        [] => false,
        [first, ..] => belongs(RunOf::NameBytes, *first),
    }
}

/// How many bytes of the set stand at the front.
fn run_len(set: RunOf, bytes: &[u8]) -> usize
    ensures len { result ≡ scan.run_len set bytes.now }
    ensures within { result ≤ length bytes.now }
{
    for (i, byte) in bytes.iter().enumerate() {
        if !belongs(set, *byte) {
            return i;
        }
    }
    bytes.len()
}

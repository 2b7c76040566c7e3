//! From bytes to tokens.
ghost use Rattle.std.specs.Prelude.{◌≡◌, ◌≤◌, ◌⊎◌, false, List, [], length, Ok, Err, IfOk, IfErr, IfSome, MatchResult};
ghost use Rattle.ds_lex.specs.declared.token.Token.{Token};
ghost use Rattle.ds_lex.specs.Lexed.{Lexed, IsTokenAt};
ghost use Rattle.ds_lex.specs.Fault.{FaultFrom, HasFault, TokensOrFault};
ghost use Rattle.ds_lex.specs.Scan as scan;

use crate::bytes::{ByteClass, class_of};
use crate::fault::LexFault;
use crate::token::{Token, TokenKind, Tokens};
use crate::words::{Flaw, token_at};
use std::alloc::Global;

/// The tokens of a text of at most 8,388,608 bytes. Blanks and comments may stand before each token.
///
/// A text has tokens or one lexical fault, which `LexFault` lists: that of the first place at which a token should
/// begin and none does. `Memory` comes where there is not enough memory for the list.
pub fn lex(alloc: Global, text: &[u8]) -> Result<Tokens, LexFault>
    requires { length text.now ≤ 8388608 }
    ensures tokens { IfOk result (λ tokens. Lexed text.now tokens) }
    ensures only { (tokens : List Token) → Lexed text.now tokens →
        MatchResult result (λ found. found ≡ tokens) (λ fault. fault ≡ LexFault.Memory) }
    ensures fault { IfErr result (λ fault. (fault ≡ LexFault.Memory) ⊎ HasFault text.now fault) }
    ensures only_fault { (fault : LexFault) → HasFault text.now fault →
        (result ≡ Err fault) ⊎ (result ≡ Err LexFault.Memory) }
{
    let mut tokens = Vec::new(alloc);
    let mut at = 0;
    loop {
        let token = next_token(text, at)?;
        tokens.push(token).map_err(|_| LexFault::Memory)?;
        match token.kind {
            TokenKind::End => return Ok(Tokens::new(tokens)),
            _ => at = token.end as usize,
        }
    }
}

/// The first token behind `at` bytes of the text, or the fault where it should begin.
fn next_token(text: &[u8], at: usize) -> Result<Token, LexFault>
    requires small { length text.now ≤ 8388608 }
    requires within { at ≤ length text.now }
    ensures found { IfOk result (λ token. IsTokenAt text.now at token) }
    ensures only { (token : Token) → IsTokenAt text.now at token → result ≡ Ok token }
    ensures fault { IfErr result (λ fault. FaultFrom text.now at [] fault) }
    ensures only_fault { (fault : LexFault) → FaultFrom text.now at [] fault → result ≡ Err fault }
{
    let start = at + gap_len(&text[at..]);
    match token_at(&text[start..]) {
        Ok((kind, len)) => Ok(Token {
            kind,
            start: start as u32,
            end: (start + len) as u32,
        }),
        Err(flaw) => Err(fault(flaw, start as u32, text.len() as u32)),
    }
}

/// The fault of a text with this many bytes, where a token should begin behind the first `start`.
fn fault(flaw: Flaw, start: u32, length: u32) -> LexFault
    ensures { result ≡ scan.fault_of flaw start length }
{
    match flaw {
        Flaw::Byte => LexFault::BadByte { at: start },
        Flaw::Name => LexFault::BadName { at: start },
        Flaw::Number => LexFault::BadNumber { at: start },
        Flaw::Text => LexFault::OpenText { at: length },
    }
}

/// How many bytes of blanks and comments stand at the front.
fn gap_len(bytes: &[u8]) -> usize
    ensures len { result ≡ scan.gap_len false bytes.now }
    ensures within { result ≤ length bytes.now }
{
    let mut in_comment = false;
    for (i, byte) in bytes.iter().enumerate() {
        match comment_behind(in_comment, *byte) {
            Some(inside) => in_comment = inside,
            None => return i,
        }
    }
    bytes.len()
}

/// Whether a comment is open behind a byte that stands between tokens, by whether one is open before it.
fn comment_behind(in_comment: bool, byte: u8) -> Option<bool>
    ensures { result ≡ scan.comment_behind in_comment byte }
{
    if in_comment {
        return Some(byte != b'\n');
    }
    match class_of(byte) {
        ByteClass::Blank => Some(false),
        ByteClass::Semicolon => Some(true),
        _ => None,
    }
}

/// No text has both tokens and a lexical fault: a caller calls this function, which does nothing, and uses what it
/// ensures.
pub fn tokens_or_fault()
    ensures { TokensOrFault }
{}

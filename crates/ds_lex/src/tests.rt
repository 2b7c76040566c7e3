//! A text with a token of each kind, and one with a fault.
use super::*;
use std::test::Fail;

/// One token of each kind, in the order of `TEXT`.
const TOKENS: [(TokenKind, u32, u32); 11] = [
    (TokenKind::Label, 0, 2),
    (TokenKind::Word, 3, 6),
    (TokenKind::Number, 7, 9),
    (TokenKind::Local, 10, 12),
    (TokenKind::Global, 13, 17),
    (TokenKind::Attr, 18, 20),
    (TokenKind::Meta, 21, 23),
    (TokenKind::Text, 24, 27),
    (TokenKind::CText, 28, 32),
    (TokenKind::Punct, 33, 34),
    (TokenKind::End, 36, 36),
];

const TEXT: &[u8] = b"a: ret -6 %x @\"y\" #0 !d \"t\" c\"u\" { ;";

#[test]
fn gives_the_tokens_of_a_text(rt: HostRuntime) -> Result<(), Fail> {
    let tokens = lex(rt.alloc(), TEXT)?;
    assert_eq!(rt; tokens.as_slice().len(), TOKENS.len());
    for (token, (kind, start, end)) in tokens.as_slice().iter().zip(&TOKENS) {
        assert!(rt; token.kind == *kind && token.start == *start && token.end == *end);
    }
    Ok(())
}

#[test]
fn tells_the_first_fault_of_a_text(rt: HostRuntime) -> Result<(), Fail> {
    let told = lex(rt.alloc(), b"a % ?").err();
    assert_eq!(rt; told, Some(LexFault::BadName { at: 2 }));
    assert_eq!(rt; number_of(b"-1"), Some(u64::MAX));
    Ok(())
}

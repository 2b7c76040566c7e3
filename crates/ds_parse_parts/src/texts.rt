//! What the bytes of a text stand for.
ghost use Rattle.std.specs.Prelude.{◌≡◌, ◌<◌, ◌*◌, ◌+◌, IfOk, IsTrue, option_map};
ghost use Rattle.ds_grammar.specs.Texts as spec;
ghost use Rattle.ds_parse_parts.specs.Texts.{next_byte};

use std::alloc::{AllocError, Global};

/// Whether a byte is a hexadecimal digit.
fn is_hexadecimal(byte: u8) -> bool
    ensures { result ≡ spec.is_hexadecimal byte }
{
    byte.is_ascii_digit() || (b'A'..=b'F').contains(&byte) || (b'a'..=b'f').contains(&byte)
}

/// The value of a hexadecimal digit.
fn hexadecimal(byte: u8) -> u8
    requires { IsTrue (spec.is_hexadecimal byte) }
    ensures value { result ≡ spec.hexadecimal byte }
    ensures small { result < 16 }
{
    if byte.is_ascii_digit() {
        byte - b'0'
    } else if byte <= b'F' {
        byte - b'A' + 10
    } else {
        byte - b'a' + 10
    }
}

/// The first byte that the bytes stand for, and the bytes behind its spelling.
fn next_byte(bytes: &[u8]) -> Option<(u8, &[u8])>
    ensures { option_map (λ p. (p.0, p.1.now)) result ≡ next_byte bytes.now }
{
    match bytes {
        [] => None,
        [b'\\', b'\\', rest @ ..] => Some((b'\\', rest)),
        [b'\\', high, low, rest @ ..] if is_hexadecimal(*high) && is_hexadecimal(*low) => {
            Some((16 * hexadecimal(*high) + hexadecimal(*low), rest))
        }
        [byte, rest @ ..] => Some((*byte, rest)),
    }
}

/// What the bytes between the quotes of a text stand for.
fn text_value(alloc: Global, bytes: &[u8]) -> Result<Vec<u8>, AllocError>
    ensures { IfOk result (λ value. value.items ≡ spec.text_value bytes.now) }
{
    let mut value = Vec::new(alloc);
    let mut rest = bytes;
    while let Some((byte, behind)) = next_byte(rest) {
        value.push(byte)?;
        rest = behind;
    }
    Ok(value)
}

/// What a whole text stands for, with its quotes.
pub fn text_of(alloc: Global, bytes: &[u8]) -> Result<Vec<u8>, AllocError>
    ensures { IfOk result (λ value. value.items ≡ spec.text_of bytes.now) }
{
    match bytes {
        [] => Ok(Vec::new(alloc)),
        [_, bytes @ ..] => text_value(alloc, &bytes[..bytes.len().saturating_sub(1)]),
    }
}

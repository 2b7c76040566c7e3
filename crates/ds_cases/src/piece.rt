//! A piece of an input or an output, as a line of a file of cases has it.
ghost use Rattle.std.specs.Prelude.{◌≡◌, ◌++◌, OnOk};
ghost use Rattle.ds_cases.specs.Texts.{repeated};

use crate::text::push_with;
use std::alloc::{AllocError, Global};

/// What stands for the number of a time.
const NUMBER: &[u8] = b"NUMBER";

/// A piece of a text.
#[derive(Clone, Copy, Debug)]
pub enum Piece<'a> {
    /// These bytes and a line feed.
    Line(&'a str),
    /// These bytes.
    Text(&'a str),
    /// Bytes by their hexadecimal digits, with blanks between them.
    Hexadecimal(&'a str),
    /// These bytes so many times.
    Repeated(u32, &'a str),
    /// These bytes so many times, with the number of each time, from 0 on, wherever `NUMBER` stands in them.
    Numbered(u32, &'a str),
    /// The bytes of a file.
    File(&'a str),
}

/// The piece that a line has behind its `<` or `>`, or `None` where it has none.
pub fn piece_of(rest: &str) -> Option<Piece<'_>> {
    if rest.is_empty() {
        return Some(Piece::Line(""));
    }
    let (kind, text) = rest.split_once(' ')?;
    match kind {
        "" => Some(Piece::Line(text)),
        "-" => Some(Piece::Text(text)),
        "x" => Some(Piece::Hexadecimal(text)),
        "*" => {
            let (times, bytes) = times_of(text)?;
            Some(Piece::Repeated(times, bytes))
        }
        "#" => {
            let (times, bytes) = times_of(text)?;
            Some(Piece::Numbered(times, bytes))
        }
        "@" => Some(Piece::File(text)),
        _ => None,
    }
}

/// How many times a text between quotes stands.
fn times_of(text: &str) -> Option<(u32, &str)> {
    let (times, quoted) = text.split_once(' ')?;
    let bytes = quoted.strip_prefix('"')?.strip_suffix('"')?;
    Some((times.parse::<u32>().ok()?, bytes))
}

/// Adds bytes by their hexadecimal digits, up to the first that are none: it answers whether all were added.
pub fn push_hexadecimal(text: &mut Vec<u8>, bytes: &str) -> Result<bool, AllocError> {
    for digits in bytes.split_whitespace() {
        match u8::from_str_radix(digits, 16) {
            Ok(byte) => text.push(byte)?,
            Err(_) => return Ok(false),
        }
    }
    Ok(true)
}

/// Adds bytes so many times.
pub fn push_repeated(text: &mut Vec<u8>, times: u32, bytes: &[u8]) -> Result<(), AllocError>
    ensures { OnOk result (text.new.items ≡ text.old.items ++ repeated times bytes.now) }
{
    for _time in 0..times {
        text.extend_from_slice(bytes)?;
    }
    Ok(())
}

/// Adds bytes so many times, each with its number.
pub fn push_numbered(
    alloc: Global,
    text: &mut Vec<u8>,
    times: u32,
    bytes: &[u8],
) -> Result<(), AllocError> {
    for number in 0..times {
        let digits = format!(in alloc; "{number}")?;
        push_with(text, bytes, NUMBER, digits.as_bytes())?;
    }
    Ok(())
}

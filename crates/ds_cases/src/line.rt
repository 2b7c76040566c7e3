//! What a line of a file of cases says.
use crate::piece::{Piece, piece_of};

/// What a line says.
#[derive(Clone, Copy, Debug)]
pub enum Line<'a> {
    /// Nothing: it is empty or a comment.
    Nothing,
    /// A case of this name begins.
    Case(&'a str),
    /// The words behind the program's name.
    Words(&'a str),
    /// The status that is wanted.
    Status(u8),
    /// How many bytes the sink takes in all.
    Room(usize),
    /// How many bytes a read or a write moves at most.
    Most(usize),
    /// The number of the read that fails.
    FailRead(u32),
    /// The number of the write that fails.
    FailWrite(u32),
    /// Words that stand for `WORD`.
    Each(&'a str),
    /// A piece of the input.
    Input(Piece<'a>),
    /// A piece of the output that is wanted.
    Output(Piece<'a>),
}

/// What a line says, or `None` where it is none of the format.
pub fn line_of(line: &str) -> Option<Line<'_>> {
    if line.is_empty() || line.starts_with('#') {
        return Some(Line::Nothing);
    }
    if let Some(rest) = line.strip_prefix('<') {
        return Some(Line::Input(piece_of(rest)?));
    }
    if let Some(rest) = line.strip_prefix('>') {
        return Some(Line::Output(piece_of(rest)?));
    }
    let (word, rest) = line.split_once(' ')?;
    match word {
        "case" => Some(Line::Case(rest)),
        "words" => Some(Line::Words(rest)),
        "each" => Some(Line::Each(rest)),
        _ => number_of(word, rest),
    }
}

/// What a line with a number says.
fn number_of<'a>(word: &str, rest: &str) -> Option<Line<'a>> {
    match word {
        "status" => Some(Line::Status(rest.parse::<u8>().ok()?)),
        "room" => Some(Line::Room(rest.parse::<usize>().ok()?)),
        "most" => Some(Line::Most(rest.parse::<usize>().ok()?)),
        "fail_read" => Some(Line::FailRead(rest.parse::<u32>().ok()?)),
        "fail_write" => Some(Line::FailWrite(rest.parse::<u32>().ok()?)),
        _ => None,
    }
}

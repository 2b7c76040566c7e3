//! The cases of a file.
use crate::case::Case;
use crate::error::CaseError;
use crate::files::read_bytes;
use crate::line::{Line, line_of};
use crate::piece::{Piece, push_hexadecimal, push_numbered, push_repeated};
use crate::settings::{AT_FIRST, Settings};
use std::rt::Files;

/// Adds a piece to a text, and answers whether it could be read.
fn push_piece<R: Files + AllocGlobal>(
    rt: &R,
    folder: &str,
    text: &mut Vec<u8>,
    piece: Piece<'_>,
) -> Result<bool, CaseError> {
    match piece {
        Piece::Line(bytes) => {
            text.extend_from_slice(bytes.as_bytes())?;
            text.push(b'\n')?;
        }
        Piece::Text(bytes) => text.extend_from_slice(bytes.as_bytes())?,
        Piece::Hexadecimal(bytes) => return Ok(push_hexadecimal(text, bytes)?),
        Piece::Repeated(times, bytes) => push_repeated(text, times, bytes.as_bytes())?,
        Piece::Numbered(times, bytes) => push_numbered(rt.alloc(), text, times, bytes.as_bytes())?,
        Piece::File(file) => {
            let bytes = read_bytes(rt, folder, file)?;
            text.extend_from_slice(bytes.as_slice())?;
        }
    }
    Ok(true)
}

/// Changes a setting, and answers whether the line says one. Any other line is one of a case.
fn set<'a>(settings: &mut Settings<'a>, line: Line<'a>) -> bool {
    match line {
        Line::Words(words) => settings.words = words,
        Line::Status(status) => settings.status = status,
        Line::Room(room) => settings.room = room,
        Line::Most(most) => settings.most = most,
        Line::FailRead(number) => settings.fail_read = number,
        Line::FailWrite(number) => settings.fail_write = number,
        _ => return false,
    }
    true
}

/// Adds what a line says to the case that it stands in, and answers whether it could be read.
fn add<'a, R: Files + AllocGlobal>(
    rt: &R,
    folder: &str,
    case: &mut Case<'a>,
    line: Line<'a>,
) -> Result<bool, CaseError> {
    match line {
        Line::Each(words) => {
            for word in words.split_whitespace() {
                case.each.push(word)?;
            }
        }
        Line::Input(piece) => return push_piece(rt, folder, &mut case.input, piece),
        Line::Output(piece) => return push_piece(rt, folder, &mut case.output, piece),
        setting => return Ok(set(&mut case.settings, setting)),
    }
    Ok(true)
}

/// Takes a line: a case begins, or it is added to the last one, or changes the settings of all cases from here on.
/// The answer is whether it could be read.
fn take<'a, R: Files + AllocGlobal>(
    rt: &R,
    folder: &str,
    settings: &mut Settings<'a>,
    cases: &mut Vec<Case<'a>>,
    line: Line<'a>,
) -> Result<bool, CaseError> {
    match line {
        Line::Nothing => {}
        Line::Case(name) => cases.push(Case::new(rt.alloc(), name, *settings))?,
        other => match cases.last_mut() {
            Some(case) => return add(rt, folder, case, other),
            None => return Ok(set(settings, other)),
        },
    }
    Ok(true)
}

/// The cases of a file's text.
///
/// # Errors
///
/// A line that is none of the format, a line of a case before the first, a file that cannot be read, or want of
/// memory.
pub fn read_cases<'a, R: Files + AllocGlobal>(
    rt: &R,
    folder: &str,
    file: &str,
    text: &'a str,
) -> Result<Vec<Case<'a>>, CaseError> {
    let mut settings = AT_FIRST;
    let mut cases: Vec<Case<'a>> = Vec::new(rt.alloc());
    for (index, line) in text.lines().enumerate() {
        let is_read = match line_of(line) {
            Some(said) => take(rt, folder, &mut settings, &mut cases, said)?,
            None => false,
        };
        if !is_read {
            return Err(CaseError::Line {
                file: String::from_str(rt.alloc(), file)?,
                number: index.saturating_add(1),
            });
        }
    }
    Ok(cases)
}

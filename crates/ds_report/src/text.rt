//! Pieces of text.

ghost use Rattle.std.specs.Prelude.{◌≡◌, ◌++◌, option_copied, slice_get, OnOk};
ghost use Rattle.ds_report.specs.Function.{function_text};
ghost use Rattle.ds_report.specs.Text.{signed_text, hex_text};

use ds_ast::Name;
use ds_print::push_global;
use itoa::{Buffer, Integer};
use std::alloc::{AllocError, Global};

/// Adds a piece to a text.
pub fn push(text: &mut Vec<u8>, piece: &[u8]) -> Result<(), AllocError>
    ensures { OnOk result (text.new.items ≡ text.old.items ++ piece.now) }
{
    text.extend_from_slice(piece)
}

/// Adds a number in decimal to a text, a negative one with its sign.
pub fn push_number<I: Integer>(text: &mut Vec<u8>, number: I) -> Result<(), AllocError>
    ensures { OnOk result (text.new.items ≡ text.old.items ++ I.text number) }
{
    let mut buffer = Buffer::new();
    text.extend_from_slice(buffer.format(number).as_bytes())
}

/// Adds 64 bits to a text, as the signed decimal number that they are.
pub fn push_signed(text: &mut Vec<u8>, value: u64) -> Result<(), AllocError>
    ensures { OnOk result (text.new.items ≡ text.old.items ++ signed_text value) }
{
    push_number(text, value.cast_signed())
}

/// Adds an address or a word to a text: `0x` and lower-case hexadecimal digits without leading zeros.
pub fn push_hex(alloc: Global, text: &mut Vec<u8>, value: u64) -> Result<(), AllocError>
    ensures { OnOk result (text.new.items ≡ text.old.items ++ hex_text value) }
{
    let digits = format!(in alloc; "{value:x}")?;
    push(text, b"0x")?;
    push(text, digits.as_bytes())
}

/// Adds a piece and a number in decimal to a text.
pub fn push_counted<I: Integer>(
    text: &mut Vec<u8>,
    piece: &[u8],
    number: I,
) -> Result<(), AllocError>
    ensures { OnOk result (text.new.items ≡ text.old.items ++ (piece.now ++ I.text number)) }
{
    push(text, piece)?;
    push_number(text, number)
}

/// Adds a piece and an address or a word to a text.
pub fn push_word(
    alloc: Global,
    text: &mut Vec<u8>,
    piece: &[u8],
    value: u64,
) -> Result<(), AllocError>
    ensures { OnOk result (text.new.items ≡ text.old.items ++ (piece.now ++ hex_text value)) }
{
    push(text, piece)?;
    push_hex(alloc, text, value)
}

/// The name at a place of a list.
fn name_at(names: &[Name], place: usize) -> Option<&Name>
    ensures { option_copied result ≡ slice_get names.now place }
{
    names.get(place)
}

/// Adds in which function something is, by the names of all functions in the order of the text. A number that no
/// function has is told by nothing.
pub fn push_function(text: &mut Vec<u8>, names: &[Name], f: u32) -> Result<(), AllocError>
    ensures { OnOk result (text.new.items ≡ text.old.items ++ function_text names.now f) }
{
    push(text, b" in ")?;
    if let Some(name) = name_at(names, f as usize) {
        push_global(text, name)?;
    }
    Ok(())
}

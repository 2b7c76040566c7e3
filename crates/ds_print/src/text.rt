//! Pieces of text.
ghost use Rattle.std.specs.Prelude.{◌≡◌, ◌++◌, [], ◌∷◌, OnOk};
ghost use Rattle.ds_lex.specs.Written.{written};
ghost use Rattle.ds_print.specs.Names.{number};
ghost use Rattle.ds_print.specs.Separators.{comma_before, space_before};

use itoa::{Buffer, Integer};
use std::alloc::AllocError;

/// Adds bytes to a text.
pub fn push(text: &mut Vec<u8>, bytes: &[u8]) -> Result<(), AllocError>
    ensures { OnOk result (text.new.items ≡ text.old.items ++ bytes.now) }
{
    text.extend_from_slice(bytes)
}

/// Adds a number in decimal.
pub fn push_number<I: Integer>(text: &mut Vec<u8>, number: I) -> Result<(), AllocError>
    ensures { OnOk result (text.new.items ≡ text.old.items ++ I.text number) }
{
    let mut buffer = Buffer::new();
    text.extend_from_slice(buffer.format(number).as_bytes())
}

/// Adds what stands before the item with this index of a list: a comma and a space before all but the first.
pub fn push_comma(text: &mut Vec<u8>, index: usize) -> Result<(), AllocError>
    ensures { OnOk result (text.new.items ≡ text.old.items ++ written (comma_before index)) }
{
    if index == 0 {
        Ok(())
    } else {
        push(text, b", ")
    }
}

/// Adds what stands before the item with this index of a list in brackets: a space, behind a comma before all but the
/// first.
pub fn push_space(text: &mut Vec<u8>, index: usize) -> Result<(), AllocError>
    ensures { OnOk result (text.new.items ≡ text.old.items ++ written (space_before index)) }
{
    if index == 0 {
        push(text, b" ")
    } else {
        push(text, b", ")
    }
}

/// Adds a number without a sign, as the count of an array.
pub fn push_count(text: &mut Vec<u8>, count: u32) -> Result<(), AllocError>
    ensures { OnOk result (text.new.items ≡ text.old.items ++ written (number count ∷ [])) }
{
    push_number(text, count)
}

//! Names: plain where they can be, and else between quotes.
ghost use Rattle.std.specs.Prelude.{◌≡◌, ◌++◌, ◌<◌, [], ◌∷◌, flat_map, OnOk};
ghost use Rattle.ds_lex.specs.Written.{written};
ghost use Rattle.ds_lex.specs.Bytes as bytes_spec;
ghost use Rattle.ds_lex.specs.declared.bytes.RunOf.TheVariants.{NameBytes};
ghost use Rattle.ds_print.specs.Names as spec;
ghost use Rattle.ds_print.specs.Names.{escaped, name_text, label_text, local, global, label, quoted};
ghost use Rattle.std.specs.List.{list_all};

use crate::text::{push, push_number};
use ds_ast::Name;
use ds_lex::{ByteClass, RunOf, begins_name, belongs, class_of};
use std::alloc::AllocError;

/// Whether each of the bytes may stand in a name behind its first byte.
fn are_name_bytes(bytes: &[u8]) -> bool
    ensures { result ≡ list_all (bytes_spec.belongs NameBytes) bytes.now }
{
    for byte in bytes {
        if !belongs(RunOf::NameBytes, *byte) {
            return false;
        }
    }
    true
}

/// Whether the bytes can stand behind `%` or `@` without quotes: a letter or `-`, and then letters, `-` and digits.
fn is_plain_name(bytes: &[u8]) -> bool
    ensures { result ≡ spec.is_plain_name bytes.now }
{
    match bytes.split_first() {
        None => false,
        Some((first, rest)) => { begins_name(*first) && are_name_bytes(rest) }
    }
}

/// Whether the bytes can stand before a label's colon without quotes: a letter, and then letters, `-` and digits.
fn is_plain_label(bytes: &[u8]) -> bool
    ensures { result ≡ spec.is_plain_label bytes.now }
{
    match bytes.split_first() {
        None => false,
        Some((first, rest)) => {
            matches!(class_of(*first), ByteClass::Letter) && are_name_bytes(rest)
        }
    }
}

/// Whether a byte stands between quotes as it is.
fn stands_for_itself(byte: u8) -> bool
    ensures { result ≡ spec.stands_for_itself byte }
{
    byte >= 32 && byte <= 126 && byte != b'"' && byte != b'\\'
}

/// The upper-case hexadecimal digit of a number below 16.
fn hexadecimal_digit(digit: u8) -> u8
    requires { digit < 16 }
    ensures { result ≡ spec.hexadecimal_digit digit }
{
    if digit < 10 {
        b'0' + digit
    } else {
        b'A' - 10 + digit
    }
}

/// Adds a byte between quotes: itself, or a backslash and its two hexadecimal digits.
fn push_escaped(text: &mut Vec<u8>, byte: u8) -> Result<(), AllocError>
    ensures { OnOk result (text.new.items ≡ text.old.items ++ escaped byte) }
{
    if stands_for_itself(byte) {
        text.push(byte)?;
    } else {
        text.push(b'\\')?;
        text.push(hexadecimal_digit(byte / 16))?;
        text.push(hexadecimal_digit(byte % 16))?;
    }
    Ok(())
}

/// Adds bytes, each as it stands between quotes.
fn push_all_escaped(text: &mut Vec<u8>, bytes: &[u8]) -> Result<(), AllocError>
    ensures { OnOk result (text.new.items ≡ text.old.items ++ flat_map escaped bytes.now) }
{
    for byte in bytes {
        push_escaped(text, *byte)?;
    }
    Ok(())
}

/// Adds bytes between quotes.
#[tactic(auto, unfolding(crate::specs::Names::quoted))]
fn push_quoted(text: &mut Vec<u8>, bytes: &[u8]) -> Result<(), AllocError>
    ensures { OnOk result (text.new.items ≡ text.old.items ++ quoted bytes.now) }
{
    push(text, b"\"")?;
    push_all_escaped(text, bytes)?;
    push(text, b"\"")?;
    Ok(())
}

/// Adds a name as it stands behind `%` or `@`.
fn push_name(text: &mut Vec<u8>, name: &Name) -> Result<(), AllocError>
    ensures { OnOk result (text.new.items ≡ text.old.items ++ name_text name.now) }
{
    match name {
        Name::Number(number) => push_number(text, u64::from(*number)),
        Name::Text(bytes) => {
            if is_plain_name(bytes.as_slice()) {
                push(text, bytes.as_slice())
            } else {
                push_quoted(text, bytes.as_slice())
            }
        }
    }
}

/// Adds a name as it stands before a label's colon.
fn push_label_name(text: &mut Vec<u8>, name: &Name) -> Result<(), AllocError>
    ensures { OnOk result (text.new.items ≡ text.old.items ++ label_text name.now) }
{
    match name {
        Name::Number(number) => push_number(text, u64::from(*number)),
        Name::Text(bytes) => {
            if is_plain_label(bytes.as_slice()) {
                push(text, bytes.as_slice())
            } else {
                push_quoted(text, bytes.as_slice())
            }
        }
    }
}

/// Adds `%` and the name of a local value, a block or a struct type.
pub fn push_local(text: &mut Vec<u8>, name: &Name) -> Result<(), AllocError>
    ensures { OnOk result (text.new.items ≡ text.old.items ++ written (local name.now ∷ [])) }
{
    push(text, b"%")?;
    push_name(text, name)
}

/// Adds `@` and the name of a global or a function.
pub fn push_global(text: &mut Vec<u8>, name: &Name) -> Result<(), AllocError>
    ensures { OnOk result (text.new.items ≡ text.old.items ++ written (global name.now ∷ [])) }
{
    push(text, b"@")?;
    push_name(text, name)
}

/// Adds a label: a name and a colon.
pub fn push_label(text: &mut Vec<u8>, name: &Name) -> Result<(), AllocError>
    ensures { OnOk result (text.new.items ≡ text.old.items ++ written (label name.now ∷ [])) }
{
    push_label_name(text, name)?;
    push(text, b":")
}

//! The faults that end a call before anything is run.

ghost use Rattle.std.specs.Prelude.{◌≡◌, ◌++◌, OnOk, IfOk};
ghost use Rattle.ds_report.specs.Fault.{place_text, lexical_text, parse_text, fault_text};
ghost use Rattle.ds_report.specs.Fault.{local_line, global_line, large_line, shape_text};
ghost use Rattle.ds_report.specs.Fault.{instruction_line, inner_line, wrong_type_line, kind_text, count_line};
ghost use Rattle.ds_report.specs.Fault.{check_text};

use crate::text::{push, push_function, push_number};
use ds_ast::{List, Name};
use ds_check::{CountKind, TypeFault};
use ds_grammar::ParseFault;
use ds_lex::LexFault;
use ds_print::{push_global, push_local};
use ds_shape::ShapeFault;
use std::alloc::{AllocError, Global};

/// What was refused, in the order in which it is looked for.
#[derive(Debug, Drop)]
pub enum Fault {
    /// The words are no job's.
    Usage,
    /// The input could not be read to its end.
    Read,
    /// The input has more than 8,388,608 bytes.
    TooLong,
    /// The input spells no module. Want of memory is no such fault: it is told by the status of the call alone, and
    /// has no line.
    Parse(ParseFault),
    /// The module has no layout. Want of memory has no line here either.
    Shape(ShapeFault),
    /// The module has a layout, and is not accepted. The names are those of all functions of the module in the order
    /// of the text, of which the fault tells numbers. Want of memory has no line here either.
    Check(TypeFault, List<Name>),
}

/// The line that tells a fault, with its line feed. Want of memory has none.
pub fn fault_line(alloc: Global, fault: &Fault) -> Result<Vec<u8>, AllocError>
    ensures { IfOk result (λ line. line.items ≡ fault_text fault.now) }
{
    let mut line = Vec::new(alloc);
    match fault {
        Fault::Usage => push(&mut line, b"error: usage\n")?,
        Fault::Read => push(&mut line, b"error: read failed\n")?,
        Fault::TooLong => push(&mut line, b"error: input longer than 8388608 bytes\n")?,
        Fault::Parse(fault) => push_parse_fault(&mut line, fault)?,
        Fault::Shape(fault) => push_shape_fault(&mut line, fault)?,
        Fault::Check(fault, names) => push_type_fault(&mut line, names.as_slice(), fault)?,
    }
    Ok(line)
}

/// Adds the line that tells why a text gives no module.
fn push_parse_fault(line: &mut Vec<u8>, fault: &ParseFault) -> Result<(), AllocError>
    ensures { OnOk result (line.new.items ≡ line.old.items ++ parse_text fault.now) }
{
    match fault {
        ParseFault::Lex(fault) => push_lexical_fault(line, fault),
        ParseFault::Expected { at } => push_place(line, b"syntax", *at),
        ParseFault::Unsupported { at } => push_place(line, b"unsupported", *at),
        ParseFault::Range { at } => push_place(line, b"out of range", *at),
        ParseFault::DeepType { at } => push_place(line, b"type too deep", *at),
        ParseFault::Memory => Ok(()),
    }
}

/// Adds the line that tells a lexical fault.
fn push_lexical_fault(line: &mut Vec<u8>, fault: &LexFault) -> Result<(), AllocError>
    ensures { OnOk result (line.new.items ≡ line.old.items ++ lexical_text fault.now) }
{
    match fault {
        LexFault::BadByte { at } => push_place(line, b"bad byte", *at),
        LexFault::BadName { at } => push_place(line, b"bad name", *at),
        LexFault::BadNumber { at } => push_place(line, b"bad number", *at),
        LexFault::OpenText { at } => push_place(line, b"open text", *at),
        LexFault::Memory => Ok(()),
    }
}

/// Adds the line that tells what stands at a place of the text.
fn push_place(line: &mut Vec<u8>, what: &[u8], at: u32) -> Result<(), AllocError>
    ensures { OnOk result (line.new.items ≡ line.old.items ++ place_text what.now at) }
{
    push(line, b"error: ")?;
    push(line, what)?;
    push(line, b" at ")?;
    push_number(line, at)?;
    push(line, b"\n")?;
    Ok(())
}

/// Adds the line that tells why a module has no layout.
fn push_shape_fault(line: &mut Vec<u8>, fault: &ShapeFault) -> Result<(), AllocError>
    ensures { OnOk result (line.new.items ≡ line.old.items ++ shape_text fault.now) }
{
    match fault {
        ShapeFault::TwiceType { name } => push_local_line(line, b"twice", name),
        ShapeFault::Unknown { name } => push_local_line(line, b"unknown type", name),
        ShapeFault::RecursiveType { name } => push_local_line(line, b"recursive type", name),
        ShapeFault::TooLarge { name, is_struct } => push_large_line(line, *is_struct, name),
        ShapeFault::Memory => Ok(()),
    }
}

/// Adds the line that tells who writes a type that is too large.
fn push_large_line(line: &mut Vec<u8>, is_struct: bool, name: &Name) -> Result<(), AllocError>
    ensures { OnOk result (line.new.items ≡ line.old.items ++ large_line is_struct name.now) }
{
    if is_struct {
        push_local_line(line, b"too large", name)
    } else {
        push_global_line(line, b"too large", name)
    }
}

/// Adds the line that tells what is wrong with a struct type.
fn push_local_line(line: &mut Vec<u8>, what: &[u8], name: &Name) -> Result<(), AllocError>
    ensures { OnOk result (line.new.items ≡ line.old.items ++ local_line what.now name.now) }
{
    push(line, b"error: ")?;
    push(line, what)?;
    push(line, b" ")?;
    push_local(line, name)?;
    push(line, b"\n")?;
    Ok(())
}

/// Adds the line that tells what is wrong with a global or a function.
fn push_global_line(line: &mut Vec<u8>, what: &[u8], name: &Name) -> Result<(), AllocError>
    ensures { OnOk result (line.new.items ≡ line.old.items ++ global_line what.now name.now) }
{
    push(line, b"error: ")?;
    push(line, what)?;
    push(line, b" ")?;
    push_global(line, name)?;
    push(line, b"\n")?;
    Ok(())
}

/// Adds the line that tells why a module with a layout is not accepted.
fn push_type_fault(line: &mut Vec<u8>, names: &[Name], fault: &TypeFault) -> Result<(), AllocError>
    ensures { OnOk result (line.new.items ≡ line.old.items ++ check_text names.now fault.now) }
{
    match fault {
        TypeFault::Twice { name } => push_global_line(line, b"twice", name),
        TypeFault::TooMany { what, limit } => push_count_line(line, *what, *limit),
        TypeFault::BadExternal { name } => push_global_line(line, b"bad external", name),
        TypeFault::TwiceLocal { f, name } => push_inner_line(line, names, b"twice", *f, name),
        TypeFault::BadBlock { f, i } => push_instruction_line(line, names, b"bad block", *f, *i),
        TypeFault::Undefined { f, i } => push_instruction_line(line, names, b"undefined", *f, *i),
        TypeFault::WrongType { f, i } => push_wrong_type_line(line, names, *f, *i),
        TypeFault::BadPhi { f, i } => push_instruction_line(line, names, b"bad phi", *f, *i),
        TypeFault::NotDominating { f, i } => push_instruction_line(
            line,
            names,
            b"not defined on every path",
            *f,
            *i,
        ),
        TypeFault::NoMain => push(line, b"error: no main\n"),
        TypeFault::Memory => Ok(()),
    }
}

/// Adds the line that tells what there are too many of, and how many there may be.
fn push_count_line(line: &mut Vec<u8>, what: CountKind, limit: u32) -> Result<(), AllocError>
    ensures { OnOk result (line.new.items ≡ line.old.items ++ count_line what limit) }
{
    push(line, b"error: too many ")?;
    push_kind(line, what)?;
    push(line, b", limit ")?;
    push_number(line, limit)?;
    push(line, b"\n")?;
    Ok(())
}

/// Adds what there are too many of.
fn push_kind(line: &mut Vec<u8>, what: CountKind) -> Result<(), AllocError>
    ensures { OnOk result (line.new.items ≡ line.old.items ++ kind_text what) }
{
    match what {
        CountKind::Functions => push(line, b"functions"),
        CountKind::Instructions => push(line, b"instructions"),
        CountKind::Params => push(line, b"parameters"),
        CountKind::GlobalWords => push(line, b"global words"),
    }
}

/// Adds the line that tells what is wrong with a parameter, label or result of a function.
fn push_inner_line(
    line: &mut Vec<u8>,
    names: &[Name],
    what: &[u8],
    f: u32,
    name: &Name,
) -> Result<(), AllocError>
    ensures { OnOk result (line.new.items ≡ line.old.items ++ inner_line names.now what.now f name.now) }
{
    push(line, b"error: ")?;
    push(line, what)?;
    push(line, b" ")?;
    push_local(line, name)?;
    push_function(line, names, f)?;
    push(line, b"\n")?;
    Ok(())
}

/// Adds the line that tells which instruction, or that a global, breaks the rule of its types.
fn push_wrong_type_line(
    line: &mut Vec<u8>,
    names: &[Name],
    f: u32,
    i: u32,
) -> Result<(), AllocError>
    ensures { OnOk result (line.new.items ≡ line.old.items ++ wrong_type_line names.now f i) }
{
    if f == 4_294_967_295 && i == 4_294_967_295 {
        push(line, b"error: wrong type in a global\n")
    } else {
        push_instruction_line(line, names, b"wrong type", f, i)
    }
}

/// Adds the line that tells what is wrong with an instruction.
fn push_instruction_line(
    line: &mut Vec<u8>,
    names: &[Name],
    what: &[u8],
    f: u32,
    i: u32,
) -> Result<(), AllocError>
    ensures { OnOk result (line.new.items ≡ line.old.items ++ instruction_line names.now what.now f i) }
{
    push(line, b"error: ")?;
    push(line, what)?;
    push_function(line, names, f)?;
    push(line, b" instruction ")?;
    push_number(line, i)?;
    push(line, b"\n")?;
    Ok(())
}

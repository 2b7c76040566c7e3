//! The line that tells that a module is accepted.

ghost use Rattle.std.specs.Prelude.{◌≡◌, ◌≤◌, ◌++◌, length, filter, flat_map, decimal, OnOk, IfOk};
ghost use Rattle.ds_shape.specs.Types.{instructions_of};
ghost use Rattle.ds_shape.specs.Accepted.{Accepted};
ghost use Rattle.ds_main.specs.Text.{is_defined, accepted_text};

use ds_ast::{Function, Module};
use itoa::Buffer;
use std::alloc::{AllocError, Global};

/// Adds a number in decimal to a text.
fn push_count(text: &mut Vec<u8>, count: usize) -> Result<(), AllocError>
    ensures { OnOk result (text.new.items ≡ text.old.items ++ decimal count) }
{
    let mut buffer = Buffer::new();
    text.extend_from_slice(buffer.format(count).as_bytes())
}

/// Whether a function is defined, not only declared.
fn is_defined(f: &Function) -> bool
    ensures { result ≡ is_defined f.now }
{
    !f.blocks.is_empty()
}

/// How many functions a module defines, of at most 1,024.
fn defined_count(module: &Module) -> usize
    requires { length «module».now.functions ≤ 1024 }
    ensures { result ≡ length (filter is_defined «module».now.functions) }
{
    let mut count = 0;
    for f in module.functions.as_slice() {
        if is_defined(f) {
            count += 1;
        }
    }
    count
}

/// How many instructions a function has, of at most 200,000.
fn instruction_count(f: &Function) -> usize
    requires { length (instructions_of f.now) ≤ 200000 }
    ensures { result ≡ length (instructions_of f.now) }
{
    let mut count = 0;
    for block in f.blocks.as_slice() {
        count += block.code.len();
    }
    count
}

/// How many instructions the functions of a module have, of at most 200,000.
fn all_instructions(module: &Module) -> usize
    requires { length (flat_map instructions_of «module».now.functions) ≤ 200000 }
    ensures { result ≡ length (flat_map instructions_of «module».now.functions) }
{
    let mut count = 0;
    for f in module.functions.as_slice() {
        count += instruction_count(f);
    }
    count
}

/// The line that tells that a module is accepted, and how many functions it defines with how many instructions.
pub fn accepted_line(alloc: Global, module: &Module) -> Result<Vec<u8>, AllocError>
    requires { Accepted «module».now }
    ensures { IfOk result (λ line. line.items ≡ accepted_text «module».now) }
{
    let mut line = Vec::new(alloc);
    line.extend_from_slice(b"accepted: functions ")?;
    push_count(&mut line, defined_count(module))?;
    line.extend_from_slice(b" instructions ")?;
    push_count(&mut line, all_instructions(module))?;
    line.extend_from_slice(b"\n")?;
    Ok(line)
}

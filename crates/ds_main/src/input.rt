//! The accepted module of the input.

ghost use Rattle.std.specs.Prelude.{◌≡◌, ◌<◌, ◌≤◌, ◌^◌, All, length, IfOk, IfErr};
ghost use Rattle.ds_io.specs.Source.{GivesAll};
ghost use Rattle.ds_ast.specs.Bounds.{Bounds};
ghost use Rattle.ds_main.specs.Input.{longest_input};
ghost use Rattle.ds_main.specs.Ending.{reading, IsSpelledBy, IsInputOf};
ghost use Rattle.ds_main.specs.Stopped.{Explains};

use crate::accept::accept;
use crate::no_module::{NoModule, no_module};
use ds_ast::Module;
use ds_io::{Bytes, ReadAllFault, Source, read_all};
use ds_parse::parse;
use ds_parse_laws::texts_are_within_bounds;
use ds_report::Fault;
use std::alloc::Global;

/// The most bytes that an input may have.
const LONGEST_INPUT: usize = 8_388_608;

/// The law that each item of a slice of bytes is below 2^8.
fn are_bytes(bytes: &[u8])
    ensures { All (λ byte. byte < 2 ^ 8) bytes.now }
{}

/// All bytes of the input, of at most 8,388,608.
fn read_bytes<S: Source>(alloc: Global, source: &mut S) -> Result<Bytes, NoModule>
    ensures whole { IfOk result (λ bytes. GivesAll (S.left source.old) bytes (S.left source.new)) }
    ensures within { IfOk result (λ bytes. length bytes ≤ longest_input) }
    ensures none { IfErr result (λ why. Explains (reading S.left S.faults source.old source.new) why) }
{
    match read_all(alloc, source, LONGEST_INPUT) {
        Ok(bytes) => Ok(bytes),
        Err(ReadAllFault::Read) => Err(NoModule::Refused(Fault::Read)),
        Err(ReadAllFault::TooLong) => Err(NoModule::Refused(Fault::TooLong)),
        Err(ReadAllFault::Memory) => Err(NoModule::Memory),
    }
}

/// The module that the input spells, which is read to its end.
pub fn read_module<S: Source>(alloc: Global, source: &mut S) -> Result<Module, NoModule>
    ensures spelled { IfOk result (λ m. IsSpelledBy (reading S.left S.faults source.old source.new) m) }
    ensures bounds { IfOk result Bounds }
    ensures none { IfErr result (λ why. Explains (reading S.left S.faults source.old source.new) why) }
{
    let bytes = match read_bytes(alloc, source) {
        Ok(bytes) => bytes,
        Err(why) => return Err(why),
    };
    let text = bytes.as_slice();
    are_bytes(text);
    texts_are_within_bounds();
    match parse(alloc, text) {
        Ok(module) => Ok(module),
        Err(fault) => Err(no_module(Fault::Parse(fault))),
    }
}

/// The accepted module that the input spells, which is read to its end.
pub fn accepted_module<S: Source>(alloc: Global, source: &mut S) -> Result<Module, NoModule>
    ensures found { IfOk result (λ m. IsInputOf (reading S.left S.faults source.old source.new) m) }
    ensures none { IfErr result (λ why. Explains (reading S.left S.faults source.old source.new) why) }
{
    let module = match read_module(alloc, source) {
        Ok(module) => module,
        Err(why) => return Err(why),
    };
    match accept(alloc, &module) {
        Ok(_shapes) => {}
        Err(why) => return Err(why),
    }
    Ok(module)
}

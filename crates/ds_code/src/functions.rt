//! Code: functions, and what a run begins with.
ghost use Rattle.std.specs.Prelude.{◌≡◌, ◌+◌, ◌^◌, ◌<◌, slice_get, option_copied, IfSome, OnSome};
ghost use Rattle.ds_code.specs.Machine.{instruction_at};
ghost use Rattle.ds_code.specs.Rows.{FitsRow, HasRow};

use crate::ops::CodeInstr;
use ds_ast::{List, Name, Scalar};
use std::marker::Model;

/// A function of code. One that the module only declares has no instructions.
#[derive(Debug, Drop)]
pub struct CodeFunction {
    /// How many cells a frame of it has.
    pub cells: u32,
    /// The type of its first parameter, which has cell 0, if it has any.
    pub first: Option<Scalar>,
    /// Whether a thread may be started on it: it is defined, takes one pointer, and gives a pointer.
    pub may_start: bool,
    /// Its instructions, those of one block behind those of the other.
    pub code: List<CodeInstr>,
}

/// The parts of code.
#[derive(Debug, Drop)]
pub struct CodeParts {
    /// The number of `main` among all functions.
    pub main: u32,
    /// The words with which the globals begin.
    pub image: List<u64>,
    /// The names of all functions, in their order.
    pub names: List<Name>,
    /// The functions, in the order of the module, declared ones too.
    pub functions: List<CodeFunction>,
    /// How many values are copied together at most: the phis of an edge, or the arguments of a call.
    pub row: u32,
}

/// What a module was lowered to, to be run: names are cells by number, labels are offsets.
#[derive(Drop)]
pub struct Code {
    parts: CodeParts,
}

impl Model for Code {
    ghost use Rattle.ds_code.specs.contracts.functions.CodeParts as stored;
    ghost use Rattle.ds_code.specs.declared.functions.CodeParts.{CodeParts};
    ghost use Rattle.ds_code.specs.Rows.{HasRow};

    ghost Value = { CodeParts };

    ghost coded = { stored.the_row.coded };

    ghost view = { λ c. c.parts };

    ghost invariant = { λ c. HasRow c.parts };
}

impl Code {
    /// Code of these parts, whose row is at least as long as each list of values that are copied together.
    pub fn new(parts: CodeParts) -> Code
        requires { HasRow parts }
        ensures { result ≡ parts }
    {
        Code { parts }
    }

    /// The number of `main` among all functions.
    pub fn main(&self) -> u32
        ensures { result ≡ self.now.main }
    {
        self.parts.main
    }

    /// The words with which the globals begin.
    pub fn image(&self) -> &[u64]
        ensures { result.now ≡ self.now.image }
    {
        self.parts.image.as_slice()
    }

    /// The name of a function, by its number.
    pub fn name(&self, function: u32) -> Option<&Name>
        ensures { option_copied result ≡ slice_get self.now.names function }
    {
        self.parts.names.get(function as usize)
    }

    /// How many values are copied together at most.
    pub fn row(&self) -> u32
        ensures { result ≡ self.now.row }
    {
        self.parts.row
    }

    /// A function, by its number.
    pub fn function(&self, function: u32) -> Option<&CodeFunction>
        ensures { option_copied result ≡ slice_get self.now.functions function }
    {
        self.parts.functions.get(function as usize)
    }

    /// The instruction of a function behind so many others. Lists of values that it copies together are no longer than
    /// the row.
    pub fn instruction(&self, function: u32, at: usize) -> Option<&CodeInstr>
        ensures value { option_copied result ≡ instruction_at self.now function at }
        ensures row { IfSome result (λ i. FitsRow self.now.row i.now) }
        ensures within { OnSome result (at + 1 < 2 ^ 64) }
    {
        match self.parts.functions.get(function as usize) {
            None => None,
            Some(function) => {
                if at < function.code.len() {
                    function.code.get(at)
                } else {
                    None
                }
            }
        }
    }
}

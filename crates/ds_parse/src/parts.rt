//! The parts of a module that were read.
ghost use Rattle.std.specs.Prelude.{◌≡◌, [], ◌∷◌, ◌++◌, IfOk};

use ds_ast::{Function, GlobalDef, List, Module, StructDef};
use ds_parse_global::Structs;
use std::alloc::{AllocError, Global};
use std::marker::Model;

/// The struct types, the globals and the functions so far. Contracts see the module that has them.
#[derive(Drop)]
pub struct Parts {
    structs: Structs,
    globals: List<GlobalDef>,
    functions: List<Function>,
}

impl Model for Parts {
    ghost use Rattle.ds_ast.specs.declared.module.Module.{Module};
    ghost use Rattle.ds_ast.specs.contracts.module.Module as row;

    ghost Value = { Module };

    ghost coded = { row.the_row.coded };

    ghost view = { λ parts. record { structs = parts.structs; globals = parts.globals; functions = parts.functions } };
}

impl Parts {
    /// No parts.
    pub fn new(alloc: Global) -> Parts
        ensures { result ≡ record { structs = []; globals = []; functions = [] } }
    {
        Parts {
            structs: Structs::new(alloc),
            globals: List::new(alloc),
            functions: List::new(alloc),
        }
    }

    /// The struct types so far.
    pub fn structs(&self) -> &Structs
        ensures { result.now ≡ self.now.structs }
    {
        &self.structs
    }

    /// One more struct type.
    pub fn with_struct(self, line: StructDef) -> Result<Parts, AllocError>
        ensures { IfOk result
            (λ parts. parts ≡ record
            { structs = self.structs ++ line ∷ []; globals = self.globals; functions = self.functions }) }
    {
        let mut parts = self;
        parts.structs.push(line)?;
        Ok(parts)
    }

    /// One more global.
    pub fn with_global(self, line: GlobalDef) -> Result<Parts, AllocError>
        ensures { IfOk result
            (λ parts. parts ≡ record
            { structs = self.structs; globals = self.globals ++ line ∷ []; functions = self.functions }) }
    {
        let mut parts = self;
        parts.globals.push(line)?;
        Ok(parts)
    }

    /// One more function.
    pub fn with_function(self, function: Function) -> Result<Parts, AllocError>
        ensures { IfOk result
            (λ parts. parts ≡ record
            { structs = self.structs; globals = self.globals; functions = self.functions ++ function ∷ [] }) }
    {
        let mut parts = self;
        parts.functions.push(function)?;
        Ok(parts)
    }

    /// The module of these parts.
    pub fn into_module(self) -> Module
        ensures { result ≡ self }
    {
        let Parts {
            structs,
            globals,
            functions,
        } = self;
        Module {
            structs: structs.into_list(),
            globals,
            functions,
        }
    }
}

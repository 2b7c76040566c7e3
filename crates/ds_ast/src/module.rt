//! Modules and their parts.
ghost use Rattle.std.specs.Prelude.{◌≡◌, ◌↔◌, IsTrue, IfOk};

use crate::init::Init;
use crate::instr::Instr;
use crate::list::List;
use crate::name::Name;
use crate::part::{Part, equals};
use crate::ty::{Scalar, Ty};
use std::alloc::{AllocError, Global};

/// A module, in the order of its text.
#[derive(Debug, Drop)]
pub struct Module {
    /// The struct types.
    pub structs: List<StructDef>,
    /// The globals.
    pub globals: List<GlobalDef>,
    /// The functions, declared and defined.
    pub functions: List<Function>,
}

/// A struct type.
#[derive(Debug, Drop)]
pub struct StructDef {
    /// Its name.
    pub name: Name,
    /// The types of its fields.
    pub fields: List<Ty>,
}

/// A global.
#[derive(Debug, Drop)]
pub struct GlobalDef {
    /// Its name.
    pub name: Name,
    /// Its type.
    pub ty: Ty,
    /// What it begins with.
    pub init: Init,
}

/// A function. It is declared where it has no blocks, and else defined.
#[derive(Debug, Drop)]
pub struct Function {
    /// Its name.
    pub name: Name,
    /// The type of its result.
    pub result: Ty,
    /// Its parameters. Those of a declaration are named by the numbers from 0.
    pub params: List<Param>,
    /// Its blocks. The first is the entry.
    pub blocks: List<Block>,
}

/// A parameter.
#[derive(Debug, Drop)]
pub struct Param {
    /// Its name.
    pub name: Name,
    /// Its type.
    pub ty: Scalar,
}

/// A basic block.
#[derive(Debug, Drop)]
pub struct Block {
    /// Its label.
    pub name: Name,
    /// Its instructions. The last one is its terminator.
    pub code: List<Instr>,
}

impl Part for Module {
    fn is_same(&self, other: &Module) -> bool {
        self.structs.is_same(&other.structs)
            && self.globals.is_same(&other.globals)
            && self.functions.is_same(&other.functions)
    }

    fn duplicate(&self, alloc: Global) -> Result<Module, AllocError> {
        Ok(Module {
            structs: self.structs.duplicate(alloc)?,
            globals: self.globals.duplicate(alloc)?,
            functions: self.functions.duplicate(alloc)?,
        })
    }
}

impl PartialEq for Module {
    ghost use Rattle.ds_ast.specs.contracts.module.Module as row;
    ghost use Rattle.ds_ast.specs.Equality.{is_equal, equal_laws};

    ghost eq = { is_equal row.the_row.coded };

    ghost laws = { equal_laws row.the_row.coded };

    fn eq(&self, other: &Module) -> bool
        ensures value { IsTrue result ↔ (self.now ≡ other.now) }
        ensures test { result ≡ is_equal row.the_row.coded self.now other.now }
    {
        equals(self, other)
    }
}

impl Eq for Module {
    ghost use Rattle.ds_ast.specs.contracts.module.Module as row;
    ghost use Rattle.ds_ast.specs.Equality.{equal_equivalence};

    ghost laws = { equal_equivalence row.the_row.coded };
}

impl Part for StructDef {
    fn is_same(&self, other: &StructDef) -> bool {
        self.name.is_same(&other.name) && self.fields.is_same(&other.fields)
    }

    fn duplicate(&self, alloc: Global) -> Result<StructDef, AllocError> {
        Ok(StructDef {
            name: self.name.duplicate(alloc)?,
            fields: self.fields.duplicate(alloc)?,
        })
    }
}

impl PartialEq for StructDef {
    ghost use Rattle.ds_ast.specs.contracts.module.StructDef as row;
    ghost use Rattle.ds_ast.specs.Equality.{is_equal, equal_laws};

    ghost eq = { is_equal row.the_row.coded };

    ghost laws = { equal_laws row.the_row.coded };

    fn eq(&self, other: &StructDef) -> bool
        ensures value { IsTrue result ↔ (self.now ≡ other.now) }
        ensures test { result ≡ is_equal row.the_row.coded self.now other.now }
    {
        equals(self, other)
    }
}

impl Eq for StructDef {
    ghost use Rattle.ds_ast.specs.contracts.module.StructDef as row;
    ghost use Rattle.ds_ast.specs.Equality.{equal_equivalence};

    ghost laws = { equal_equivalence row.the_row.coded };
}

impl Part for GlobalDef {
    fn is_same(&self, other: &GlobalDef) -> bool {
        self.name.is_same(&other.name)
            && self.ty.is_same(&other.ty)
            && self.init.is_same(&other.init)
    }

    fn duplicate(&self, alloc: Global) -> Result<GlobalDef, AllocError> {
        Ok(GlobalDef {
            name: self.name.duplicate(alloc)?,
            ty: self.ty.duplicate(alloc)?,
            init: self.init.duplicate(alloc)?,
        })
    }
}

impl PartialEq for GlobalDef {
    ghost use Rattle.ds_ast.specs.contracts.module.GlobalDef as row;
    ghost use Rattle.ds_ast.specs.Equality.{is_equal, equal_laws};

    ghost eq = { is_equal row.the_row.coded };

    ghost laws = { equal_laws row.the_row.coded };

    fn eq(&self, other: &GlobalDef) -> bool
        ensures value { IsTrue result ↔ (self.now ≡ other.now) }
        ensures test { result ≡ is_equal row.the_row.coded self.now other.now }
    {
        equals(self, other)
    }
}

impl Eq for GlobalDef {
    ghost use Rattle.ds_ast.specs.contracts.module.GlobalDef as row;
    ghost use Rattle.ds_ast.specs.Equality.{equal_equivalence};

    ghost laws = { equal_equivalence row.the_row.coded };
}

impl Part for Function {
    fn is_same(&self, other: &Function) -> bool {
        self.name.is_same(&other.name)
            && self.result.is_same(&other.result)
            && self.params.is_same(&other.params)
            && self.blocks.is_same(&other.blocks)
    }

    fn duplicate(&self, alloc: Global) -> Result<Function, AllocError> {
        Ok(Function {
            name: self.name.duplicate(alloc)?,
            result: self.result.duplicate(alloc)?,
            params: self.params.duplicate(alloc)?,
            blocks: self.blocks.duplicate(alloc)?,
        })
    }
}

impl PartialEq for Function {
    ghost use Rattle.ds_ast.specs.contracts.module.Function as row;
    ghost use Rattle.ds_ast.specs.Equality.{is_equal, equal_laws};

    ghost eq = { is_equal row.the_row.coded };

    ghost laws = { equal_laws row.the_row.coded };

    fn eq(&self, other: &Function) -> bool
        ensures value { IsTrue result ↔ (self.now ≡ other.now) }
        ensures test { result ≡ is_equal row.the_row.coded self.now other.now }
    {
        equals(self, other)
    }
}

impl Eq for Function {
    ghost use Rattle.ds_ast.specs.contracts.module.Function as row;
    ghost use Rattle.ds_ast.specs.Equality.{equal_equivalence};

    ghost laws = { equal_equivalence row.the_row.coded };
}

impl Part for Param {
    fn is_same(&self, other: &Param) -> bool {
        self.name.is_same(&other.name) && self.ty == other.ty
    }

    fn duplicate(&self, alloc: Global) -> Result<Param, AllocError> {
        Ok(Param {
            name: self.name.duplicate(alloc)?,
            ty: self.ty,
        })
    }
}

impl PartialEq for Param {
    ghost use Rattle.ds_ast.specs.contracts.module.Param as row;
    ghost use Rattle.ds_ast.specs.Equality.{is_equal, equal_laws};

    ghost eq = { is_equal row.the_row.coded };

    ghost laws = { equal_laws row.the_row.coded };

    fn eq(&self, other: &Param) -> bool
        ensures value { IsTrue result ↔ (self.now ≡ other.now) }
        ensures test { result ≡ is_equal row.the_row.coded self.now other.now }
    {
        equals(self, other)
    }
}

impl Eq for Param {
    ghost use Rattle.ds_ast.specs.contracts.module.Param as row;
    ghost use Rattle.ds_ast.specs.Equality.{equal_equivalence};

    ghost laws = { equal_equivalence row.the_row.coded };
}

impl Part for Block {
    fn is_same(&self, other: &Block) -> bool {
        self.name.is_same(&other.name) && self.code.is_same(&other.code)
    }

    fn duplicate(&self, alloc: Global) -> Result<Block, AllocError> {
        Ok(Block {
            name: self.name.duplicate(alloc)?,
            code: self.code.duplicate(alloc)?,
        })
    }
}

impl PartialEq for Block {
    ghost use Rattle.ds_ast.specs.contracts.module.Block as row;
    ghost use Rattle.ds_ast.specs.Equality.{is_equal, equal_laws};

    ghost eq = { is_equal row.the_row.coded };

    ghost laws = { equal_laws row.the_row.coded };

    fn eq(&self, other: &Block) -> bool
        ensures value { IsTrue result ↔ (self.now ≡ other.now) }
        ensures test { result ≡ is_equal row.the_row.coded self.now other.now }
    {
        equals(self, other)
    }
}

impl Eq for Block {
    ghost use Rattle.ds_ast.specs.contracts.module.Block as row;
    ghost use Rattle.ds_ast.specs.Equality.{equal_equivalence};

    ghost laws = { equal_equivalence row.the_row.coded };
}

impl Module {
    /// A module that equals this one. An `Err` comes only where there is not enough memory.
    pub fn copy(&self, alloc: Global) -> Result<Module, AllocError>
        ensures { IfOk result (λ copy. copy ≡ self.now) }
    {
        self.duplicate(alloc)
    }
}

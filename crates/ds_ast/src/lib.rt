//! The tree of a module: what its text says, without blanks, comments and words that mean nothing.
#![tactic(auto)]

mod init;
mod instr;
mod list;
mod module;
mod name;
mod operand;
mod ops;
mod part;
mod ty;
mod value;
mod words;

pub use init::Init;
pub use instr::{Instr, Op};
pub use list::List;
pub use module::{Block, Function, GlobalDef, Module, Param, StructDef};
pub use name::{Bytes, Name};
pub use operand::{Arm, Operand};
pub use ops::Ops;
pub use part::Part;
pub use sqlite_items::Boxed;
pub use ty::{Scalar, Ty};
pub use value::Value;
pub use words::{BinOp, CastOp, Cond, RmwOp};

#[cfg(test)]
mod tests;

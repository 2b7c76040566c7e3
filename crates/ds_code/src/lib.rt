//! Code: what a module is lowered to, to be run.
//!
//! Each instruction of a module has one in its code. The local values of a function are cells of its frame, by number;
//! labels are offsets; callees are numbers of functions; types are sizes in bytes. What a module is lowered to stands
//! in `specs/Lowering.antt`, what code means in `specs/CodeMeaning.antt`.
#![tactic(auto)]

mod callees;
mod frames;
mod functions;
mod ops;
mod sources;

pub use callees::{Called, Known};
pub use frames::Waiting;
pub use functions::{Code, CodeFunction, CodeParts};
pub use ops::{BranchOp, Case, CodeInstr, CodeOp, Edge, ExternalOp, MemoryOp, Stride, ValueOp};
pub use sources::{Copying, Input, Source};

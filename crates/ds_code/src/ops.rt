//! The instructions of code.

use crate::sources::{Copying, Input, Source};
use ds_ast::{BinOp, CastOp, Cond, List, RmwOp, Scalar};

/// The way to another block.
#[derive(Debug, Drop)]
pub struct Edge {
    /// How many instructions of the function's code stand before the block.
    pub target: u32,
    /// The values that its phis take on the way, all at once.
    pub copies: List<Copying>,
}

/// A case of a `switch`.
#[derive(Clone, Copy, Debug)]
pub struct Case {
    /// The number.
    pub number: u64,
    /// The place of its edge among those of the `switch`.
    pub edge: u32,
}

/// What an index of a `getelementptr` adds to an address, in bytes.
#[derive(Clone, Copy, Debug)]
pub struct Stride {
    /// What it adds whatever its value is: the offset of a field.
    pub fixed: u64,
    /// What it adds for each unit of its value: the size of an element.
    pub scale: u64,
    /// The index, a signed number.
    pub index: Input,
}

/// An instruction that computes its result from values alone.
#[derive(Debug, Drop)]
pub enum ValueOp {
    /// An operation on two integers of a type.
    Bin {
        /// Which one.
        op: BinOp,
        /// The type.
        ty: Scalar,
        /// The first.
        a: Source,
        /// The second.
        b: Source,
    },
    /// `icmp`: a comparison of two values of a type.
    Icmp {
        /// What is asked.
        cond: Cond,
        /// The type.
        ty: Scalar,
        /// The first.
        a: Source,
        /// The second.
        b: Source,
    },
    /// `select`: one of two values of a type.
    Select {
        /// Which one: the first where it is true.
        c: Source,
        /// The type.
        ty: Scalar,
        /// The first.
        a: Source,
        /// The second.
        b: Source,
    },
    /// A conversion.
    Cast {
        /// Which one.
        op: CastOp,
        /// The type of the operand.
        from: Scalar,
        /// The operand.
        a: Source,
        /// The type of the result.
        to: Scalar,
    },
    /// `getelementptr`: an address and what indices add to it.
    Gep {
        /// The address.
        base: Source,
        /// The indices.
        strides: List<Stride>,
    },
    /// `extractvalue`: what a cell of the frame holds.
    Extract {
        /// The number of the cell.
        cell: u32,
    },
}

/// An instruction that accesses memory.
#[derive(Debug, Drop)]
pub enum MemoryOp {
    /// `load` of a value of a type.
    Load {
        /// The type.
        ty: Scalar,
        /// The address.
        at: Source,
    },
    /// `store` of a value of a type.
    Store {
        /// The type.
        ty: Scalar,
        /// The value.
        value: Source,
        /// The address.
        at: Source,
    },
    /// `atomicrmw` of a value of a type.
    Rmw {
        /// What it writes.
        op: RmwOp,
        /// The address.
        at: Source,
        /// The type.
        ty: Scalar,
        /// The value that it is given.
        value: Source,
    },
    /// `cmpxchg` of values of a type. What was there is its result.
    Cmpxchg {
        /// The address.
        at: Source,
        /// The type.
        ty: Scalar,
        /// The value that is to be there.
        expected: Source,
        /// What is written if it is.
        new: Source,
        /// The cell that takes whether it exchanged.
        exchanged: Option<u32>,
    },
}

/// A call of a function that the module only declares.
#[derive(Debug, Drop)]
pub enum ExternalOp {
    /// `malloc`.
    Malloc {
        /// How many bytes.
        bytes: Input,
    },
    /// `free`.
    Free {
        /// The address.
        at: Input,
    },
    /// `print_i64`.
    Print {
        /// The value.
        value: Input,
    },
    /// `pthread_create`.
    Spawn {
        /// The address that takes the thread's number.
        at: Input,
        /// The number of the function that the thread runs.
        function: u32,
        /// Its argument.
        argument: Input,
    },
    /// `pthread_join`.
    Join {
        /// The thread's number.
        thread: Input,
    },
    /// `ds_note`.
    Note {
        /// The address at which a pointer was stored.
        at: Source,
        /// The pointer.
        value: Source,
    },
}

/// An instruction that goes to a block.
#[derive(Debug, Drop)]
pub enum BranchOp {
    /// `br` to a block.
    Jump(Edge),
    /// `br` to one of two blocks.
    Either {
        /// Which one: the first where it is true.
        c: Source,
        /// The first.
        yes: Edge,
        /// The second.
        no: Edge,
    },
    /// `switch` on a value of a type.
    Switch {
        /// The type.
        ty: Scalar,
        /// The value.
        value: Source,
        /// The edges, one for each block that it may go to.
        edges: List<Edge>,
        /// The place of the edge where no case fits.
        other: u32,
        /// The cases, of which the first that fits counts.
        cases: List<Case>,
    },
}

/// What an instruction of code does.
#[derive(Debug, Drop)]
pub enum CodeOp {
    /// It computes.
    Compute(ValueOp),
    /// `alloca`: it takes words of the stack.
    Alloca {
        /// How many bytes one element has.
        size: u64,
        /// How many elements.
        count: Input,
    },
    /// It accesses memory.
    Memory(MemoryOp),
    /// It calls a function that the module only declares.
    External(ExternalOp),
    /// It does nothing, as a `phi`, whose cell took its value on the way into the block, and a `fence`.
    Skip,
    /// It calls a function of the module.
    Call {
        /// The number of the function among all.
        function: u32,
        /// The values that its parameters take.
        arguments: List<Copying>,
    },
    /// `ret`, with a value or with none.
    Ret(Option<Input>),
    /// It goes to a block.
    Branch(BranchOp),
    /// `unreachable`.
    Unreachable,
    /// It has no meaning.
    Unknown,
}

/// An instruction of code.
#[derive(Debug, Drop)]
pub struct CodeInstr {
    /// Its number in its function as a place tells it: notes are not counted, and have that of the store before.
    pub origin: u32,
    /// The cell of the frame that takes its result.
    pub to: Option<u32>,
    /// What it does.
    pub op: CodeOp,
}

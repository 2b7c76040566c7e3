//! What parts of a text begin with.
use ds_ast::{BinOp, Bytes, CastOp, Name, Scalar, Value};

/// An item of a run of ignored words, by its first token.
#[derive(Clone, Copy, Debug, PartialEq, Eq)]
pub enum RunItem {
    /// An ignored word.
    Word,
    /// `align`, and a number behind it.
    Align,
    /// `#` and digits.
    Attr,
    /// `(`, at once behind an ignored word: tokens up to the bracket that closes it.
    Group,
}

/// An item of the endings of an instruction or a global, by its first token.
#[derive(Clone, Copy, Debug, PartialEq, Eq)]
pub enum Ending {
    /// `,`, and behind it `align` and a number, or two names of metadata.
    Comma,
    /// `#` and digits, behind all others.
    Attr,
}

/// What stands behind the comma of a list at the end of an instruction, by its first token.
#[derive(Clone, Copy, Debug, PartialEq, Eq)]
pub enum Behind {
    /// The type of an operand, which the value follows.
    Operand(Scalar),
    /// `[`, which an arm of a `phi` follows.
    Arm,
    /// A name of metadata, which another follows: an ending.
    Metadata,
    /// `align`, which a number follows: an ending.
    Align,
}

/// What may still stand in the list at the end of an instruction.
#[derive(Clone, Copy, Debug, PartialEq, Eq)]
pub enum Stage {
    /// Items of the list, and endings behind them.
    Items,
    /// Endings alone.
    Endings,
    /// `#N` alone.
    Attrs,
}

/// What begins an instruction, behind the name of its result.
#[derive(Clone, Copy, Debug, PartialEq, Eq)]
pub enum Head {
    /// An operation on two integers.
    Binary(BinOp),
    /// A conversion.
    Cast(CastOp),
    /// `icmp`.
    Icmp,
    /// `select`.
    Select,
    /// `alloca`.
    Alloca,
    /// `load`.
    Load,
    /// `store`.
    Store,
    /// `getelementptr`.
    Gep,
    /// `call`.
    Call,
    /// `phi`.
    Phi,
    /// `atomicrmw`.
    Rmw,
    /// `cmpxchg`.
    Cmpxchg,
    /// `extractvalue`.
    Extract,
    /// `fence`.
    Fence,
    /// `ret`.
    Ret,
    /// `br`.
    Br,
    /// `switch`.
    Switch,
    /// `unreachable`.
    Unreachable,
    /// A run of ignored words, which `call` follows.
    Ignored(RunItem),
}

/// What begins a line of a function's body.
#[derive(Debug, Drop)]
pub enum Begin {
    /// The label of a block.
    Label(Name),
    /// The name of an instruction's result, which `=` follows.
    Named(Name),
    /// An instruction without such a name.
    Head(Head),
}

/// What begins an initialiser.
#[derive(Debug, Drop)]
pub enum InitHead {
    /// `zeroinitializer`.
    Zero,
    /// One value.
    Word(Value),
    /// `c` and a text: these bytes.
    Bytes(Bytes),
    /// `[`, which elements of an array follow.
    Array,
    /// `{`, which fields of a struct follow.
    Fields,
}

/// What begins a line of a module.
#[derive(Debug, Drop)]
pub enum Entity {
    /// `source_filename`, which `=` and a text follow.
    SourceFilename,
    /// `target`, which `datalayout` or `triple`, `=` and a text follow.
    Target,
    /// The name of a struct type.
    Struct(Name),
    /// The name of a global.
    Global(Name),
    /// `declare`.
    Declare,
    /// `define`.
    Define,
    /// `attributes`, which `#N`, `=` and a group follow.
    Attributes,
    /// A name of metadata, which `=` and a group follow.
    Metadata,
}

//! What a local name means.
use ds_shape::LocalType;

/// What a local name means in a function. Numbers of blocks and of instructions in a block are from 0 on.
#[derive(Clone, Copy, Debug, PartialEq, Eq)]
pub enum Meaning {
    /// A parameter of this type.
    Parameter(LocalType),
    /// The block of this number.
    Label(usize),
    /// The result of an instruction.
    Result {
        /// Its type, where a register or a pair holds it.
        ty: Option<LocalType>,
        /// The number of the block.
        block: usize,
        /// The number of the instruction in the block.
        index: usize,
    },
}

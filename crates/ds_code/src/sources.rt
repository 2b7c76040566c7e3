//! Where code takes values from.

use ds_ast::Scalar;

/// Where an instruction takes a value from.
#[derive(Clone, Copy, Debug)]
pub enum Source {
    /// A cell of the frame, by its number there.
    Cell(u32),
    /// A number of 64 bits.
    Constant(u64),
}

/// A value of a type: of what stands at its source the lowest bits, as many as the type has.
#[derive(Clone, Copy, Debug)]
pub struct Input {
    /// The type.
    pub ty: Scalar,
    /// The source.
    pub from: Source,
}

/// A value that a cell of a frame takes, as a `phi` does on an edge and a parameter in a call.
#[derive(Clone, Copy, Debug)]
pub struct Copying {
    /// The number of the cell in its frame.
    pub to: u32,
    /// The value.
    pub value: Input,
}

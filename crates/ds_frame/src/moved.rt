//! What a thread wants, and what comes of an instruction.

use ds_plain::{Place, Request};

/// What a thread wants.
#[derive(Clone, Copy, Debug, PartialEq, Eq)]
pub enum Want {
    /// To begin.
    Begin,
    /// An answer, or to stop. The stop `Fuel` is wanted where its fuel does not pay for what comes next.
    Asks(Request),
}

/// What came of an instruction.
#[derive(Clone, Copy)]
pub enum Moved {
    /// It is done.
    Goes,
    /// It asks, where it stands.
    Asks(Place, Request),
    /// It has no meaning.
    Stuck,
}

//! Why an operation on two integers has no result.

/// Why an operation on two integers has no result.
#[derive(Clone, Copy, Debug, PartialEq, Eq)]
pub enum ArithFault {
    /// A division by zero.
    DivZero,
    /// A signed division of the least number by -1, whose quotient is out of range.
    DivOverflow,
}

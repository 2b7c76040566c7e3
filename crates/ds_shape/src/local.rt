//! Types of local values.
use ds_ast::Scalar;

/// The type of a local value.
#[derive(Clone, Copy, Debug, PartialEq, Eq)]
pub enum LocalType {
    /// That of a register.
    Plain(Scalar),
    /// The pair that `cmpxchg` on this type gives: the old value, and whether it exchanged.
    Pair(Scalar),
}

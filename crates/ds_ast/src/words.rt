//! The words that choose among the operations of one instruction.

/// An operation on two integers of one type.
#[derive(Clone, Copy, Debug, PartialEq, Eq)]
pub enum BinOp {
    /// `add`: the sum, modulo 2 to the width.
    Add,
    /// `sub`: the difference, modulo 2 to the width.
    Sub,
    /// `mul`: the product, modulo 2 to the width.
    Mul,
    /// `and`: the bits that both have.
    And,
    /// `or`: the bits that one of them has.
    Or,
    /// `xor`: the bits that exactly one of them has.
    Xor,
    /// `shl`: the bits moved up.
    Shl,
    /// `lshr`: the bits moved down, with zeros above them.
    Lshr,
    /// `ashr`: the bits moved down, with copies of the highest above them.
    Ashr,
    /// `udiv`: the quotient of unsigned numbers.
    Udiv,
    /// `sdiv`: the quotient of signed numbers, rounded towards zero.
    Sdiv,
    /// `urem`: the remainder of unsigned numbers.
    Urem,
    /// `srem`: the remainder of signed numbers, with the sign of the first.
    Srem,
}

/// A conversion between two types.
#[derive(Clone, Copy, Debug, PartialEq, Eq)]
pub enum CastOp {
    /// `zext`: to a wider integer, with zeros above.
    Zext,
    /// `sext`: to a wider integer, with copies of the highest bit above.
    Sext,
    /// `trunc`: to a narrower integer.
    Trunc,
    /// `ptrtoint`: from an address to an integer.
    PtrToInt,
    /// `inttoptr`: from an integer to an address.
    IntToPtr,
}

/// A comparison of two values of one type.
#[derive(Clone, Copy, Debug, PartialEq, Eq)]
pub enum Cond {
    /// `eq`: they are equal.
    Eq,
    /// `ne`: they are not equal.
    Ne,
    /// `ugt`: the first is greater, unsigned.
    Ugt,
    /// `uge`: the first is greater or equal, unsigned.
    Uge,
    /// `ult`: the first is less, unsigned.
    Ult,
    /// `ule`: the first is less or equal, unsigned.
    Ule,
    /// `sgt`: the first is greater, signed.
    Sgt,
    /// `sge`: the first is greater or equal, signed.
    Sge,
    /// `slt`: the first is less, signed.
    Slt,
    /// `sle`: the first is less or equal, signed.
    Sle,
}

/// What an `atomicrmw` writes, from the value that was there and the one it is given.
#[derive(Clone, Copy, Debug, PartialEq, Eq)]
pub enum RmwOp {
    /// `xchg`: the one given.
    Xchg,
    /// `add`: the sum.
    Add,
    /// `sub`: the difference.
    Sub,
    /// `and`: the bits that both have.
    And,
    /// `or`: the bits that one of them has.
    Or,
    /// `xor`: the bits that exactly one of them has.
    Xor,
    /// `umax`: the greater one, unsigned.
    Umax,
    /// `umin`: the lesser one, unsigned.
    Umin,
}

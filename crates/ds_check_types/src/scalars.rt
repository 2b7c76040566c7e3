//! The rules of types of one register.
ghost use Rattle.std.specs.Prelude.{◌≡◌, ◌↔◌, IsTrue};
ghost use Rattle.ds_ast.specs.Bounds.{width};
ghost use Rattle.ds_shape.specs.Types.{IsBitwise, IsInteger, IsNoVoid, IsStored, IsWide, Converts};

use ds_ast::{BinOp, CastOp, Scalar, Ty};

/// Whether a type is one of integers.
pub fn is_integer(ty: Scalar) -> bool
    ensures { IsTrue result ↔ IsInteger ty }
{
    !matches!(ty, Scalar::Ptr)
}

/// Whether a type is one of integers of 8 bits or more.
pub fn is_wide(ty: Scalar) -> bool
    ensures { IsTrue result ↔ IsWide ty }
{
    !matches!(ty, Scalar::I1 | Scalar::Ptr)
}

/// Whether words in memory have the type.
pub fn is_stored(ty: Scalar) -> bool
    ensures { IsTrue result ↔ IsStored ty }
{
    !matches!(ty, Scalar::I1)
}

/// How many bits a literal of a type has.
fn bits(ty: Scalar) -> u32
    ensures { result ≡ width ty }
{
    match ty {
        Scalar::I1 => 1,
        Scalar::I8 => 8,
        Scalar::I16 => 16,
        Scalar::I32 => 32,
        Scalar::I64 | Scalar::Ptr => 64,
    }
}

/// Whether an operation is one of bits, which truth values have.
pub fn is_bitwise(op: BinOp) -> bool
    ensures { IsTrue result ↔ IsBitwise op }
{
    op == BinOp::And || op == BinOp::Or || op == BinOp::Xor
}

/// Whether a conversion goes from the one type to the other.
pub fn converts(op: CastOp, from: Scalar, to: Scalar) -> bool
    ensures { IsTrue result ↔ Converts op from to }
{
    match op {
        CastOp::Zext | CastOp::Sext => is_integer(from) && is_integer(to) && bits(from) < bits(to),
        CastOp::Trunc => is_integer(from) && is_integer(to) && bits(to) < bits(from),
        CastOp::PtrToInt => from == Scalar::Ptr && is_wide(to),
        CastOp::IntToPtr => is_wide(from) && to == Scalar::Ptr,
    }
}

/// Whether a type has values.
pub fn is_no_void(ty: &Ty) -> bool
    ensures { IsTrue result ↔ IsNoVoid ty.now }
{
    !matches!(ty, Ty::Void)
}

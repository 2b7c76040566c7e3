//! What instructions compute from values alone.

ghost use Rattle.std.specs.Prelude.{◌≡◌, ◌+◌, ◌*◌, ◌%◌, ◌^◌, ◌<◌, ◌≤◌, length};
ghost use Rattle.ds_ast.specs.Bounds.{width};
ghost use Rattle.ds_ast.specs.declared.ty.Scalar.TheVariants.{I64};
ghost use Rattle.ds_arith.specs.Operations.{outcome};
ghost use Rattle.ds_arith.specs.Comparisons.{holds};
ghost use Rattle.ds_meaning.specs.Values.{truth, sign_extended, converted};

use crate::cells::{bits_of, cut};
use ds_arith::{ArithFault, apply, compare, sign_extend};
use ds_ast::{BinOp, CastOp, Cond, Scalar};

/// The number of a truth value.
pub(crate) fn truth(held: bool) -> u64
    ensures { result ≡ truth held }
{
    if held { 1 } else { 0 }
}

/// What an operation on two integers of a type gives.
pub(crate) fn operated(op: BinOp, ty: Scalar, a: u64, b: u64) -> Result<u64, ArithFault>
    requires first { a < 2 ^ width ty }
    requires second { b < 2 ^ width ty }
    ensures { result ≡ outcome op (width ty) a b }
{
    apply(op, bits_of(ty), a, b)
}

/// The number of what a comparison of two integers of a type says.
pub(crate) fn compared(cond: Cond, ty: Scalar, a: u64, b: u64) -> u64
    requires first { a < 2 ^ width ty }
    requires second { b < 2 ^ width ty }
    ensures { result ≡ truth (holds cond (width ty) a b) }
{
    truth(compare(cond, bits_of(ty), a, b))
}

/// The number that stands for the same signed number in another type.
pub(crate) fn sign_extended(from: Scalar, to: Scalar, number: u64) -> u64
    requires { number < 2 ^ width from }
    ensures { result ≡ sign_extended from to number }
{
    cut(to, sign_extend(bits_of(from), 64, number))
}

/// What a conversion of a value gives.
pub(crate) fn converted(op: CastOp, from: Scalar, to: Scalar, number: u64) -> u64
    requires { number < 2 ^ width from }
    ensures { result ≡ converted op from to number }
{
    match op {
        CastOp::Zext => cut(to, number),
        CastOp::Sext => sign_extended(from, to, number),
        CastOp::Trunc => cut(to, number),
        CastOp::PtrToInt => cut(to, number),
        CastOp::IntToPtr => cut(to, number),
    }
}

/// The address behind another, by bytes that are there in any case and by so many for each unit of an index.
pub(crate) fn behind(address: u64, fixed: u64, scale: u64, index: u64) -> u64
    ensures { result ≡ (address + (fixed + scale * index)) % 2 ^ 64 }
{
    address
        .wrapping_add(fixed)
        .wrapping_add(scale.wrapping_mul(index))
}

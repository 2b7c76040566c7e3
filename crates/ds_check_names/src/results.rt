//! Types of results.
ghost use Rattle.std.specs.Prelude.{◌≡◌};
ghost use Rattle.ds_shape.specs.Types as types;

use ds_ast::{Op, Scalar, Ty};
use ds_shape::LocalType;

/// The type of an instruction's result, where it has one that a register or a pair holds.
pub fn result_type(op: &Op) -> Option<LocalType>
    ensures { result ≡ types.result_type op.now }
{
    match op {
        Op::Bin { ty, .. } => Some(LocalType::Plain(*ty)),
        Op::Icmp { .. } => Some(LocalType::Plain(Scalar::I1)),
        Op::Select { ty, .. } => Some(LocalType::Plain(*ty)),
        Op::Cast { to, .. } => Some(LocalType::Plain(*to)),
        Op::Alloca { .. } => Some(LocalType::Plain(Scalar::Ptr)),
        Op::Load { ty, .. } => Some(LocalType::Plain(*ty)),
        Op::Store { .. } => None,
        Op::Gep { .. } => Some(LocalType::Plain(Scalar::Ptr)),
        Op::Call { result, .. } => register_type(result),
        Op::Phi { ty, .. } => Some(LocalType::Plain(*ty)),
        Op::Rmw { ty, .. } => Some(LocalType::Plain(*ty)),
        Op::Cmpxchg { ty, .. } => Some(LocalType::Pair(*ty)),
        Op::Extract { ty, index, .. } => Some(LocalType::Plain(part_type(*ty, *index))),
        Op::Fence => None,
        Op::Ret(_) => None,
        Op::Br(_) => None,
        Op::CondBr { .. } => None,
        Op::Switch { .. } => None,
        Op::Unreachable => None,
    }
}

/// The type of the values of a type, where a register holds them.
fn register_type(ty: &Ty) -> Option<LocalType>
    ensures { result ≡ types.register_type ty.now }
{
    match ty {
        Ty::One(scalar) => Some(LocalType::Plain(*scalar)),
        _ => None,
    }
}

/// The type of a part of the pair that `cmpxchg` on this type gives: 0 is the old value, and all others whether it
/// exchanged.
fn part_type(ty: Scalar, index: u32) -> Scalar
    ensures { result ≡ types.part_type ty index }
{
    if index == 0 { ty } else { Scalar::I1 }
}

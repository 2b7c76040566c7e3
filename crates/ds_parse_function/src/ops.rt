//! What an operation gives and whether it ends a block.
ghost use Rattle.std.specs.Prelude.{◌≡◌};
ghost use Rattle.ds_ast.specs.Bounds as bounds;

use ds_ast::Op;
use ds_parse_parts::has_values;

/// Whether an operation has a result.
pub fn has_result(op: &Op) -> bool
    ensures { result ≡ bounds.has_result op.now }
{
    match op {
        Op::Bin { .. } => true,
        Op::Icmp { .. } => true,
        Op::Select { .. } => true,
        Op::Cast { .. } => true,
        Op::Alloca { .. } => true,
        Op::Load { .. } => true,
        Op::Store { .. } => false,
        Op::Gep { .. } => true,
        Op::Call { result: ty, .. } => has_values(ty),
        Op::Phi { .. } => true,
        Op::Rmw { .. } => true,
        Op::Cmpxchg { .. } => true,
        Op::Extract { .. } => true,
        Op::Fence => false,
        Op::Ret(_) => false,
        Op::Br(_) => false,
        Op::CondBr { .. } => false,
        Op::Switch { .. } => false,
        Op::Unreachable => false,
    }
}

/// Whether an operation ends a block.
pub fn is_terminator(op: &Op) -> bool
    ensures { result ≡ bounds.is_terminator op.now }
{
    match op {
        Op::Bin { .. } => false,
        Op::Icmp { .. } => false,
        Op::Select { .. } => false,
        Op::Cast { .. } => false,
        Op::Alloca { .. } => false,
        Op::Load { .. } => false,
        Op::Store { .. } => false,
        Op::Gep { .. } => false,
        Op::Call { .. } => false,
        Op::Phi { .. } => false,
        Op::Rmw { .. } => false,
        Op::Cmpxchg { .. } => false,
        Op::Extract { .. } => false,
        Op::Fence => false,
        Op::Ret(_) => true,
        Op::Br(_) => true,
        Op::CondBr { .. } => true,
        Op::Switch { .. } => true,
        Op::Unreachable => true,
    }
}

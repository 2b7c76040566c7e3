//! What instructions do.
ghost use Rattle.std.specs.Prelude.{◌≡◌, Option, IfOk, IsTrue, All};
ghost use Rattle.ds_ast.specs.declared.name.Name.{Name};
ghost use Rattle.ds_ast.specs.Groups as groups;
ghost use Rattle.ds_shape.specs.Fits.{Fits};
ghost use Rattle.ds_shape.specs.Written.{types_of_op};
ghost use Rattle.ds_code.specs.Lowering as lowering;

use crate::calls::call_of;
use crate::edges::{edge_to, switch_of};
use crate::local::Local;
use crate::strides::gep_of;
use crate::values::{count_of, returned_of, source_of};
use ds_ast::{Name, Op};
use ds_code::{BranchOp, CodeOp, MemoryOp, ValueOp};
use ds_lower_parts::Scope;
use std::alloc::{AllocError, Global};

/// An instruction that computes a number from numbers.
fn arithmetic_of(scope: &Scope, local: &Local, op: &Op) -> CodeOp
    requires { IsTrue (groups.is_arithmetic op.now) }
    ensures { (from : Name) → (name : Option Name)
        → result ≡ lowering.lowered_op scope.now local.now from name op.now }
{
    match op {
        Op::Bin { op, ty, a, b } => CodeOp::Compute(ValueOp::Bin {
            op: *op,
            ty: *ty,
            a: source_of(scope, local, a),
            b: source_of(scope, local, b),
        }),
        Op::Icmp { cond, ty, a, b } => CodeOp::Compute(ValueOp::Icmp {
            cond: *cond,
            ty: *ty,
            a: source_of(scope, local, a),
            b: source_of(scope, local, b),
        }),
        Op::Cast { op, from, a, to } => CodeOp::Compute(ValueOp::Cast {
            op: *op,
            from: *from,
            a: source_of(scope, local, a),
            to: *to,
        }),
        _ => unreachable!(),
    }
}

/// An instruction that takes one of the values that it names. The values of a phi are copied on the way to its block.
fn selection_of(scope: &Scope, local: &Local, op: &Op) -> CodeOp
    requires { IsTrue (groups.is_selection op.now) }
    ensures { (from : Name) → (name : Option Name)
        → result ≡ lowering.lowered_op scope.now local.now from name op.now }
{
    match op {
        Op::Select { c, ty, a, b } => CodeOp::Compute(ValueOp::Select {
            c: source_of(scope, local, c),
            ty: *ty,
            a: source_of(scope, local, a),
            b: source_of(scope, local, b),
        }),
        Op::Phi { .. } => CodeOp::Skip,
        Op::Extract { of, index, .. } => CodeOp::Compute(ValueOp::Extract {
            cell: local.cell_of(of, *index),
        }),
        _ => unreachable!(),
    }
}

/// An instruction that makes, reads or writes memory, or computes an address.
fn memory_of<'a>(
    alloc: Global,
    scope: &Scope<'_, 'a>,
    local: &Local,
    op: &'a Op,
) -> Result<CodeOp, AllocError>
    requires memory { IsTrue (groups.is_memory op.now) }
    requires types { All (Fits scope.now.structs) (types_of_op op.now) }
    ensures { IfOk result (λ made. (from : Name) → (name : Option Name)
        → made ≡ lowering.lowered_op scope.now local.now from name op.now) }
{
    match op {
        Op::Alloca { ty, count } => Ok(CodeOp::Alloca {
            size: scope.size_of(ty),
            count: count_of(scope, local, count),
        }),
        Op::Load { ty, at } => Ok(CodeOp::Memory(MemoryOp::Load {
            ty: *ty,
            at: source_of(scope, local, at),
        })),
        Op::Store { ty, value, at } => Ok(CodeOp::Memory(MemoryOp::Store {
            ty: *ty,
            value: source_of(scope, local, value),
            at: source_of(scope, local, at),
        })),
        Op::Gep { ty, base, indices } => gep_of(alloc, scope, local, ty, base, indices.as_slice()),
        _ => unreachable!(),
    }
}

/// An atomic instruction, whose result has this name, or a fence.
fn atomic_of(scope: &Scope, local: &Local, name: &Option<Name>, op: &Op) -> CodeOp
    requires { IsTrue (groups.is_atomic op.now) }
    ensures { (from : Name) → result ≡ lowering.lowered_op scope.now local.now from name.now op.now }
{
    match op {
        Op::Rmw { op, at, ty, value } => CodeOp::Memory(MemoryOp::Rmw {
            op: *op,
            at: source_of(scope, local, at),
            ty: *ty,
            value: source_of(scope, local, value),
        }),
        Op::Cmpxchg {
            at,
            ty,
            expected,
            new,
        } => CodeOp::Memory(MemoryOp::Cmpxchg {
            at: source_of(scope, local, at),
            ty: *ty,
            expected: source_of(scope, local, expected),
            new: source_of(scope, local, new),
            exchanged: local.result_cell(name, 1),
        }),
        Op::Fence => CodeOp::Skip,
        _ => unreachable!(),
    }
}

/// An instruction that calls, returns or is never reached.
fn transfer_of(alloc: Global, scope: &Scope, local: &Local, op: &Op) -> Result<CodeOp, AllocError>
    requires { IsTrue (groups.is_transfer op.now) }
    ensures { IfOk result (λ made. (from : Name) → (name : Option Name)
        → made ≡ lowering.lowered_op scope.now local.now from name op.now) }
{
    match op {
        Op::Call { callee, args, .. } => call_of(alloc, scope, local, callee, args.as_slice()),
        Op::Ret(value) => Ok(CodeOp::Ret(returned_of(scope, local, value))),
        Op::Unreachable => Ok(CodeOp::Unreachable),
        _ => unreachable!(),
    }
}

/// An instruction that goes to another block from that of a label.
fn branch_of(
    alloc: Global,
    scope: &Scope,
    local: &Local,
    from: &Name,
    op: &Op,
) -> Result<CodeOp, AllocError>
    requires { IsTrue (groups.is_branch op.now) }
    ensures { IfOk result (λ made. (name : Option Name)
        → made ≡ lowering.lowered_op scope.now local.now from.now name op.now) }
{
    match op {
        Op::Br(label) => {
            let edge = edge_to(alloc, scope, local, from, label)?;
            Ok(CodeOp::Branch(BranchOp::Jump(edge)))
        }
        Op::CondBr { c, yes, no } => {
            let first = edge_to(alloc, scope, local, from, yes)?;
            let second = edge_to(alloc, scope, local, from, no)?;
            Ok(CodeOp::Branch(BranchOp::Either {
                c: source_of(scope, local, c),
                yes: first,
                no: second,
            }))
        }
        Op::Switch {
            ty,
            value,
            other,
            cases,
        } => {
            let cases = cases.as_slice();
            switch_of(alloc, scope, local, from, *ty, value, other, cases)
        }
        _ => unreachable!(),
    }
}

/// What an instruction becomes that stands in the block of a label and whose result has this name.
pub fn lower_op<'a>(
    alloc: Global,
    scope: &Scope<'_, 'a>,
    local: &Local,
    from: &Name,
    name: &Option<Name>,
    op: &'a Op,
) -> Result<CodeOp, AllocError>
    requires { All (Fits scope.now.structs) (types_of_op op.now) }
    ensures { IfOk result (λ made. made ≡ lowering.lowered_op scope.now local.now from.now name.now op.now) }
{
    match op {
        Op::Bin { .. } | Op::Icmp { .. } | Op::Cast { .. } => Ok(arithmetic_of(scope, local, op)),
        Op::Select { .. } | Op::Phi { .. } | Op::Extract { .. } => Ok(selection_of(
            scope, local, op,
        )),
        Op::Alloca { .. } | Op::Load { .. } | Op::Store { .. } | Op::Gep { .. } => memory_of(
            alloc, scope, local, op,
        ),
        Op::Rmw { .. } | Op::Cmpxchg { .. } | Op::Fence => Ok(atomic_of(scope, local, name, op)),
        Op::Call { .. } | Op::Ret(_) | Op::Unreachable => transfer_of(alloc, scope, local, op),
        _ => branch_of(alloc, scope, local, from, op),
    }
}

//! The rule of each instruction.
ghost use Rattle.std.specs.Prelude.{◌≡◌, ◌↔◌, ℕ, IsTrue, IfOk, IfSome, map};
ghost use Rattle.ds_ast.specs.declared.name.Name.{Name as name};
ghost use Rattle.ds_ast.specs.declared.operand.Operand.{Operand as operand};
ghost use Rattle.ds_ast.specs.declared.module.Module.{Module as whole};
ghost use Rattle.ds_ast.specs.declared.ty.Scalar.TheVariants.{I1, Ptr};
ghost use Rattle.ds_ast.specs.declared.words.RmwOp.TheVariants.{Xchg};
ghost use Rattle.ds_ast.specs.declared.instr.Op.TheVariants.{Ret as ret};
ghost use Rattle.ds_shape.specs.Types.{AreDistinctNumbers, IsBitwise, IsInteger, IsStored, IsTypedOp, IsWide};
ghost use Rattle.ds_shape.specs.Types.{KeepsRule};

use crate::addresses::is_address;
use crate::calls::is_typed_call;
use crate::numbers::are_distinct;
use crate::operands::are_typed_operands;
use crate::scalars::{converts, is_bitwise, is_integer, is_no_void, is_stored, is_wide};
use crate::values::is_local_of;
use ds_ast::{BinOp, Function, Name, Op, Operand, RmwOp, Scalar, Ty};
use ds_check_names::{Entities, Locals};
use ds_shape::{LocalType, Shapes};
use std::alloc::{AllocError, Global};

/// Whether an operation is one on values of a type.
fn computes(op: BinOp, ty: Scalar) -> bool
    ensures { IsTrue result ↔ IsInteger ty × (ty ≡ I1 → IsBitwise op) }
{
    if !is_integer(ty) {
        return false;
    }
    if ty == Scalar::I1 {
        return is_bitwise(op);
    }
    true
}

/// Whether an `atomicrmw` is one of words of a type.
fn changes(op: RmwOp, ty: Scalar) -> bool
    ensures { IsTrue result ↔ IsStored ty × (ty ≡ Ptr → op ≡ Xchg) }
{
    if !is_stored(ty) {
        return false;
    }
    if ty == Scalar::Ptr {
        return op == RmwOp::Xchg;
    }
    true
}

/// Whether a number of elements is an integer, where it is written.
fn is_count(count: &Option<Operand>) -> bool
    ensures { IsTrue result ↔ IfSome count.now (λ (o : operand). IsInteger o.ty) }
{
    match count {
        None => true,
        Some(operand) => is_integer(operand.ty),
    }
}

/// Whether a function gives what is returned.
fn is_return(function: &Function, value: &Option<Operand>) -> bool
    ensures { (m : whole) → (IsTrue result ↔ KeepsRule m function.now (ret value.now)) }
{
    match value {
        None => function.result == Ty::Void,
        Some(operand) => function.result == Ty::One(operand.ty),
    }
}

/// Whether a `switch` keeps its rule. An `Err` comes only where there is not enough memory.
fn is_switch(alloc: Global, ty: Scalar, cases: &[(u64, Name)]) -> Result<bool, AllocError>
    ensures { IfOk result (λ kept. IsTrue kept ↔ IsWide ty × AreDistinctNumbers (map (λ (c : ℕ
        × name). c.0) cases.now)) }
{
    if !is_wide(ty) {
        return Ok(false);
    }
    are_distinct(alloc, cases)
}

/// Whether an instruction keeps its rule, beside that of its operands. An `Err` comes only where there is not enough
/// memory.
fn keeps_rule<'a>(
    alloc: Global,
    entities: &Entities,
    locals: &Locals,
    shapes: &Shapes<'a>,
    function: &Function,
    op: &'a Op,
) -> Result<bool, AllocError>
    requires one_module { shapes.now ≡ entities.now.structs }
    requires one_function { locals.now ≡ function.now }
    ensures { IfOk result (λ kept. IsTrue kept ↔ KeepsRule entities.now locals.now op.now) }
{
    match op {
        Op::Bin { op, ty, .. } => Ok(computes(*op, *ty)),
        Op::Icmp { .. } => Ok(true),
        Op::Select { .. } => Ok(true),
        Op::Cast { op, from, to, .. } => Ok(converts(*op, *from, *to)),
        Op::Alloca { ty, count } => Ok(is_no_void(ty) && is_count(count)),
        Op::Load { ty, .. } => Ok(is_stored(*ty)),
        Op::Store { ty, .. } => Ok(is_stored(*ty)),
        Op::Gep { ty, indices, .. } => Ok(is_address(entities, shapes, ty, indices.as_slice())),
        Op::Call {
            result,
            callee,
            args,
        } => Ok(is_typed_call(entities, locals, result, callee, args.as_slice())),
        Op::Phi { .. } => Ok(true),
        Op::Rmw { op, ty, .. } => Ok(changes(*op, *ty)),
        Op::Cmpxchg { ty, .. } => Ok(is_stored(*ty)),
        Op::Extract { ty, of, .. } => Ok(is_local_of(locals, LocalType::Pair(*ty), of)),
        Op::Fence => Ok(true),
        Op::Ret(value) => Ok(is_return(function, value)),
        Op::Br(_) => Ok(true),
        Op::CondBr { .. } => Ok(true),
        Op::Switch { ty, cases, .. } => is_switch(alloc, *ty, cases.as_slice()),
        Op::Unreachable => Ok(true),
    }
}

/// Whether an instruction keeps the rules of types. An `Err` comes only where there is not enough memory.
pub fn is_typed<'a>(
    alloc: Global,
    entities: &Entities,
    locals: &Locals,
    shapes: &Shapes<'a>,
    function: &Function,
    op: &'a Op,
) -> Result<bool, AllocError>
    requires one_module { shapes.now ≡ entities.now.structs }
    requires one_function { locals.now ≡ function.now }
    ensures { IfOk result (λ typed. IsTrue typed ↔ IsTypedOp entities.now locals.now op.now) }
{
    if !are_typed_operands(entities, locals, op) {
        return Ok(false);
    }
    keeps_rule(alloc, entities, locals, shapes, function, op)
}

//! The words that choose among the operations of one instruction.
ghost use Rattle.std.specs.Prelude.{◌≡◌};
ghost use Rattle.ds_print.specs.Canonical as spec;

use ds_ast::{BinOp, CastOp, Cond, RmwOp};

/// The word of an operation on two integers.
pub fn bin_op_word(op: BinOp) -> &'static [u8]
    ensures { result.now ≡ spec.bin_op_word op }
{
    match op {
        BinOp::Add => b"add",
        BinOp::Sub => b"sub",
        BinOp::Mul => b"mul",
        BinOp::And => b"and",
        BinOp::Or => b"or",
        BinOp::Xor => b"xor",
        BinOp::Shl => b"shl",
        BinOp::Lshr => b"lshr",
        BinOp::Ashr => b"ashr",
        BinOp::Udiv => b"udiv",
        BinOp::Sdiv => b"sdiv",
        BinOp::Urem => b"urem",
        BinOp::Srem => b"srem",
    }
}

/// The word of a conversion.
pub fn cast_op_word(op: CastOp) -> &'static [u8]
    ensures { result.now ≡ spec.cast_op_word op }
{
    match op {
        CastOp::Zext => b"zext",
        CastOp::Sext => b"sext",
        CastOp::Trunc => b"trunc",
        CastOp::PtrToInt => b"ptrtoint",
        CastOp::IntToPtr => b"inttoptr",
    }
}

/// The word of a comparison.
pub fn cond_word(cond: Cond) -> &'static [u8]
    ensures { result.now ≡ spec.cond_word cond }
{
    match cond {
        Cond::Eq => b"eq",
        Cond::Ne => b"ne",
        Cond::Ugt => b"ugt",
        Cond::Uge => b"uge",
        Cond::Ult => b"ult",
        Cond::Ule => b"ule",
        Cond::Sgt => b"sgt",
        Cond::Sge => b"sge",
        Cond::Slt => b"slt",
        Cond::Sle => b"sle",
    }
}

/// The word of what an `atomicrmw` writes.
pub fn rmw_op_word(op: RmwOp) -> &'static [u8]
    ensures { result.now ≡ spec.rmw_op_word op }
{
    match op {
        RmwOp::Xchg => b"xchg",
        RmwOp::Add => b"add",
        RmwOp::Sub => b"sub",
        RmwOp::And => b"and",
        RmwOp::Or => b"or",
        RmwOp::Xor => b"xor",
        RmwOp::Umax => b"umax",
        RmwOp::Umin => b"umin",
    }
}

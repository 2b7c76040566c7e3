//! Instructions.
ghost use Rattle.std.specs.Prelude.{◌≡◌, ◌↔◌, IsTrue, IfOk};
ghost use Rattle.ds_ast.specs.Groups.{is_arithmetic, is_selection, is_memory, is_atomic, is_transfer, is_branch};

use crate::list::List;
use crate::name::Name;
use crate::operand::{Arm, Operand};
use crate::ops::Ops;
use crate::part::{Part, equals};
use crate::ty::{Scalar, Ty};
use crate::value::Value;
use crate::words::{BinOp, CastOp, Cond, RmwOp};
use std::alloc::{AllocError, Global};

/// What an instruction does, by its name in the LLVM Language Reference.
#[derive(Debug, Drop)]
pub enum Op {
    /// An operation on two integers, as `add`.
    Bin {
        /// Which one.
        op: BinOp,
        /// The type of both and of the result.
        ty: Scalar,
        /// The first.
        a: Value,
        /// The second.
        b: Value,
    },
    /// `icmp`: a comparison.
    Icmp {
        /// What is asked.
        cond: Cond,
        /// The type of both.
        ty: Scalar,
        /// The first.
        a: Value,
        /// The second.
        b: Value,
    },
    /// `select`: one of two values.
    Select {
        /// Which one: the first where it is true.
        c: Value,
        /// The type of both.
        ty: Scalar,
        /// The first.
        a: Value,
        /// The second.
        b: Value,
    },
    /// A conversion, as `zext`.
    Cast {
        /// Which one.
        op: CastOp,
        /// The type of the operand.
        from: Scalar,
        /// The operand.
        a: Value,
        /// The type of the result.
        to: Scalar,
    },
    /// `alloca`: memory on the stack.
    Alloca {
        /// The type of an element.
        ty: Ty,
        /// How many elements, with the number's type; one where it is not written.
        count: Option<Operand>,
    },
    /// `load`.
    Load {
        /// The type of the result.
        ty: Scalar,
        /// The address.
        at: Value,
    },
    /// `store`.
    Store {
        /// The type of the value.
        ty: Scalar,
        /// What is written.
        value: Value,
        /// The address.
        at: Value,
    },
    /// `getelementptr`: the address of a part.
    Gep {
        /// The type that the first index counts.
        ty: Ty,
        /// The address it begins at.
        base: Value,
        /// The indices, with their types.
        indices: Ops<Operand>,
    },
    /// `call`.
    Call {
        /// The type of the result.
        result: Ty,
        /// The function.
        callee: Name,
        /// The arguments, with their types.
        args: Ops<Operand>,
    },
    /// `phi`: a value by the block that control came from.
    Phi {
        /// The type of the values.
        ty: Scalar,
        /// The values, each with the block that it belongs to.
        arms: Ops<Arm>,
    },
    /// `atomicrmw`.
    Rmw {
        /// What it writes.
        op: RmwOp,
        /// The address.
        at: Value,
        /// The type of the value.
        ty: Scalar,
        /// The value that it is given.
        value: Value,
    },
    /// `cmpxchg`.
    Cmpxchg {
        /// The address.
        at: Value,
        /// The type of both values.
        ty: Scalar,
        /// The value that is to be there.
        expected: Value,
        /// What is written if it is.
        new: Value,
    },
    /// `extractvalue` of the result of a `cmpxchg`.
    Extract {
        /// The type of the values of the `cmpxchg`.
        ty: Scalar,
        /// The result.
        of: Name,
        /// 0 for the value that was there, 1 for whether it was the expected one.
        index: u32,
    },
    /// `fence`.
    Fence,
    /// `ret`, with a value and its type or with none.
    Ret(Option<Operand>),
    /// `br` to a block.
    Br(Name),
    /// `br` to one of two blocks.
    CondBr {
        /// Which one: the first where it is true.
        c: Value,
        /// The first.
        yes: Name,
        /// The second.
        no: Name,
    },
    /// `switch`.
    Switch {
        /// The type of the value.
        ty: Scalar,
        /// The value.
        value: Value,
        /// The block where no case fits.
        other: Name,
        /// The cases: a number below 2 to the width, and the block to go to.
        cases: List<(u64, Name)>,
    },
    /// `unreachable`.
    Unreachable,
}

/// An instruction.
#[derive(Debug, Drop)]
pub struct Instr {
    /// The name of its result, where it has one. While one instruction is read alone, it is `None` where no name is
    /// written.
    pub result: Option<Name>,
    /// What it does.
    pub op: Op,
}

impl Part for Instr {
    fn is_same(&self, other: &Instr) -> bool {
        self.result.is_same(&other.result) && self.op.is_same(&other.op)
    }

    fn duplicate(&self, alloc: Global) -> Result<Instr, AllocError> {
        Ok(Instr {
            result: self.result.duplicate(alloc)?,
            op: self.op.duplicate(alloc)?,
        })
    }
}

impl PartialEq for Instr {
    ghost use Rattle.ds_ast.specs.contracts.instr.Instr as row;
    ghost use Rattle.ds_ast.specs.Equality.{is_equal, equal_laws};

    ghost eq = { is_equal row.the_row.coded };

    ghost laws = { equal_laws row.the_row.coded };

    fn eq(&self, other: &Instr) -> bool
        ensures value { IsTrue result ↔ (self.now ≡ other.now) }
        ensures test { result ≡ is_equal row.the_row.coded self.now other.now }
    {
        equals(self, other)
    }
}

impl Eq for Instr {
    ghost use Rattle.ds_ast.specs.contracts.instr.Instr as row;
    ghost use Rattle.ds_ast.specs.Equality.{equal_equivalence};

    ghost laws = { equal_equivalence row.the_row.coded };
}

impl Part for Op {
    fn is_same(&self, other: &Op) -> bool {
        match self {
            Op::Bin { .. } | Op::Icmp { .. } | Op::Cast { .. } => is_same_arithmetic(self, other),
            Op::Select { .. } | Op::Phi { .. } | Op::Extract { .. } => is_same_selection(
                self, other,
            ),
            Op::Alloca { .. } | Op::Load { .. } | Op::Store { .. } | Op::Gep { .. } =>
                is_same_memory(self, other),
            Op::Rmw { .. } | Op::Cmpxchg { .. } | Op::Fence => is_same_atomic(self, other),
            Op::Call { .. } | Op::Ret(_) | Op::Unreachable => is_same_transfer(self, other),
            _ => is_same_branch(self, other),
        }
    }

    fn duplicate(&self, alloc: Global) -> Result<Op, AllocError> {
        match self {
            Op::Bin { .. } | Op::Icmp { .. } | Op::Cast { .. } => duplicate_arithmetic(alloc, self),
            Op::Select { .. } | Op::Phi { .. } | Op::Extract { .. } => duplicate_selection(
                alloc, self,
            ),
            Op::Alloca { .. } | Op::Load { .. } | Op::Store { .. } | Op::Gep { .. } =>
                duplicate_memory(alloc, self),
            Op::Rmw { .. } | Op::Cmpxchg { .. } | Op::Fence => duplicate_atomic(alloc, self),
            Op::Call { .. } | Op::Ret(_) | Op::Unreachable => duplicate_transfer(alloc, self),
            _ => duplicate_branch(alloc, self),
        }
    }
}

fn is_same_arithmetic(this: &Op, that: &Op) -> bool
    requires { IsTrue (is_arithmetic this.now) }
    ensures { IsTrue result ↔ (this.now ≡ that.now) }
{
    match (this, that) {
        (
            Op::Bin { op, ty, a, b },
            Op::Bin {
                op: that_op,
                ty: that_ty,
                a: that_a,
                b: that_b,
            },
        ) => op == that_op && ty == that_ty && a.is_same(that_a) && b.is_same(that_b),
        (
            Op::Icmp { cond, ty, a, b },
            Op::Icmp {
                cond: that_cond,
                ty: that_ty,
                a: that_a,
                b: that_b,
            },
        ) => cond == that_cond && ty == that_ty && a.is_same(that_a) && b.is_same(that_b),
        (
            Op::Cast { op, from, a, to },
            Op::Cast {
                op: that_op,
                from: that_from,
                a: that_a,
                to: that_to,
            },
        ) => op == that_op && from == that_from && a.is_same(that_a) && to == that_to,
        _ => false,
    }
}

fn is_same_selection(this: &Op, that: &Op) -> bool
    requires { IsTrue (is_selection this.now) }
    ensures { IsTrue result ↔ (this.now ≡ that.now) }
{
    match (this, that) {
        (
            Op::Select { c, ty, a, b },
            Op::Select {
                c: that_c,
                ty: that_ty,
                a: that_a,
                b: that_b,
            },
        ) => c.is_same(that_c) && ty == that_ty && a.is_same(that_a) && b.is_same(that_b),
        (
            Op::Phi { ty, arms },
            Op::Phi {
                ty: that_ty,
                arms: that_arms,
            },
        ) => ty == that_ty && arms.is_same(that_arms),
        (
            Op::Extract { ty, of, index },
            Op::Extract {
                ty: that_ty,
                of: that_of,
                index: that_index,
            },
        ) => ty == that_ty && of.is_same(that_of) && index == that_index,
        _ => false,
    }
}

fn is_same_memory(this: &Op, that: &Op) -> bool
    requires { IsTrue (is_memory this.now) }
    ensures { IsTrue result ↔ (this.now ≡ that.now) }
{
    match (this, that) {
        (
            Op::Alloca { ty, count },
            Op::Alloca {
                ty: that_ty,
                count: that_count,
            },
        ) => ty.is_same(that_ty) && count.is_same(that_count),
        (
            Op::Load { ty, at },
            Op::Load {
                ty: that_ty,
                at: that_at,
            },
        ) => ty == that_ty && at.is_same(that_at),
        (
            Op::Store { ty, value, at },
            Op::Store {
                ty: that_ty,
                value: that_value,
                at: that_at,
            },
        ) => ty == that_ty && value.is_same(that_value) && at.is_same(that_at),
        (
            Op::Gep { ty, base, indices },
            Op::Gep {
                ty: that_ty,
                base: that_base,
                indices: that_indices,
            },
        ) => ty.is_same(that_ty) && base.is_same(that_base) && indices.is_same(that_indices),
        _ => false,
    }
}

fn is_same_atomic(this: &Op, that: &Op) -> bool
    requires { IsTrue (is_atomic this.now) }
    ensures { IsTrue result ↔ (this.now ≡ that.now) }
{
    match (this, that) {
        (
            Op::Rmw { op, at, ty, value },
            Op::Rmw {
                op: that_op,
                at: that_at,
                ty: that_ty,
                value: that_value,
            },
        ) => op == that_op && at.is_same(that_at) && ty == that_ty && value.is_same(that_value),
        (
            Op::Cmpxchg {
                at,
                ty,
                expected,
                new,
            },
            Op::Cmpxchg {
                at: that_at,
                ty: that_ty,
                expected: that_expected,
                new: that_new,
            },
        ) => at.is_same(that_at)
            && ty == that_ty
            && expected.is_same(that_expected)
            && new.is_same(that_new),
        (Op::Fence, Op::Fence) => true,
        _ => false,
    }
}

fn is_same_transfer(this: &Op, that: &Op) -> bool
    requires { IsTrue (is_transfer this.now) }
    ensures { IsTrue result ↔ (this.now ≡ that.now) }
{
    match (this, that) {
        (
            Op::Call {
                result,
                callee,
                args,
            },
            Op::Call {
                result: that_result,
                callee: that_callee,
                args: that_args,
            },
        ) => result.is_same(that_result) && callee.is_same(that_callee) && args.is_same(that_args),
        (Op::Ret(x), Op::Ret(y)) => x.is_same(y),
        (Op::Unreachable, Op::Unreachable) => true,
        _ => false,
    }
}

fn is_same_branch(this: &Op, that: &Op) -> bool
    requires { IsTrue (is_branch this.now) }
    ensures { IsTrue result ↔ (this.now ≡ that.now) }
{
    match (this, that) {
        (Op::Br(x), Op::Br(y)) => x.is_same(y),
        (
            Op::CondBr { c, yes, no },
            Op::CondBr {
                c: that_c,
                yes: that_yes,
                no: that_no,
            },
        ) => c.is_same(that_c) && yes.is_same(that_yes) && no.is_same(that_no),
        (
            Op::Switch {
                ty,
                value,
                other,
                cases,
            },
            Op::Switch {
                ty: that_ty,
                value: that_value,
                other: that_other,
                cases: that_cases,
            },
        ) => ty == that_ty
            && value.is_same(that_value)
            && other.is_same(that_other)
            && cases.is_same(that_cases),
        _ => false,
    }
}

fn duplicate_arithmetic(alloc: Global, op: &Op) -> Result<Op, AllocError>
    requires { IsTrue (is_arithmetic op.now) }
    ensures { IfOk result (λ copy. copy ≡ op.now) }
{
    match op {
        Op::Bin { op, ty, a, b } => Ok(Op::Bin {
            op: *op,
            ty: *ty,
            a: a.duplicate(alloc)?,
            b: b.duplicate(alloc)?,
        }),
        Op::Icmp { cond, ty, a, b } => Ok(Op::Icmp {
            cond: *cond,
            ty: *ty,
            a: a.duplicate(alloc)?,
            b: b.duplicate(alloc)?,
        }),
        Op::Cast { op, from, a, to } => Ok(Op::Cast {
            op: *op,
            from: *from,
            a: a.duplicate(alloc)?,
            to: *to,
        }),
        _ => unreachable!(),
    }
}

fn duplicate_selection(alloc: Global, op: &Op) -> Result<Op, AllocError>
    requires { IsTrue (is_selection op.now) }
    ensures { IfOk result (λ copy. copy ≡ op.now) }
{
    match op {
        Op::Select { c, ty, a, b } => Ok(Op::Select {
            c: c.duplicate(alloc)?,
            ty: *ty,
            a: a.duplicate(alloc)?,
            b: b.duplicate(alloc)?,
        }),
        Op::Phi { ty, arms } => Ok(Op::Phi {
            ty: *ty,
            arms: arms.duplicate(alloc)?,
        }),
        Op::Extract { ty, of, index } => Ok(Op::Extract {
            ty: *ty,
            of: of.duplicate(alloc)?,
            index: *index,
        }),
        _ => unreachable!(),
    }
}

fn duplicate_memory(alloc: Global, op: &Op) -> Result<Op, AllocError>
    requires { IsTrue (is_memory op.now) }
    ensures { IfOk result (λ copy. copy ≡ op.now) }
{
    match op {
        Op::Alloca { ty, count } => Ok(Op::Alloca {
            ty: ty.duplicate(alloc)?,
            count: count.duplicate(alloc)?,
        }),
        Op::Load { ty, at } => Ok(Op::Load {
            ty: *ty,
            at: at.duplicate(alloc)?,
        }),
        Op::Store { ty, value, at } => Ok(Op::Store {
            ty: *ty,
            value: value.duplicate(alloc)?,
            at: at.duplicate(alloc)?,
        }),
        Op::Gep { ty, base, indices } => Ok(Op::Gep {
            ty: ty.duplicate(alloc)?,
            base: base.duplicate(alloc)?,
            indices: indices.duplicate(alloc)?,
        }),
        _ => unreachable!(),
    }
}

fn duplicate_atomic(alloc: Global, op: &Op) -> Result<Op, AllocError>
    requires { IsTrue (is_atomic op.now) }
    ensures { IfOk result (λ copy. copy ≡ op.now) }
{
    match op {
        Op::Rmw { op, at, ty, value } => Ok(Op::Rmw {
            op: *op,
            at: at.duplicate(alloc)?,
            ty: *ty,
            value: value.duplicate(alloc)?,
        }),
        Op::Cmpxchg {
            at,
            ty,
            expected,
            new,
        } => Ok(Op::Cmpxchg {
            at: at.duplicate(alloc)?,
            ty: *ty,
            expected: expected.duplicate(alloc)?,
            new: new.duplicate(alloc)?,
        }),
        Op::Fence => Ok(Op::Fence),
        _ => unreachable!(),
    }
}

fn duplicate_transfer(alloc: Global, op: &Op) -> Result<Op, AllocError>
    requires { IsTrue (is_transfer op.now) }
    ensures { IfOk result (λ copy. copy ≡ op.now) }
{
    match op {
        Op::Call {
            result,
            callee,
            args,
        } => Ok(Op::Call {
            result: result.duplicate(alloc)?,
            callee: callee.duplicate(alloc)?,
            args: args.duplicate(alloc)?,
        }),
        Op::Ret(x) => Ok(Op::Ret(x.duplicate(alloc)?)),
        Op::Unreachable => Ok(Op::Unreachable),
        _ => unreachable!(),
    }
}

fn duplicate_branch(alloc: Global, op: &Op) -> Result<Op, AllocError>
    requires { IsTrue (is_branch op.now) }
    ensures { IfOk result (λ copy. copy ≡ op.now) }
{
    match op {
        Op::Br(x) => Ok(Op::Br(x.duplicate(alloc)?)),
        Op::CondBr { c, yes, no } => Ok(Op::CondBr {
            c: c.duplicate(alloc)?,
            yes: yes.duplicate(alloc)?,
            no: no.duplicate(alloc)?,
        }),
        Op::Switch {
            ty,
            value,
            other,
            cases,
        } => Ok(Op::Switch {
            ty: *ty,
            value: value.duplicate(alloc)?,
            other: other.duplicate(alloc)?,
            cases: cases.duplicate(alloc)?,
        }),
        _ => unreachable!(),
    }
}

impl PartialEq for Op {
    ghost use Rattle.ds_ast.specs.contracts.instr.Op as row;
    ghost use Rattle.ds_ast.specs.Equality.{is_equal, equal_laws};

    ghost eq = { is_equal row.the_row.coded };

    ghost laws = { equal_laws row.the_row.coded };

    fn eq(&self, other: &Op) -> bool
        ensures value { IsTrue result ↔ (self.now ≡ other.now) }
        ensures test { result ≡ is_equal row.the_row.coded self.now other.now }
    {
        equals(self, other)
    }
}

impl Eq for Op {
    ghost use Rattle.ds_ast.specs.contracts.instr.Op as row;
    ghost use Rattle.ds_ast.specs.Equality.{equal_equivalence};

    ghost laws = { equal_equivalence row.the_row.coded };
}

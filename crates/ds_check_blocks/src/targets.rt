//! The labels that a terminator names.
ghost use Rattle.std.specs.Prelude.{◌≡◌, ◌<◌, Some, length, slice_get};
ghost use Rattle.ds_shape.specs.Flow.{targets_of};

use ds_ast::{Name, Op};

/// How many labels a terminator names. Other instructions name none.
pub fn target_count(op: &Op) -> usize
    ensures { result ≡ length (targets_of op.now) }
{
    match op {
        Op::Br(_) => 1,
        Op::CondBr { .. } => 2,
        Op::Switch { cases, .. } => cases.as_slice().len() + 1,
        _ => 0,
    }
}

/// The label of this number, from 0 on, in the order of the text.
pub fn target(op: &Op, number: usize) -> &Name
    requires { number < length (targets_of op.now) }
    ensures { slice_get (targets_of op.now) number ≡ Some result.now }
{
    match op {
        Op::Br(label) => label,
        Op::CondBr { yes, no, .. } => if number == 0 { yes } else { no },
        Op::Switch { other, cases, .. } => if number == 0 {
            other
        } else {
            &cases.as_slice()[number - 1].1
        },
        _ => unreachable!(),
    }
}

//! What an operation does to its word, as code.

ghost use Rattle.std.specs.Prelude.{◌≡◌};
ghost use Rattle.ds_step.specs.Word.{written_by, answered_by};

use crate::{OpKind, WordOp};

/// What a word becomes by an operation.
pub(crate) fn written(op: WordOp, old: u64) -> u64
    ensures { result ≡ written_by op.kind op.a op.b old }
{
    match op.kind {
        OpKind::Load => old,
        OpKind::Store | OpKind::Swap => op.a,
        OpKind::Add => old.wrapping_add(op.a),
        OpKind::Sub => old.wrapping_sub(op.a),
        OpKind::And => old & op.a,
        OpKind::Or => old | op.a,
        OpKind::Xor => old ^ op.a,
        OpKind::Max => old.max(op.a),
        OpKind::Min => old.min(op.a),
        OpKind::Cas if old == op.a => op.b,
        OpKind::Cas => old,
    }
}

/// What an operation of this kind answers, by the word's old value.
pub(crate) fn answered(kind: OpKind, old: u64) -> u64
    ensures { result ≡ answered_by kind old }
{
    if kind == OpKind::Store { 0 } else { old }
}

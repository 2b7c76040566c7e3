//! The rows of an access as code: the operation of each position, what its answer means, and what comes next.

ghost use Rattle.std.specs.Prelude.{◌≡◌, ◌+◌, ◌<◌, ◌≤◌};
ghost use Rattle.ds_map.specs.Bounds.{Bounds};
ghost use Rattle.ds_map.specs.Words.{words};
ghost use Rattle.ds_plain.specs.declared.AccessAt.TheVariants.{ReplaceWord, SwapPart};
ghost use Rattle.ds_plain.specs.Operations.{load_of, store_of, swap_of};
ghost use Rattle.ds_plain.specs.Accessing.{changed_word, is_refused, change_answer, combining_kind};
ghost use Rattle.ds_plain.specs.Accessing.{part_seen, behind_part, access_op, access_row, access_event, access_next};
ghost use Rattle.ds_plain.specs.Accessing.{IsPart, IsAccessAt};
ghost use Rattle.ds_access.specs.Walks.{next_in, IsNext, IsInWord};

use crate::outcome::AccessStep;
use crate::parts::{combined, part, with_part};
use ds_ast::RmwOp;
use ds_map::{Limits, word_of};
use ds_plain::{Access, AccessAt, Change};
use ds_step::{Event, OpKind, WordOp};

// CHANGES OF A PART OF A WORD

/// The word with a part of it changed.
fn changed_word(access: Access, change: Change, word: u64) -> u64
    requires { access.shift + access.bits ≤ 64 }
    ensures { result ≡ changed_word access change word }
{
    match change {
        Change::Put(value) => with_part(access, value, word),
        Change::Combine(op, value) => {
            let put = combined(op, access.bits, part(access, word), value);
            with_part(access, put, word)
        }
        Change::Replace { expected: _, new } => with_part(access, new, word),
    }
}

/// Whether the change is not made of this word, since another value than the expected one stands there.
fn is_refused(access: Access, change: Change, word: u64) -> bool
    requires { access.shift + access.bits ≤ 64 }
    ensures { result ≡ is_refused access change word }
{
    match change {
        Change::Put(_) => false,
        Change::Combine(_, _) => false,
        Change::Replace { expected, new: _ } => part(access, word) != expected,
    }
}

/// What the thread is told that changed this word.
fn change_answer(change: Change, word: u64) -> u64
    ensures { result ≡ change_answer change word }
{
    match change {
        Change::Put(_) => 0,
        Change::Combine(_, _) => word,
        Change::Replace {
            expected: _,
            new: _,
        } => word,
    }
}

// OPERATIONS AND ROWS

/// A load of a word of the table.
fn load(word: u32) -> WordOp
    ensures { result ≡ load_of word }
{
    WordOp {
        kind: OpKind::Load,
        word,
        a: 0,
        b: 0,
    }
}

/// A store of a value to a word of the table.
fn store(word: u32, value: u64) -> WordOp
    ensures { result ≡ store_of word value }
{
    WordOp {
        kind: OpKind::Store,
        word,
        a: value,
        b: 0,
    }
}

/// A compare-and-swap of a word of the table.
fn swap(word: u32, expected: u64, new: u64) -> WordOp
    ensures { result ≡ swap_of word expected new }
{
    WordOp {
        kind: OpKind::Cas,
        word,
        a: expected,
        b: new,
    }
}

/// The kind of operation that combines a whole word with a value.
fn combining_kind(op: RmwOp) -> OpKind
    ensures { result ≡ combining_kind op }
{
    match op {
        RmwOp::Xchg => OpKind::Swap,
        RmwOp::Add => OpKind::Add,
        RmwOp::Sub => OpKind::Sub,
        RmwOp::And => OpKind::And,
        RmwOp::Or => OpKind::Or,
        RmwOp::Xor => OpKind::Xor,
        RmwOp::Umax => OpKind::Max,
        RmwOp::Umin => OpKind::Min,
    }
}

/// The operation that an access makes at a position.
pub(crate) fn op_of(limits: &Limits, at: AccessAt) -> WordOp
    requires { IsAccessAt limits.now at }
    ensures op { result ≡ access_op limits.now at }
    ensures word { result.word < words limits.now }
{
    match at {
        AccessAt::LoadWord { loc } => load(word_of(limits, loc)),
        AccessAt::StoreWord { loc, value } => store(word_of(limits, loc), value),
        AccessAt::CombineWord { loc, op, value } => WordOp {
            kind: combining_kind(op),
            word: word_of(limits, loc),
            a: value,
            b: 0,
        },
        AccessAt::ReplaceWord { loc, expected, new } => swap(word_of(limits, loc), expected, new),
        AccessAt::LoadPart { access, change: _ } => load(word_of(limits, access.loc)),
        AccessAt::SwapPart {
            access,
            change,
            seen,
        } => swap(
            word_of(limits, access.loc),
            seen,
            changed_word(access, change, seen),
        ),
    }
}

/// The number of the row that an access makes at a position.
pub(crate) fn row_of(at: AccessAt) -> u8
    ensures { result ≡ access_row at }
{
    match at {
        AccessAt::LoadWord { loc: _ } => 14,
        AccessAt::StoreWord { loc: _, value: _ } => 15,
        AccessAt::CombineWord {
            loc: _,
            op: _,
            value: _,
        } => 16,
        AccessAt::ReplaceWord {
            loc: _,
            expected: _,
            new: _,
        } => 17,
        AccessAt::LoadPart {
            access: _,
            change: _,
        } => 18,
        AccessAt::SwapPart {
            access: _,
            change: _,
            seen: _,
        } => 19,
    }
}

// WHAT ITS ANSWERS MEAN, AND WHAT COMES NEXT

/// What a whole word means to an access that would replace it, and what comes next.
fn word_replaced(loc: u32, expected: u64, new: u64, old: u64) -> (Event, AccessStep)
    ensures event { result.0 ≡ access_event (ReplaceWord loc expected new) old }
    ensures next { next_in result.1 ≡ access_next (ReplaceWord loc expected new) old }
{
    if old == expected {
        return (Event::Exchange { loc, value: new }, AccessStep::Tells(old));
    }
    (Event::Load { loc, value: old }, AccessStep::Tells(old))
}

/// What a word means to an access that is to change a part of it, and what comes next.
fn part_seen(access: Access, change: Change, word: u64) -> (Event, AccessStep)
    requires { access.shift + access.bits ≤ 64 }
    ensures event { result.0 ≡ part_seen access change word }
    ensures next { next_in result.1 ≡ behind_part access change word }
    ensures stands { (lim : Bounds) → IsPart lim access → IsNext lim (next_in result.1) }
{
    if is_refused(access, change, word) {
        let loc = access.loc;
        return (Event::Load { loc, value: word }, AccessStep::Tells(word));
    }
    let seen = word;
    (
        Event::Log,
        AccessStep::AccessesOn(AccessAt::SwapPart {
            access,
            change,
            seen,
        }),
    )
}

/// What a word means to an access that would change a part of it, as it saw it, and what comes next.
fn part_swapped(access: Access, change: Change, seen: u64, old: u64) -> (Event, AccessStep)
    requires { access.shift + access.bits ≤ 64 }
    ensures event { result.0 ≡ access_event (SwapPart access change seen) old }
    ensures next { next_in result.1 ≡ access_next (SwapPart access change seen) old }
    ensures stands { (lim : Bounds) → IsPart lim access → IsNext lim (next_in result.1) }
{
    if old == seen {
        let loc = access.loc;
        let value = changed_word(access, change, seen);
        let answer = change_answer(change, seen);
        return (Event::Exchange { loc, value }, AccessStep::Tells(answer));
    }
    part_seen(access, change, old)
}

/// What the answer means to an access at a position, and what comes next.
pub(crate) fn step_of(at: AccessAt, old: u64) -> (Event, AccessStep)
    requires { IsInWord at }
    ensures event { result.0 ≡ access_event at old }
    ensures next { next_in result.1 ≡ access_next at old }
    ensures stands { (lim : Bounds) → IsAccessAt lim at → IsNext lim (next_in result.1) }
{
    match at {
        AccessAt::LoadWord { loc } => (Event::Load { loc, value: old }, AccessStep::Tells(old)),
        AccessAt::StoreWord { loc, value } => (Event::Store { loc, value }, AccessStep::Tells(0)),
        AccessAt::CombineWord { loc, op, value } => {
            let value = combined(op, 64, old, value);
            (Event::Exchange { loc, value }, AccessStep::Tells(old))
        }
        AccessAt::ReplaceWord { loc, expected, new } => word_replaced(loc, expected, new, old),
        AccessAt::LoadPart { access, change } => part_seen(access, change, old),
        AccessAt::SwapPart {
            access,
            change,
            seen,
        } => part_swapped(access, change, seen, old),
    }
}

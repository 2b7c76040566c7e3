//! Words that choose among the operations of one instruction, and orderings.
ghost use Rattle.std.specs.Prelude.{◌≡◌, map};
ghost use Rattle.ds_grammar.specs.Reading.{Gives, Passes, first_value, value_at};
ghost use Rattle.ds_grammar.specs.Tokens.{word_in};
ghost use Rattle.ds_grammar.specs.Instructions as instructions;

use ds_ast::{CastOp, Cond, RmwOp};
use ds_grammar::{ParseFault, optionals_are_read};
use ds_lex::TokenKind;
use ds_parse_parts::{Rest, find};

/// The conversions.
pub const CAST_OP_WORDS: [(&[u8], CastOp); 5] = [
    (b"zext", CastOp::Zext),
    (b"sext", CastOp::Sext),
    (b"trunc", CastOp::Trunc),
    (b"ptrtoint", CastOp::PtrToInt),
    (b"inttoptr", CastOp::IntToPtr),
];

/// The comparisons.
const COND_WORDS: [(&[u8], Cond); 10] = [
    (b"eq", Cond::Eq),
    (b"ne", Cond::Ne),
    (b"ugt", Cond::Ugt),
    (b"uge", Cond::Uge),
    (b"ult", Cond::Ult),
    (b"ule", Cond::Ule),
    (b"sgt", Cond::Sgt),
    (b"sge", Cond::Sge),
    (b"slt", Cond::Slt),
    (b"sle", Cond::Sle),
];

/// What an `atomicrmw` writes.
const RMW_OP_WORDS: [(&[u8], RmwOp); 8] = [
    (b"xchg", RmwOp::Xchg),
    (b"add", RmwOp::Add),
    (b"sub", RmwOp::Sub),
    (b"and", RmwOp::And),
    (b"or", RmwOp::Or),
    (b"xor", RmwOp::Xor),
    (b"umax", RmwOp::Umax),
    (b"umin", RmwOp::Umin),
];

/// The orderings of memory, which all are read as the strongest.
const ORDERING_WORDS: [(&[u8], ()); 6] = [
    (b"unordered", ()),
    (b"monotonic", ()),
    (b"acquire", ()),
    (b"release", ()),
    (b"acq_rel", ()),
    (b"seq_cst", ()),
];

/// What a table has for the next token, if it is a word.
pub fn next_in<A: Copy>(table: &[(&[u8], A)], rest: &Rest) -> Option<A>
    ensures { result ≡ first_value
        (λ t. word_in (map (λ row. (row.0.now, row.1)) table.now) t.kind t.bytes) rest.now.left }
{
    match rest.peek() {
        Some((TokenKind::Word, bytes, _)) => find(table, bytes),
        _ => None,
    }
}

/// A comparison.
#[tactic(auto, unfolding(ds_grammar::specs::Instructions::condition))]
pub fn condition<'a>(rest: Rest<'a>) -> Result<(Cond, Rest<'a>), ParseFault>
    ensures { Gives result (value_at instructions.condition rest.entry) }
{
    let read = next_in(&COND_WORDS, &rest);
    rest.take(read)
}

/// What an `atomicrmw` writes.
#[tactic(auto, unfolding(ds_grammar::specs::Instructions::rmw_op))]
pub fn rmw_op<'a>(rest: Rest<'a>) -> Result<(RmwOp, Rest<'a>), ParseFault>
    ensures { Gives result (value_at instructions.rmw_op rest.entry) }
{
    let read = next_in(&RMW_OP_WORDS, &rest);
    rest.take(read)
}

/// An ordering of memory.
#[tactic(auto, unfolding(ds_grammar::specs::Instructions::ordering))]
pub fn ordering<'a>(rest: Rest<'a>) -> Result<Rest<'a>, ParseFault>
    ensures { Passes result (value_at instructions.ordering rest.entry) }
{
    let read = next_in(&ORDERING_WORDS, &rest);
    let (_, rest) = rest.take(read)?;
    Ok(rest)
}

/// An ordering of memory, which need not be written.
#[tactic(auto, unfolding(ds_grammar::specs::Instructions::optional_ordering))]
pub fn optional_ordering<'a>(rest: Rest<'a>) -> Result<(Option<()>, Rest<'a>), ParseFault>
    ensures { Gives result (value_at instructions.optional_ordering rest.entry) }
{
    optionals_are_read();
    match next_in(&ORDERING_WORDS, &rest) {
        Some(order) => Ok((Some(order), rest.past())),
        None => Ok((None, rest)),
    }
}

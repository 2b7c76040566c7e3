//! An instruction, by what begins it.
ghost use Rattle.std.specs.Prelude.{◌≡◌, Bool, List, None, false, not, if◌then◌else◌, option_map, IsTrue};
ghost use Rattle.std.specs.Option.{option_to_list};
ghost use Rattle.ds_grammar.specs.declared.fault.Mark.{Mark};
ghost use Rattle.ds_grammar.specs.declared.item.Head.TheVariants as head;
ghost use Rattle.ds_grammar.specs.Reading.{Gives, value_at};
ghost use Rattle.ds_grammar.specs.Rows as rows;
ghost use Rattle.ds_grammar.specs.Instructions as instructions;
ghost use Rattle.ds_grammar.specs.Instructions.{if_none};
ghost use Rattle.ds_grammar.specs.Tokens.{lookup};
ghost use Rattle.ds_parse_instr.specs.Heads as heads;

use crate::arithmetic::{binary_row, cast_row, icmp_row, select_row};
use crate::calls::call_row;
use crate::control::{br_row, ret_row, switch_row, unreachable_row};
use crate::listed::{alloca_row, gep_row, phi_row};
use crate::memory::{cmpxchg_row, extract_row, fence_row, load_row, rmw_row, store_row};
use crate::ops::CAST_OP_WORDS;
use ds_ast::{Instr, Op};
use ds_grammar::{Head, Mark, ParseFault, RunItem, marks_are_read};
use ds_lex::TokenKind;
use ds_parse_parts::{
    BIN_OP_WORDS, Rest, find, ignored_from, result_name, run_item, run_rest, taken, word,
};
use std::alloc::Global;

/// The words that begin an instruction with a result.
const RESULT_WORDS: [(&[u8], Head); 10] = [
    (b"icmp", Head::Icmp),
    (b"select", Head::Select),
    (b"alloca", Head::Alloca),
    (b"load", Head::Load),
    (b"getelementptr", Head::Gep),
    (b"call", Head::Call),
    (b"phi", Head::Phi),
    (b"atomicrmw", Head::Rmw),
    (b"cmpxchg", Head::Cmpxchg),
    (b"extractvalue", Head::Extract),
];

/// The words that begin an instruction without a result.
const OTHER_WORDS: [(&[u8], Head); 6] = [
    (b"store", Head::Store),
    (b"fence", Head::Fence),
    (b"ret", Head::Ret),
    (b"br", Head::Br),
    (b"switch", Head::Switch),
    (b"unreachable", Head::Unreachable),
];

/// What the one word of a row begins, where behind the name of a result no instruction without one stands.
fn row_word(named: bool, bytes: &[u8]) -> Option<Head>
    ensures { result ≡ if_none (lookup instructions.result_words bytes.now)
        (if named then None else lookup instructions.other_words bytes.now) }
{
    match find(&RESULT_WORDS, bytes) {
        Some(head) => Some(head),
        None => {
            if named {
                None
            } else {
                find(&OTHER_WORDS, bytes)
            }
        }
    }
}

/// What a word begins, where behind the name of a result no instruction without one stands.
fn head_word(named: bool, bytes: &[u8]) -> Option<Head>
    ensures { result ≡ instructions.head_word named bytes.now }
{
    match find(&BIN_OP_WORDS, bytes) {
        Some(op) => Some(Head::Binary(op)),
        None => match find(&CAST_OP_WORDS, bytes) {
            Some(op) => Some(Head::Cast(op)),
            None => row_word(named, bytes),
        },
    }
}

/// What a token begins that does not begin a row: before a call a run of ignored words may stand.
fn ignored_head(kind: TokenKind, bytes: &[u8]) -> Option<Head>
    ensures { result ≡ option_map (λ i. head.Ignored i) (rows.run_item false kind bytes.now) }
{
    match run_item(false, kind, bytes) {
        Some(item) => Some(Head::Ignored(item)),
        None => None,
    }
}

/// What a token begins.
pub fn head_of(named: bool, kind: TokenKind, bytes: &[u8]) -> Option<Head>
    ensures { result ≡ instructions.head_of named kind bytes.now }
{
    match kind {
        TokenKind::Word => match head_word(named, bytes) {
            Some(head) => Some(head),
            None => ignored_head(kind, bytes),
        },
        _ => ignored_head(kind, bytes),
    }
}

/// A call behind the first item of a run of ignored words.
#[tactic(auto, unfolding(ds_grammar::specs::Instructions::ignored_call))]
fn ignored_call<'a>(
    alloc: Global,
    named: bool,
    mark: Option<Mark>,
    item: RunItem,
    rest: Rest<'a>,
) -> Result<(Op, Rest<'a>), ParseFault>
    ensures { Gives result (value_at (instructions.ignored_call named (option_to_list mark) item) rest.entry) }
{
    let (after_word, rest) = run_rest(alloc, item, rest)?;
    let (_, rest) = ignored_from(alloc, after_word, rest)?;
    let rest = word(b"call", rest)?;
    call_row(alloc, named, mark, rest)
}

/// Whether what begins so has a result, and is no call.
fn gives_result(head: Head) -> bool
    ensures { result ≡ instructions.gives_result head }
{
    !matches!(
        head,
        Head::Store
            | Head::Fence
            | Head::Ret
            | Head::Br
            | Head::Switch
            | Head::Unreachable
            | Head::Call
            | Head::Ignored(_)
    )
}

/// Whether an instruction on memory begins so.
fn is_memory(head: Head) -> bool
    ensures { result ≡ heads.is_memory head }
{
    matches!(
        head,
        Head::Alloca
            | Head::Load
            | Head::Store
            | Head::Gep
            | Head::Rmw
            | Head::Cmpxchg
            | Head::Fence
    )
}

/// Whether a terminator begins so.
fn is_end(head: Head) -> bool
    ensures { result ≡ heads.is_end head }
{
    matches!(
        head,
        Head::Ret | Head::Br | Head::Switch | Head::Unreachable
    )
}

/// The row of an instruction on memory.
fn memory_row<'a>(alloc: Global, head: Head, rest: Rest<'a>) -> Result<(Op, Rest<'a>), ParseFault>
    requires { IsTrue (heads.is_memory head) }
    ensures { (named : Bool) (marks : List Mark)
        → Gives result (value_at (instructions.begun_row named marks head) rest.entry) }
{
    match head {
        Head::Alloca => alloca_row(alloc, rest),
        Head::Load => load_row(alloc, rest),
        Head::Store => store_row(alloc, rest),
        Head::Gep => gep_row(alloc, rest),
        Head::Rmw => rmw_row(alloc, rest),
        Head::Cmpxchg => cmpxchg_row(alloc, rest),
        Head::Fence => fence_row(rest),
        _ => unreachable!(),
    }
}

/// The row of a terminator.
fn end_row<'a>(alloc: Global, head: Head, rest: Rest<'a>) -> Result<(Op, Rest<'a>), ParseFault>
    requires { IsTrue (heads.is_end head) }
    ensures { (named : Bool) (marks : List Mark)
        → Gives result (value_at (instructions.begun_row named marks head) rest.entry) }
{
    match head {
        Head::Ret => ret_row(alloc, rest),
        Head::Br => br_row(alloc, rest),
        Head::Switch => switch_row(alloc, rest),
        Head::Unreachable => unreachable_row(rest),
        _ => unreachable!(),
    }
}

/// The row of any other instruction.
fn value_row<'a>(
    alloc: Global,
    named: bool,
    mark: Option<Mark>,
    head: Head,
    rest: Rest<'a>,
) -> Result<(Op, Rest<'a>), ParseFault>
    requires { IsTrue (not (heads.is_memory head)) × IsTrue (not (heads.is_end head)) }
    ensures { Gives result (value_at (instructions.begun_row named (option_to_list mark) head) rest.entry) }
{
    match head {
        Head::Binary(op) => binary_row(alloc, op, rest),
        Head::Cast(op) => cast_row(alloc, op, rest),
        Head::Icmp => icmp_row(alloc, rest),
        Head::Select => select_row(alloc, rest),
        Head::Call => call_row(alloc, named, mark, rest),
        Head::Phi => phi_row(alloc, rest),
        Head::Extract => extract_row(alloc, rest),
        Head::Ignored(item) => ignored_call(alloc, named, mark, item, rest),
        _ => unreachable!(),
    }
}

/// The row that begins so, behind the name of a result or not; the type of a call takes a number, with this mark.
fn begun_row<'a>(
    alloc: Global,
    named: bool,
    mark: Option<Mark>,
    head: Head,
    rest: Rest<'a>,
) -> Result<(Op, Rest<'a>), ParseFault>
    ensures { Gives result (value_at (instructions.begun_row named (option_to_list mark) head) rest.entry) }
{
    if is_memory(head) {
        memory_row(alloc, head, rest)
    } else if is_end(head) {
        end_row(alloc, head, rest)
    } else {
        value_row(alloc, named, mark, head, rest)
    }
}

/// The row that begins so, behind the name of a result or not. Where there is a result, it takes a number with this
/// mark.
pub fn row_of<'a>(
    alloc: Global,
    named: bool,
    mark: Option<Mark>,
    head: Head,
    rest: Rest<'a>,
) -> Result<(Op, Rest<'a>), ParseFault>
    ensures { Gives result (value_at (instructions.row_of named (option_to_list mark) head) rest.entry) }
{
    marks_are_read();
    let rest = rest.marked_by(taken(mark, gives_result(head)));
    begun_row(alloc, named, mark, head, rest)
}

/// An instruction: the name of its result, where it has one and it is written, and a row.
#[tactic(auto, unfolding(ds_grammar::specs::Instructions::instruction))]
pub fn instruction<'a>(alloc: Global, rest: Rest<'a>) -> Result<(Instr, Rest<'a>), ParseFault>
    ensures { Gives result (value_at instructions.instruction rest.entry) }
{
    let (result, rest) = result_name(alloc, rest)?;
    let named = result.is_some();
    let read = match rest.peek() {
        Some((kind, bytes, _)) => head_of(named, kind, bytes),
        None => None,
    };
    let (head, rest) = rest.take(read)?;
    let (op, rest) = row_of(alloc, named, None, head, rest)?;
    Ok((Instr { result, op }, rest))
}

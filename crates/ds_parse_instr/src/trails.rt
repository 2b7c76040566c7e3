//! Lists at the end of an instruction, each with the endings behind it.
ghost use Rattle.std.specs.Prelude.{◌≡◌};
ghost use Rattle.ds_grammar.specs.Reading.{Gives, first_value, value_at};
ghost use Rattle.ds_grammar.specs.Rows as rows;
ghost use Rattle.ds_grammar.specs.Instructions as instructions;

use ds_ast::{Arm, Operand, Ops, Scalar};
use ds_grammar::{Behind, Ending, ParseFault, Stage, items_take_tokens, runs_go_on};
use ds_lex::TokenKind;
use ds_parse_parts::{
    Rest, ending_last, is_metadata, is_punct, local, next_ending, punct, scalar_of, value,
};
use std::alloc::Global;

/// What the next token begins in such a list, if it begins anything: a comma, but not behind `#N`, or `#N`.
fn next_in_trail(stage: Stage, rest: &Rest) -> Option<Ending>
    ensures { result ≡ first_value
        (λ t. rows.ending_item (instructions.only_attrs stage) t.kind t.bytes) rest.now.left }
{
    next_ending(matches!(stage, Stage::Attrs), rest)
}

/// Whether items may stand.
fn are_items(stage: Stage) -> bool
    ensures { result ≡ instructions.are_items stage }
{
    matches!(stage, Stage::Items)
}

/// The ending that a token behind a comma begins, if it begins one.
fn ending_behind(kind: TokenKind, bytes: &[u8]) -> Option<Behind>
    ensures { result ≡ instructions.ending_behind kind bytes.now }
{
    match is_metadata(kind, bytes) {
        Some(true) => Some(Behind::Metadata),
        Some(false) => Some(Behind::Align),
        None => None,
    }
}

/// What a token behind a comma begins, an operand where one may stand or an ending.
fn operand_behind(may_be_operand: bool, kind: TokenKind, bytes: &[u8]) -> Option<Behind>
    ensures { result ≡ instructions.operand_behind may_be_operand kind bytes.now }
{
    let ty = if may_be_operand {
        scalar_of(kind, bytes)
    } else {
        None
    };
    match ty {
        Some(ty) => Some(Behind::Operand(ty)),
        None => ending_behind(kind, bytes),
    }
}

/// Whether there is no operand.
pub fn is_empty(operands: &Ops<Operand>) -> bool
    ensures { result ≡ instructions.is_empty operands.now }
{
    matches!(operands.as_slice(), [])
}

/// The operands behind what a comma was followed by, and what may still stand.
#[tactic(auto, using(crate::proofs::Never::never))]
fn operand_rest<'a>(
    alloc: Global,
    operands: Ops<Operand>,
    behind: Behind,
    rest: Rest<'a>,
) -> Result<((Ops<Operand>, Stage), Rest<'a>), ParseFault>
    ensures { Gives result (value_at (instructions.operand_rest operands behind) rest.entry) }
{
    match behind {
        Behind::Operand(ty) => {
            let (value, rest) = value(alloc, ty, rest)?;
            let mut operands = operands;
            operands.push(Operand { ty, value })?;
            Ok(((operands, Stage::Items), rest))
        }
        Behind::Arm => Err(rest.stopped()),
        Behind::Metadata => {
            let rest = ending_last(true, rest)?;
            Ok(((operands, Stage::Endings), rest))
        }
        Behind::Align => {
            let rest = ending_last(false, rest)?;
            Ok(((operands, Stage::Endings), rest))
        }
    }
}

/// One more operand or ending; where at most one operand may stand only a first one.
fn operands_more<'a>(
    alloc: Global,
    at_most_one: bool,
    trail: (Ops<Operand>, Stage),
    ending: Ending,
    rest: Rest<'a>,
) -> Result<((Ops<Operand>, Stage), Rest<'a>), ParseFault>
    ensures { Gives result (value_at (instructions.operands_more at_most_one trail ending) rest.entry) }
{
    let (operands, stage) = trail;
    match ending {
        Ending::Attr => Ok(((operands, Stage::Attrs), rest)),
        Ending::Comma => {
            let may_be_operand = are_items(stage) && (!at_most_one || is_empty(&operands));
            let read = match rest.peek() {
                Some((kind, bytes, _)) => operand_behind(may_be_operand, kind, bytes),
                None => None,
            };
            let (behind, rest) = rest.take(read)?;
            operand_rest(alloc, operands, behind, rest)
        }
    }
}

/// A comma and an operand any number of times or at most once, and then endings.
#[tactic(auto, unfolding(ds_grammar::specs::Instructions::operand_trail, ds_grammar::specs::Instructions::operands_from))]
pub fn operand_trail<'a>(
    alloc: Global,
    at_most_one: bool,
    rest: Rest<'a>,
) -> Result<(Ops<Operand>, Rest<'a>), ParseFault>
    ensures { Gives result (value_at (instructions.operand_trail at_most_one) rest.entry) }
{
    runs_go_on();
    items_take_tokens();
    let mut rest = rest;
    let mut operands = Ops::new(alloc);
    let mut stage = Stage::Items;
    while let Some(ending) = next_in_trail(stage, &rest) {
        let ((more, next), behind) = operands_more(
            alloc,
            at_most_one,
            (operands, stage),
            ending,
            rest.past(),
        )?;
        operands = more;
        stage = next;
        rest = behind;
    }
    Ok((operands, rest))
}

/// What a token behind a comma begins, an arm where one may stand or an ending.
fn arm_behind(may_be_arm: bool, kind: TokenKind, bytes: &[u8]) -> Option<Behind>
    ensures { result ≡ instructions.arm_behind may_be_arm kind bytes.now }
{
    if may_be_arm && is_punct(b"[", kind, bytes) {
        Some(Behind::Arm)
    } else {
        ending_behind(kind, bytes)
    }
}

/// An arm, behind its `[`.
#[tactic(auto, unfolding(ds_grammar::specs::Instructions::arm))]
pub fn arm<'a>(alloc: Global, ty: Scalar, rest: Rest<'a>) -> Result<(Arm, Rest<'a>), ParseFault>
    ensures { Gives result (value_at (instructions.arm ty) rest.entry) }
{
    let (value, rest) = value(alloc, ty, rest)?;
    let rest = punct(b",", rest)?;
    let (from, rest) = local(alloc, rest)?;
    let rest = punct(b"]", rest)?;
    Ok((Arm { value, from }, rest))
}

/// The arms behind what a comma was followed by, and what may still stand.
#[tactic(auto, using(crate::proofs::Never::never))]
fn arm_rest<'a>(
    alloc: Global,
    ty: Scalar,
    arms: Ops<Arm>,
    behind: Behind,
    rest: Rest<'a>,
) -> Result<((Ops<Arm>, Stage), Rest<'a>), ParseFault>
    ensures { Gives result (value_at (instructions.arm_rest ty arms behind) rest.entry) }
{
    match behind {
        Behind::Arm => {
            let (arm, rest) = arm(alloc, ty, rest)?;
            let mut arms = arms;
            arms.push(arm)?;
            Ok(((arms, Stage::Items), rest))
        }
        Behind::Operand(_) => Err(rest.stopped()),
        Behind::Metadata => {
            let rest = ending_last(true, rest)?;
            Ok(((arms, Stage::Endings), rest))
        }
        Behind::Align => {
            let rest = ending_last(false, rest)?;
            Ok(((arms, Stage::Endings), rest))
        }
    }
}

/// One more arm or ending.
fn arms_more<'a>(
    alloc: Global,
    ty: Scalar,
    trail: (Ops<Arm>, Stage),
    ending: Ending,
    rest: Rest<'a>,
) -> Result<((Ops<Arm>, Stage), Rest<'a>), ParseFault>
    ensures { Gives result (value_at (instructions.arms_more ty trail ending) rest.entry) }
{
    let (arms, stage) = trail;
    match ending {
        Ending::Attr => Ok(((arms, Stage::Attrs), rest)),
        Ending::Comma => {
            let may_be_arm = are_items(stage);
            let read = match rest.peek() {
                Some((kind, bytes, _)) => arm_behind(may_be_arm, kind, bytes),
                None => None,
            };
            let (behind, rest) = rest.take(read)?;
            arm_rest(alloc, ty, arms, behind, rest)
        }
    }
}

/// This arm, a comma and an arm any number of times, and then endings.
#[tactic(auto, unfolding(ds_grammar::specs::Instructions::arm_trail, ds_grammar::specs::Instructions::arms_from))]
pub fn arm_trail<'a>(
    alloc: Global,
    ty: Scalar,
    first: Arm,
    rest: Rest<'a>,
) -> Result<(Ops<Arm>, Rest<'a>), ParseFault>
    ensures { Gives result (value_at (instructions.arm_trail ty first) rest.entry) }
{
    runs_go_on();
    items_take_tokens();
    let mut rest = rest;
    let mut arms = Ops::new(alloc);
    arms.push(first)?;
    let mut stage = Stage::Items;
    while let Some(ending) = next_in_trail(stage, &rest) {
        let ((more, next), behind) = arms_more(alloc, ty, (arms, stage), ending, rest.past())?;
        arms = more;
        stage = next;
        rest = behind;
    }
    Ok((arms, rest))
}

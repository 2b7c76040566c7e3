//! The body of a definition.
ghost use Rattle.std.specs.Prelude.{◌≡◌, [], None, not, is_some, IfOk};
ghost use Rattle.ds_grammar.specs.declared.item.Begin.TheVariants as begin;
ghost use Rattle.ds_grammar.specs.Reading.{Gives, first_value, value_at};
ghost use Rattle.ds_grammar.specs.Reading as reading;
ghost use Rattle.ds_grammar.specs.Functions as functions;
ghost use Rattle.ds_parse_function.specs.Runs as runs;

use crate::names::{counted, numbered, risen, taken_mark, written_mark};
use crate::ops::{has_result, is_terminator};
use ds_ast::{Block, Instr, List, Name, Op};
use ds_grammar::{Begin, Head, Mark, ParseFault, items_take_tokens, marks_are_read, runs_go_on};
use ds_lex::TokenKind;
use ds_parse_instr::{head_of, row_of};
use ds_parse_parts::{Rest, name_of, punct, token_name};
use std::alloc::{AllocError, Global};
use std::marker::Model;

/// The body of a function so far.
#[derive(Drop)]
pub struct OpenBody {
    /// The blocks that have ended.
    blocks: List<Block>,
    /// The block that has not.
    open_block: Option<Block>,
    /// The counter of the function's names.
    counter: u64,
}

impl Model for OpenBody {
    ghost use Rattle.std.specs.Coded.{codes};
    ghost use Rattle.ds_ast.specs.contracts.module.Block as block;
    ghost use Rattle.ds_grammar.specs.Sort.{Body};

    ghost Value = { Body };

    ghost coded = { Prim.hlevel (codes, block.the_row.coded) };

    ghost view = { λ b. record { blocks = b.blocks; open_block = b.open_block; counter = b.counter } };
}

impl OpenBody {
    /// No blocks, where names are counted from this number on.
    pub fn new(alloc: Global, counter: u64) -> OpenBody
        ensures { result ≡ record { blocks = []; open_block = None; counter = counter } }
    {
        OpenBody {
            blocks: List::new(alloc),
            open_block: None,
            counter,
        }
    }

    /// What begins the next line, with its place, if there is one.
    fn next_line(&self, alloc: Global, rest: &Rest) -> Result<Option<(Begin, u32)>, AllocError>
        ensures { IfOk result
            (λ line. line ≡ first_value
            (λ t. functions.line_begin (not (is_some self.now.open_block)) t.kind t.bytes t.at) rest.now.left) }
    {
        match rest.peek() {
            Some((kind, bytes, at)) => {
                line_begin(alloc, self.open_block.is_none(), kind, bytes, at)
            }
            None => Ok(None),
        }
    }

    /// The counter in the block that is open, or behind the number that a new one takes.
    fn opened_counter(&self) -> u64
        ensures { result ≡ functions.opened_counter self.now.open_block self.now.counter }
    {
        match &self.open_block {
            Some(_) => self.counter,
            None => risen(self.counter),
        }
    }

    /// The place with the mark that a new block takes, where none is open.
    fn opened<'a>(&self, at: u32, rest: Rest<'a>) -> Rest<'a>
        ensures { result ≡ reading.marked_all rest.entry
            (functions.opened_marks self.now.open_block at self.now.counter) }
    {
        match &self.open_block {
            Some(_) => rest,
            None => rest.marked(taken_mark(at, self.counter)),
        }
    }

    /// This body behind a label, whose block is open now.
    fn labelled(self, alloc: Global, name: Name) -> OpenBody
        ensures { result ≡ record {
          blocks = self.blocks;
          open_block = Some
              (record { name = name; code = [] });
          counter = functions.counted name self.counter;
        } }
    {
        let OpenBody {
            blocks,
            counter,
            ..
        } = self;
        let counter = counted(&name, counter);
        OpenBody {
            blocks,
            open_block: Some(Block {
                name,
                code: List::new(alloc),
            }),
            counter,
        }
    }

    /// This body with one instruction more, which ends its block where it is a terminator.
    fn with_instruction(
        self,
        alloc: Global,
        counter: u64,
        instr: Instr,
    ) -> Result<OpenBody, AllocError>
        ensures { IfOk result (λ more. more ≡ functions.with_instruction self counter instr) }
    {
        let OpenBody {
            mut blocks,
            open_block,
            counter: before,
        } = self;
        let ends = is_terminator(&instr.op);
        let mut block = opened_block(alloc, open_block, before);
        block.code.push(instr)?;
        if ends {
            blocks.push(block)?;
            Ok(OpenBody {
                blocks,
                open_block: None,
                counter,
            })
        } else {
            Ok(OpenBody {
                blocks,
                open_block: Some(block),
                counter,
            })
        }
    }

    /// The blocks, of which there is one at least and each has ended.
    pub fn ended<'a>(self, rest: Rest<'a>) -> Result<(List<Block>, Rest<'a>), ParseFault>
        ensures { Gives result (value_at (functions.ended self.open_block self.blocks) rest.entry) }
    {
        let OpenBody {
            blocks,
            open_block,
            ..
        } = self;
        if open_block.is_some() || blocks.is_empty() {
            Err(rest.stopped())
        } else {
            Ok((blocks, rest))
        }
    }
}

/// The block that is open, or a new one that takes this number.
fn opened_block(alloc: Global, open_block: Option<Block>, counter: u64) -> Block
    ensures { result ≡ functions.opened open_block counter }
{
    match open_block {
        Some(block) => block,
        None => Block {
            name: numbered(counter),
            code: List::new(alloc),
        },
    }
}

/// The name of a label, which stands before its colon.
fn label_name(alloc: Global, bytes: &[u8]) -> Result<Option<Name>, AllocError>
    ensures { IfOk result (λ name. name ≡ functions.label_name bytes.now) }
{
    name_of(alloc, &bytes[..bytes.len().saturating_sub(1)])
}

/// What begins a line, with its place, if a token does: a label where no block is open, the name of a result, or an
/// instruction.
fn line_begin(
    alloc: Global,
    may_be_label: bool,
    kind: TokenKind,
    bytes: &[u8],
    at: u32,
) -> Result<Option<(Begin, u32)>, AllocError>
    ensures { IfOk result (λ line. line ≡ functions.line_begin may_be_label kind bytes.now at) }
{
    match kind {
        TokenKind::Label => {
            if may_be_label {
                match label_name(alloc, bytes)? {
                    Some(name) => Ok(Some((Begin::Label(name), at))),
                    None => Ok(None),
                }
            } else {
                Ok(None)
            }
        }
        TokenKind::Local => match token_name(alloc, bytes)? {
            Some(name) => Ok(Some((Begin::Named(name), at))),
            None => Ok(None),
        },
        _ => match head_of(false, kind, bytes) {
            Some(head) => Ok(Some((Begin::Head(head), at))),
            None => Ok(None),
        },
    }
}

/// An instruction whose result is not named: it takes this number, where it has a result.
fn unnamed(number: u64, op: Op) -> Instr
    ensures { result ≡ functions.unnamed number op }
{
    let result = if has_result(&op) {
        Some(numbered(number))
    } else {
        None
    };
    Instr { result, op }
}

/// The counter behind such an instruction.
fn unnamed_counter(number: u64, op: &Op) -> u64
    ensures { result ≡ functions.unnamed_counter number op.now }
{
    if has_result(op) {
        risen(number)
    } else {
        number
    }
}

/// `=` and a row, behind the name of a result.
#[tactic(auto, unfolding(crate::specs::Runs::named_rest))]
fn named_rest<'a>(
    alloc: Global,
    body: OpenBody,
    name: Name,
    counter: u64,
    rest: Rest<'a>,
) -> Result<(OpenBody, Rest<'a>), ParseFault>
    ensures { Gives result (value_at (runs.named_rest body name counter) rest.entry) }
{
    let rest = punct(b"=", rest)?;
    let read = match rest.peek() {
        Some((kind, bytes, _)) => head_of(true, kind, bytes),
        None => None,
    };
    let (head, rest) = rest.take(read)?;
    let (op, rest) = row_of(alloc, true, None, head, rest)?;
    let counter = counted(&name, counter);
    let instr = Instr {
        result: Some(name),
        op,
    };
    let body = body.with_instruction(alloc, counter, instr)?;
    Ok((body, rest))
}

/// The rest of a row whose result is not named, which takes this number with this mark where there is one.
#[tactic(auto, unfolding(crate::specs::Runs::unnamed_rest))]
fn unnamed_rest<'a>(
    alloc: Global,
    body: OpenBody,
    head: Head,
    mark: Mark,
    counter: u64,
    rest: Rest<'a>,
) -> Result<(OpenBody, Rest<'a>), ParseFault>
    ensures { Gives result (value_at (runs.unnamed_rest body head mark counter) rest.entry) }
{
    let (op, rest) = row_of(alloc, false, Some(mark), head, rest)?;
    let behind = unnamed_counter(counter, &op);
    let body = body.with_instruction(alloc, behind, unnamed(counter, op))?;
    Ok((body, rest))
}

/// A line that begins with the name of a result.
#[tactic(auto, unfolding(crate::specs::Runs::named_rest))]
fn named_line<'a>(
    alloc: Global,
    body: OpenBody,
    name: Name,
    at: u32,
    rest: Rest<'a>,
) -> Result<(OpenBody, Rest<'a>), ParseFault>
    ensures { Gives result (value_at (functions.line_rest body (begin.Named name, at)) rest.entry) }
{
    marks_are_read();
    let counter = body.opened_counter();
    let rest = body.opened(at, rest);
    let rest = rest.marked(written_mark(at, &name, counter));
    named_rest(alloc, body, name, counter, rest)
}

/// A line that begins with an instruction whose result is not named.
#[tactic(auto, unfolding(crate::specs::Runs::unnamed_rest))]
fn unnamed_line<'a>(
    alloc: Global,
    body: OpenBody,
    head: Head,
    at: u32,
    rest: Rest<'a>,
) -> Result<(OpenBody, Rest<'a>), ParseFault>
    ensures { Gives result (value_at (functions.line_rest body (begin.Head head, at)) rest.entry) }
{
    marks_are_read();
    let counter = body.opened_counter();
    let rest = body.opened(at, rest);
    unnamed_rest(alloc, body, head, taken_mark(at, counter), counter, rest)
}

/// The rest of a line.
fn line_rest<'a>(
    alloc: Global,
    body: OpenBody,
    line: (Begin, u32),
    rest: Rest<'a>,
) -> Result<(OpenBody, Rest<'a>), ParseFault>
    ensures { Gives result (value_at (functions.line_rest body line) rest.entry) }
{
    let (begin, at) = line;
    match begin {
        Begin::Label(name) => {
            let rest = rest.marked(written_mark(at, &name, body.counter));
            Ok((body.labelled(alloc, name), rest))
        }
        Begin::Named(name) => named_line(alloc, body, name, at, rest),
        Begin::Head(head) => unnamed_line(alloc, body, head, at, rest),
    }
}

/// Lines of a body, where names are counted from this number on.
#[tactic(auto, unfolding(ds_grammar::specs::Functions::body_from, crate::specs::Runs::lines_from))]
pub fn body_from<'a>(
    alloc: Global,
    counter: u64,
    rest: Rest<'a>,
) -> Result<(OpenBody, Rest<'a>), ParseFault>
    ensures { Gives result (value_at (functions.body_from counter) rest.entry) }
{
    runs_go_on();
    items_take_tokens();
    let mut rest = rest;
    let mut body = OpenBody::new(alloc, counter);
    while let Some(line) = body.next_line(alloc, &rest)? {
        let (more, behind) = line_rest(alloc, body, line, rest.past())?;
        body = more;
        rest = behind;
    }
    Ok((body, rest))
}

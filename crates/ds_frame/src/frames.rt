//! The cells and frames of a thread.

ghost use Rattle.std.specs.Prelude.{◌≡◌, ◌+◌, ◌*◌, ◌/◌, ◌^◌, ◌<◌, ◌≤◌, length, suc, IfOk, IfSome, slice_get};
ghost use Rattle.std.specs.Prelude.{◌&&◌, nat_le, nat_lt, slice_index, option_copied, OnSome};
ghost use Rattle.ds_ast.specs.Bounds.{width};
ghost use Rattle.ds_shape.specs.Sizes.{rounded};
ghost use Rattle.ds_meaning.specs.Control.{returned_bits};
ghost use Rattle.ds_code.specs.Machine.{cells_in};
ghost use Rattle.ds_code.specs.CodeMeaning.{given_back};
ghost use Rattle.ds_code.specs.CodeProgram.{first_of};

use crate::cells::{cut, held, read_all, write, write_all, zero_cells};
use crate::moved::Moved;
use crate::run::Run;
use ds_ast::Scalar;
use ds_code::{Code, CodeInstr, Copying, Edge, Input, Source, Waiting};
use ds_plain::{Place, Request, Stop, Trap, TrapKind};
use std::alloc::{AllocError, Global};
use std::marker::Model;

/// How many cells a thread has, in all its frames.
const CELLS: usize = 65_536;

/// How many frames a thread may have.
const FRAMES: usize = 1_024;

/// How many words the stack of a thread has.
const STACK_WORDS: u128 = 4_096;

/// The first address of the stacks.
const STACKS_START: u64 = 0x10_0000;

/// How many bytes the stack of a thread has.
const STACK_BYTES: u64 = 0x8000;

/// How many cells a frame of the function has.
fn cells_in(code: &Code, function: u32) -> u32
    ensures { result ≡ cells_in (slice_get code.now.functions function) }
{
    match code.function(function) {
        None => 0,
        Some(found) => found.cells,
    }
}

/// The type of the first parameter of the function, if it has any.
fn first_of(code: &Code, function: u32) -> Option<Scalar>
    ensures { result ≡ first_of (slice_get code.now.functions function) }
{
    match code.function(function) {
        None => None,
        Some(found) => found.first,
    }
}

/// How many words hold so many elements of so many bytes.
fn words_for(size: u64, count: u64) -> u128
    ensures value { result ≡ rounded (count * size) 8 / 8 }
    ensures small { result < 2 ^ 126 }
{
    let bytes = count as u128 * size as u128;
    let part = if bytes % 8 == 0 { 0 } else { 1 };
    bytes / 8 + part
}

/// The bits that a thread's function returned, where it returned an `i32`.
fn returned_bits(value: Option<(Scalar, u64)>) -> Option<u32>
    requires { IfSome value (λ v. v.1 < 2 ^ width v.0) }
    ensures { result ≡ returned_bits value }
{
    match value {
        None => None,
        Some((ty, number)) => match ty {
            Scalar::I1 => None,
            Scalar::I8 => None,
            Scalar::I16 => None,
            Scalar::I32 => Some(number as u32),
            Scalar::I64 => None,
            Scalar::Ptr => None,
        },
    }
}

/// A cell of the frame that begins at a cell takes what a call gives, where it gives anything.
fn give_back(base: u32, to: Option<u32>, value: Option<(Scalar, u64)>, cells: &mut [u64])
    ensures { cells.new ≡ given_back base to value cells.old }
{
    if let Some((_, number)) = value {
        write(base, to, number, cells);
    }
}

/// The cells and frames of a thread: the frame on top, the cells of all frames, and the frames that wait.
#[derive(Drop)]
pub struct Frames {
    function: u32,
    at: usize,
    base: u32,
    taken: u32,
    cells: Vec<u64>,
    below: Vec<Waiting>,
}

impl Model for Frames {
    ghost use Rattle.std.specs.Prelude.{◌≤◌, reverse, vec_capacity};
    ghost use Rattle.ds_code.specs.Machine.{Machine};

    ghost Value = { Machine };

    ghost view = { λ f. record {
      function = f.function;
      at = f.at;
      base = f.base;
      taken = f.taken;
      cells = f.cells.items;
      below = reverse f.below.items;
    } };

    ghost invariant = { λ f. 1024 ≤ vec_capacity f.below };
}

impl Frames {
    ghost use Rattle.ds_code.specs.Machine.{at_hand, top, place_of, value, input, copied};
    ghost use Rattle.ds_code.specs.CodeMeaning.{on, results, pair_results, traps, allocates, branches, waiting, calls};
    ghost use Rattle.ds_code.specs.CodeMeaning.{returned, returns};
    ghost use Rattle.ds_code.specs.CodeProgram.{start, fits};
    ghost use Rattle.ds_code.specs.Rows.{FitsRow};
    ghost use Rattle.ds_frame.specs.Steps.{nowhere, moved_by, next_of};
    ghost use Rattle.ds_frame.specs.declared.moved.Moved.TheVariants as moves;

    /// No frames, and no cell that holds anything but 0.
    pub(crate) fn new(alloc: Global) -> Result<Frames, AllocError>
        ensures { IfOk result (λ frames. frames ≡ nowhere) }
    {
        Ok(Frames {
            function: 0,
            at: 0,
            base: 0,
            taken: 0,
            cells: zero_cells(alloc, CELLS)?,
            below: Vec::with_capacity(alloc, FRAMES)?,
        })
    }

    /// Enters the first function, with its argument.
    pub(crate) fn start(&mut self, run: &Run, function: u32, argument: u64)
        requires { self.old ≡ nowhere }
        ensures { self.new ≡ start run.now.code function argument }
    {
        self.function = function;
        if let Some(ty) = first_of(run.code, function) {
            write(0, Some(0), cut(ty, argument), self.cells.as_mut_slice());
        }
    }

    /// Whether the first frame of the function has no more cells than there are.
    pub(crate) fn fits(&self, run: &Run, function: u32) -> bool
        ensures { result ≡ fits run.now.code function }
    {
        cells_in(run.code, function) as usize <= CELLS
    }

    /// The instruction at hand.
    pub(crate) fn at_hand<'a>(&self, run: &Run<'a>) -> Option<&'a CodeInstr>
        ensures value { option_copied result ≡ at_hand run.now self.now }
        ensures fits { IfSome (option_copied result) (λ i. FitsRow run.now.code.row i) }
        ensures within { OnSome result (self.now.at + 1 < 2 ^ 64) }
    {
        run.code.instruction(self.function, self.at)
    }

    /// The value of a type that stands at a source.
    pub(crate) fn value(&self, ty: Scalar, source: Source) -> u64
        ensures value { result ≡ value self.now ty source }
        ensures below { result < 2 ^ width ty }
    {
        held(self.base, self.cells.as_slice(), ty, source)
    }

    /// The value that an instruction takes.
    pub(crate) fn input(&self, of: Input) -> u64
        ensures value { result ≡ input self.now of }
        ensures below { result < 2 ^ width of.ty }
    {
        self.value(of.ty, of.from)
    }

    /// What a cell holds.
    pub(crate) fn cell(&self, cell: u32) -> u64
        ensures { result ≡ slice_index self.now.cells (self.now.base + cell) }
    {
        self.cells
            .get(self.base as usize + cell as usize)
            .copied()
            .unwrap_or(0)
    }

    /// The place of an instruction.
    pub(crate) fn place(&self, instr: &CodeInstr) -> Place
        ensures { result ≡ place_of self.now instr.now }
    {
        Place {
            function: self.function,
            instruction: instr.origin,
        }
    }

    /// Asks, at an instruction.
    pub(crate) fn asks(&self, instr: &CodeInstr, request: Request) -> Moved
        ensures { result ≡ moves.Asks (place_of self.now instr.now) request }
    {
        Moved::Asks(self.place(instr), request)
    }

    /// Asks to stop, at an instruction that can't be carried out.
    pub(crate) fn trap(&self, instr: &CodeInstr, kind: TrapKind) -> Moved
        ensures { result ≡ moved_by (traps self.now instr.now kind) }
    {
        let place = self.place(instr);
        Moved::Asks(place, Request::Stop(Stop::Trap(Trap { place, kind })))
    }

    /// Goes on behind the instruction at hand.
    pub(crate) fn go_on(&mut self)
        requires { self.old.at + 1 < 2 ^ 64 }
        ensures { self.new ≡ on self.old }
    {
        self.at += 1;
    }

    /// Goes on behind the instruction at hand, with its result.
    pub(crate) fn give(&mut self, to: Option<u32>, value: u64)
        requires { self.old.at + 1 < 2 ^ 64 }
        ensures { self.new ≡ results self.old to value }
    {
        self.at += 1;
        write(self.base, to, value, self.cells.as_mut_slice());
    }

    /// Goes on behind the instruction at hand, with the two values of its result.
    pub(crate) fn give_pair(&mut self, to: Option<u32>, second: Option<u32>, a: u64, b: u64)
        requires { self.old.at + 1 < 2 ^ 64 }
        ensures { self.new ≡ pair_results self.old to second a b }
    {
        self.at += 1;
        write(self.base, to, a, self.cells.as_mut_slice());
        write(self.base, second, b, self.cells.as_mut_slice());
    }

    /// Takes words of the stack for so many elements of so many bytes.
    pub(crate) fn allocate(&mut self, run: &Run, instr: &CodeInstr, size: u64, count: u64) -> Moved
        requires { self.old.at + 1 < 2 ^ 64 }
        ensures moved { result ≡ moved_by (allocates run.now self.old instr.now (rounded (count * size) 8 / 8)) }
        ensures next { self.new ≡ next_of self.old
            (allocates run.now self.old instr.now (rounded (count * size) 8 / 8)) }
    {
        let words = words_for(size, count);
        if u128::from(self.taken) + words > STACK_WORDS {
            return self.trap(instr, TrapKind::StackLimit);
        }
        let first = STACKS_START + u64::from(run.thread) * STACK_BYTES;
        let address = first + 8 * u64::from(self.taken);
        self.taken += words as u32;
        self.give(instr.to, address);
        Moved::Goes
    }

    /// Whether there is room for a frame of so many cells above the one on top.
    fn has_room(&self, run: &Run, cells: u32) -> bool
        ensures { result ≡ (nat_le (top run.now self.now + cells) 65536 && nat_lt (suc (length self.now.below)) 1024) }
    {
        let top = self.base as usize + cells_in(run.code, self.function) as usize;
        top + cells as usize <= CELLS && self.below.len() + 1 < FRAMES
    }

    /// The first cell above the frame on top.
    fn top(&self, run: &Run) -> u32
        requires { top run.now self.now < 2 ^ 32 }
        ensures { result ≡ top run.now self.now }
    {
        self.base + cells_in(run.code, self.function)
    }

    /// The frame on top waits behind a call.
    fn wait(&mut self, instr: &CodeInstr)
        requires within { self.old.at + 1 < 2 ^ 64 }
        requires room { suc (length self.old.below) < 1024 }
        ensures { self.new ≡ record self.old { below = waiting self.old instr.now } }
    {
        let waiting = Waiting {
            function: self.function,
            at: self.at + 1,
            base: self.base,
            taken: self.taken,
            to: instr.to,
        };
        match self.below.push(waiting) {
            Ok(()) => {},
            Err(_) => unreachable!(),
        }
    }

    /// Cells of the frame that begins at a cell take their values from the frame on top, all at once.
    fn copy(&mut self, base: u32, copies: &[Copying], row: &mut [u64])
        requires { length copies.now ≤ length row.old }
        ensures { self.new ≡ record self.old { cells = copied self.old base copies.now } }
    {
        read_all(self.base, self.cells.as_slice(), copies, row);
        write_all(base, copies, row, self.cells.as_mut_slice());
    }

    /// Goes along an edge, on which cells take their values all at once.
    pub(crate) fn follow(&mut self, edge: &Edge, row: &mut [u64])
        requires { length edge.now.copies ≤ length row.old }
        ensures { self.new ≡ next_of self.old (branches self.old (Some edge.now)) }
    {
        self.copy(self.base, edge.copies.as_slice(), row);
        self.at = edge.target as usize;
    }

    /// Calls a function, whose frame is put above this one.
    pub(crate) fn call(
        &mut self,
        run: &Run,
        instr: &CodeInstr,
        function: u32,
        arguments: &[Copying],
        row: &mut [u64],
    ) -> Moved
        requires within { self.old.at + 1 < 2 ^ 64 }
        requires row { length arguments.now ≤ length row.old }
        ensures moved { result ≡ moved_by
            (calls run.now self.old instr.now function arguments.now (slice_get run.now.code.functions function)) }
        ensures next { self.new ≡ next_of self.old
            (calls run.now self.old instr.now function arguments.now (slice_get run.now.code.functions function)) }
    {
        let Some(callee) = run.code.function(function) else {
            return Moved::Stuck;
        };
        if !self.has_room(run, callee.cells) {
            return self.trap(instr, TrapKind::StackLimit);
        }
        let top = self.top(run);
        self.copy(top, arguments, row);
        self.wait(instr);
        self.function = function;
        self.at = 0;
        self.base = top;
        Moved::Goes
    }

    /// The value that is returned, with its type.
    pub(crate) fn returned(&self, value: Option<Input>) -> Option<(Scalar, u64)>
        ensures value { result ≡ returned self.now value }
        ensures below { IfSome result (λ v. v.1 < 2 ^ width v.0) }
    {
        match value {
            None => None,
            Some(input) => Some((input.ty, self.input(input))),
        }
    }

    /// Goes back to the frame that waits, whose call gives the value.
    pub(crate) fn give_back(&mut self, instr: &CodeInstr, value: Option<(Scalar, u64)>) -> Moved
        requires { IfSome value (λ v. v.1 < 2 ^ width v.0) }
        ensures moved { result ≡ moved_by (returns self.old instr.now value self.old.below) }
        ensures next { self.new ≡ next_of self.old (returns self.old instr.now value self.old.below) }
    {
        match self.below.pop() {
            None => self.asks(instr, Request::Stop(Stop::Returned(returned_bits(value)))),
            Some(frame) => {
                self.function = frame.function;
                self.at = frame.at;
                self.base = frame.base;
                self.taken = frame.taken;
                give_back(frame.base, frame.to, value, self.cells.as_mut_slice());
                Moved::Goes
            },
        }
    }
}

//! The instructions of a thread.

ghost use Rattle.std.specs.Prelude.{◌≡◌, ◌+◌, ◌*◌, ◌%◌, ◌^◌, ◌<◌, ◌≤◌, ◌&&◌, ◌||◌, ◌==◌, not, length, All, IfOk};
ghost use Rattle.std.specs.Prelude.{if◌then◌else◌, option_copied};
ghost use Rattle.ds_ast.specs.declared.ty.Scalar.TheVariants.{I1, Ptr};
ghost use Rattle.ds_map.specs.Blocks.{is_marked};
ghost use Rattle.ds_map.specs.Regions.{heap, lies_in};
ghost use Rattle.ds_code.specs.Machine.{value};
ghost use Rattle.ds_code.specs.Rows.{edges_of, FitsRow};
ghost use Rattle.ds_code.specs.CodeMeaning.{bytes_added, computed, computes, judged, type_at, address_in, requested};
ghost use Rattle.ds_code.specs.CodeMeaning.{accessed, accesses, asks, case_in, chosen, branches};
ghost use Rattle.ds_code.specs.CodeMeaning.{act, step};
ghost use Rattle.ds_code.specs.declared.ops.ExternalOp.TheVariants as externals;
ghost use Rattle.ds_frame.specs.Steps.{moved_by, next_of, answered_by, answered_at};

use crate::compute::{behind, compared, converted, operated, sign_extended, truth};
use crate::frames::Frames;
use crate::memory::{is_in_heap, is_marked, judged, part};
use crate::moved::Moved;
use crate::run::Run;
use ds_arith::ArithFault;
use ds_ast::Scalar;
use ds_code::{
    BranchOp, Case, CodeInstr, CodeOp, Edge, ExternalOp, Input, MemoryOp, Source, Stride, ValueOp,
};
use ds_map::Limits;
use ds_plain::{Access, Request, TrapKind};

/// The most bytes of a block that `malloc` gives.
const MOST_BYTES: u64 = 4_095;

/// The type of what is accessed.
fn type_at(op: &MemoryOp) -> Scalar
    ensures { result ≡ type_at op.now }
{
    match op {
        MemoryOp::Load { ty, .. } => *ty,
        MemoryOp::Store { ty, .. } => *ty,
        MemoryOp::Rmw { ty, .. } => *ty,
        MemoryOp::Cmpxchg { ty, .. } => *ty,
    }
}

/// Where the address of what is accessed stands.
fn address_in(op: &MemoryOp) -> Source
    ensures { result ≡ address_in op.now }
{
    match op {
        MemoryOp::Load { at, .. } => *at,
        MemoryOp::Store { at, .. } => *at,
        MemoryOp::Rmw { at, .. } => *at,
        MemoryOp::Cmpxchg { at, .. } => *at,
    }
}

/// Whether an address is one of the heap and a multiple of 8.
fn may_be_block(limits: Limits, address: u64) -> bool
    ensures { result ≡ (lies_in (heap limits) address && address % 8 == 0) }
{
    is_in_heap(limits, address) && address % 8 == 0
}

/// Whether a note of a value asks nothing.
fn is_idle(limits: Limits, value: u64) -> bool
    ensures { result ≡ (is_marked value || not (lies_in (heap limits) value)) }
{
    is_marked(value) || !is_in_heap(limits, value)
}

/// The edge of the first case of a number, or else the other one.
fn case_in(number: u64, cases: &[Case], other: u32) -> u32
    ensures { result ≡ case_in number cases.now other }
{
    for case in cases {
        if case.number == number {
            return case.edge;
        }
    }
    other
}

impl Frames {
    /// The address behind another by what indices add to it.
    fn address(&self, base: u64, strides: &[Stride]) -> u64
        ensures { result ≡ (base + bytes_added self.now strides.now) % 2 ^ 64 }
    {
        let mut address = base;
        for stride in strides {
            let index = sign_extended(stride.index.ty, Scalar::I64, self.input(stride.index));
            address = behind(address, stride.fixed, stride.scale, index);
        }
        address
    }

    /// The result of an instruction that computes.
    fn computed(&self, op: &ValueOp) -> Result<u64, ArithFault>
        ensures { result ≡ computed self.now op.now }
    {
        match op {
            ValueOp::Bin { op, ty, a, b } => operated(
                *op,
                *ty,
                self.value(*ty, *a),
                self.value(*ty, *b),
            ),
            ValueOp::Icmp { cond, ty, a, b } => {
                Ok(compared(*cond, *ty, self.value(*ty, *a), self.value(*ty, *b)))
            },
            ValueOp::Select { c, ty, a, b } => Ok(self.selected(*c, *ty, *a, *b)),
            ValueOp::Cast { op, from, a, to } => Ok(converted(
                *op,
                *from,
                *to,
                self.value(*from, *a),
            )),
            ValueOp::Gep { base, strides } => {
                Ok(self.address(self.value(Scalar::Ptr, *base), strides.as_slice()))
            },
            ValueOp::Extract { cell } => Ok(self.cell(*cell)),
        }
    }

    /// The first of two values of a type where a value is true, and else the second.
    fn selected(&self, c: Source, ty: Scalar, a: Source, b: Source) -> u64
        ensures { result ≡ (if value self.now I1 c == 0 then value self.now ty b else value self.now ty a) }
    {
        if self.value(Scalar::I1, c) == 0 {
            self.value(ty, b)
        } else {
            self.value(ty, a)
        }
    }

    /// Computes, and goes on with the result.
    fn compute(&mut self, instr: &CodeInstr, op: &ValueOp) -> Moved
        requires { self.old.at + 1 < 2 ^ 64 }
        ensures moved { result ≡ moved_by (computes self.old instr.now (computed self.old op.now)) }
        ensures next { self.new ≡ next_of self.old (computes self.old instr.now (computed self.old op.now)) }
    {
        match self.computed(op) {
            Ok(number) => {
                self.give(instr.to, number);
                Moved::Goes
            },
            Err(ArithFault::DivZero) => self.trap(instr, TrapKind::DivZero),
            Err(ArithFault::DivOverflow) => self.trap(instr, TrapKind::DivOverflow),
        }
    }

    // MEMORY

    /// The part of a word that is accessed, or the trap of its address.
    fn located(&self, run: &Run, op: &MemoryOp) -> Result<Access, TrapKind>
        ensures exact { result ≡ judged run.now.lim (type_at op.now) (value self.now Ptr (address_in op.now)) }
        ensures part { IfOk result (λ access. (access.shift < 64) × (access.bits ≤ 64)) }
    {
        judged(
            run.limits,
            type_at(op),
            self.value(Scalar::Ptr, address_in(op)),
        )
    }

    /// What is asked of that part.
    fn requested(&self, access: Access, op: &MemoryOp) -> Request
        ensures { result ≡ requested self.now access op.now }
    {
        match op {
            MemoryOp::Load { .. } => Request::Load(access),
            MemoryOp::Store { ty, value, .. } => Request::Store(access, self.value(*ty, *value)),
            MemoryOp::Rmw { op, ty, value, .. } => Request::Rmw(
                access,
                *op,
                self.value(*ty, *value),
            ),
            MemoryOp::Cmpxchg {
                ty,
                expected,
                new,
                ..
            } => Request::Cas {
                access,
                expected: self.value(*ty, *expected),
                new: self.value(*ty, *new),
            },
        }
    }

    /// Asks for an access of memory.
    fn access(&self, run: &Run, instr: &CodeInstr, op: &MemoryOp) -> Moved
        ensures moved { result ≡ moved_by (accesses run.now self.now instr.now op.now) }
        ensures stays { next_of self.now (accesses run.now self.now instr.now op.now) ≡ self.now }
    {
        match self.located(run, op) {
            Err(kind) => self.trap(instr, kind),
            Ok(access) => self.asks(instr, self.requested(access, op)),
        }
    }

    /// Goes on once the whole word that was accessed is known.
    fn accessed(&mut self, instr: &CodeInstr, access: Access, op: &MemoryOp, word: u64)
        requires within { self.old.at + 1 < 2 ^ 64 }
        requires part { (access.shift < 64) × (access.bits ≤ 64) }
        ensures { self.new ≡ accessed self.old instr.now access op.now word }
    {
        match op {
            MemoryOp::Load { .. } => self.give(instr.to, part(access, word)),
            MemoryOp::Store { .. } => self.go_on(),
            MemoryOp::Rmw { .. } => self.give(instr.to, part(access, word)),
            MemoryOp::Cmpxchg {
                ty,
                expected,
                exchanged,
                ..
            } => {
                let old = part(access, word);
                let same = truth(old == self.value(*ty, *expected));
                self.give_pair(instr.to, *exchanged, old, same);
            },
        }
    }

    /// Takes the answer to an access of memory.
    fn take_word(&mut self, run: &Run, instr: &CodeInstr, op: &MemoryOp, word: u64)
        requires { self.old.at + 1 < 2 ^ 64 }
        ensures { self.new ≡ answered_by self.old (accesses run.now self.old instr.now op.now) word }
    {
        if let Ok(access) = self.located(run, op) {
            self.accessed(instr, access, op, word);
        }
    }

    // EXTERNALS

    /// Calls `malloc`.
    fn malloc(&mut self, run: &Run, instr: &CodeInstr, bytes: Input) -> Moved
        requires { self.old.at + 1 < 2 ^ 64 }
        ensures moved { result ≡ moved_by (asks run.now self.old instr.now (externals.Malloc bytes)) }
        ensures next { self.new ≡ next_of self.old (asks run.now self.old instr.now (externals.Malloc bytes)) }
    {
        let bytes = self.input(bytes);
        if bytes > MOST_BYTES {
            self.give(instr.to, 0);
            return Moved::Goes;
        }
        self.asks(instr, Request::Malloc(bytes))
    }

    /// Calls `free`.
    fn free(&mut self, run: &Run, instr: &CodeInstr, at: Input) -> Moved
        requires { self.old.at + 1 < 2 ^ 64 }
        ensures moved { result ≡ moved_by (asks run.now self.old instr.now (externals.Free at)) }
        ensures next { self.new ≡ next_of self.old (asks run.now self.old instr.now (externals.Free at)) }
    {
        let address = self.input(at);
        if address == 0 {
            self.go_on();
            return Moved::Goes;
        }
        if is_marked(address) {
            return self.trap(instr, TrapKind::MarkedFree { address });
        }
        if may_be_block(run.limits, address) {
            return self.asks(instr, Request::Free(address));
        }
        self.trap(instr, TrapKind::BadFree { address })
    }

    /// Calls `pthread_create`.
    fn spawn(
        &self,
        run: &Run,
        instr: &CodeInstr,
        at: Input,
        function: u32,
        argument: Input,
    ) -> Moved
        ensures moved { result ≡ moved_by (asks run.now self.now instr.now (externals.Spawn at function argument)) }
        ensures stays { next_of self.now (asks run.now self.now instr.now (externals.Spawn at function argument))
            ≡ self.now }
    {
        match judged(run.limits, Scalar::Ptr, self.input(at)) {
            Err(kind) => self.trap(instr, kind),
            Ok(access) => {
                let loc = access.loc;
                let arg = self.input(argument);
                self.asks(instr, Request::Spawn { loc, function, arg })
            },
        }
    }

    /// Notes a value at an address.
    fn note(&mut self, run: &Run, instr: &CodeInstr, at: Source, value: Source) -> Moved
        requires { self.old.at + 1 < 2 ^ 64 }
        ensures moved { result ≡ moved_by (asks run.now self.old instr.now (externals.Note at value)) }
        ensures next { self.new ≡ next_of self.old (asks run.now self.old instr.now (externals.Note at value)) }
    {
        match judged(run.limits, Scalar::Ptr, self.value(Scalar::Ptr, at)) {
            Err(kind) => self.trap(instr, kind),
            Ok(access) => {
                let value = self.value(Scalar::Ptr, value);
                if is_idle(run.limits, value) {
                    self.go_on();
                    return Moved::Goes;
                }
                let loc = access.loc;
                self.asks(instr, Request::Note { loc, value })
            },
        }
    }

    /// Calls a function that the module only declares.
    fn ask(&mut self, run: &Run, instr: &CodeInstr, op: &ExternalOp) -> Moved
        requires { self.old.at + 1 < 2 ^ 64 }
        ensures moved { result ≡ moved_by (asks run.now self.old instr.now op.now) }
        ensures next { self.new ≡ next_of self.old (asks run.now self.old instr.now op.now) }
    {
        match op {
            ExternalOp::Malloc { bytes } => self.malloc(run, instr, *bytes),
            ExternalOp::Free { at } => self.free(run, instr, *at),
            ExternalOp::Print { value } => self.asks(instr, Request::Print(self.input(*value))),
            ExternalOp::Spawn {
                at,
                function,
                argument,
            } => self.spawn(run, instr, *at, *function, *argument),
            ExternalOp::Join { thread } => self.asks(instr, Request::Join(self.input(*thread))),
            ExternalOp::Note { at, value } => self.note(run, instr, *at, *value),
        }
    }

    /// Takes the answer to a `free`.
    fn take_free(&mut self, run: &Run, instr: &CodeInstr, at: Input, answer: u64)
        requires { self.old.at + 1 < 2 ^ 64 }
        ensures { self.new ≡ answered_by self.old (asks run.now self.old instr.now (externals.Free at)) answer }
    {
        let address = self.input(at);
        if address == 0 || is_marked(address) {
            return;
        }
        if may_be_block(run.limits, address) {
            self.go_on();
        }
    }

    /// Takes the answer to a `pthread_create`.
    fn take_spawn(
        &mut self,
        run: &Run,
        instr: &CodeInstr,
        at: Input,
        function: u32,
        argument: Input,
        answer: u64,
    )
        requires { self.old.at + 1 < 2 ^ 64 }
        ensures { self.new ≡ answered_by self.old
            (asks run.now self.old instr.now (externals.Spawn at function argument)) answer }
    {
        if let Ok(_) = judged(run.limits, Scalar::Ptr, self.input(at)) {
            self.give(instr.to, answer);
        }
    }

    /// Takes the answer to a note.
    fn take_note(&mut self, run: &Run, instr: &CodeInstr, at: Source, value: Source, answer: u64)
        requires { self.old.at + 1 < 2 ^ 64 }
        ensures { self.new ≡ answered_by self.old (asks run.now self.old instr.now (externals.Note at value)) answer }
    {
        if let Ok(_) = judged(run.limits, Scalar::Ptr, self.value(Scalar::Ptr, at)) {
            if !is_idle(run.limits, self.value(Scalar::Ptr, value)) {
                self.go_on();
            }
        }
    }

    /// Takes the answer to a call of a function that the module only declares.
    fn take_answer(&mut self, run: &Run, instr: &CodeInstr, op: &ExternalOp, answer: u64)
        requires { self.old.at + 1 < 2 ^ 64 }
        ensures { self.new ≡ answered_by self.old (asks run.now self.old instr.now op.now) answer }
    {
        match op {
            ExternalOp::Malloc { bytes } => {
                if self.input(*bytes) <= MOST_BYTES {
                    self.give(instr.to, answer);
                }
            },
            ExternalOp::Free { at } => self.take_free(run, instr, *at, answer),
            ExternalOp::Print { .. } => self.go_on(),
            ExternalOp::Spawn {
                at,
                function,
                argument,
            } => self.take_spawn(run, instr, *at, *function, *argument, answer),
            ExternalOp::Join { .. } => self.give(instr.to, answer),
            ExternalOp::Note { at, value } => self.take_note(run, instr, *at, *value, answer),
        }
    }

    // BRANCHES

    /// The edge that is taken.
    fn chosen<'a>(&self, op: &'a BranchOp) -> Option<&'a Edge>
        ensures { option_copied result ≡ chosen self.now op.now }
    {
        match op {
            BranchOp::Jump(edge) => Some(edge),
            BranchOp::Either { c, yes, no } => {
                if self.value(Scalar::I1, *c) == 0 {
                    Some(no)
                } else {
                    Some(yes)
                }
            },
            BranchOp::Switch {
                ty,
                value,
                edges,
                other,
                cases,
            } => {
                let at = case_in(self.value(*ty, *value), cases.as_slice(), *other);
                edges.get(at as usize)
            },
        }
    }

    /// Goes to a block.
    fn branch(&mut self, op: &BranchOp, row: &mut [u64]) -> Moved
        requires { All (λ e. length e.copies ≤ length row.old) (edges_of op.now) }
        ensures moved { result ≡ moved_by (branches self.old (chosen self.old op.now)) }
        ensures next { self.new ≡ next_of self.old (branches self.old (chosen self.old op.now)) }
    {
        match self.chosen(op) {
            None => Moved::Stuck,
            Some(edge) => {
                self.follow(edge, row);
                Moved::Goes
            },
        }
    }

    // ONE INSTRUCTION

    /// Begins an instruction.
    fn act(&mut self, run: &Run, instr: &CodeInstr, row: &mut [u64]) -> Moved
        requires within { self.old.at + 1 < 2 ^ 64 }
        requires fits { FitsRow (length row.old) instr.now }
        ensures moved { result ≡ moved_by (act run.now self.old instr.now instr.now.op) }
        ensures next { self.new ≡ next_of self.old (act run.now self.old instr.now instr.now.op) }
    {
        match &instr.op {
            CodeOp::Compute(op) => self.compute(instr, op),
            CodeOp::Alloca { size, count } => self.allocate(run, instr, *size, self.input(*count)),
            CodeOp::Memory(op) => self.access(run, instr, op),
            CodeOp::External(op) => self.ask(run, instr, op),
            CodeOp::Skip => {
                self.go_on();
                Moved::Goes
            },
            CodeOp::Call {
                function,
                arguments,
            } => self.call(run, instr, *function, arguments.as_slice(), row),
            CodeOp::Ret(value) => self.give_back(instr, self.returned(*value)),
            CodeOp::Branch(op) => self.branch(op, row),
            CodeOp::Unreachable => self.trap(instr, TrapKind::Unreachable),
            CodeOp::Unknown => Moved::Stuck,
        }
    }

    /// Begins the instruction at hand.
    pub(crate) fn step(&mut self, run: &Run, row: &mut [u64]) -> Moved
        requires { run.now.code.row ≤ length row.old }
        ensures moved { result ≡ moved_by (step run.now self.old) }
        ensures next { self.new ≡ next_of self.old (step run.now self.old) }
    {
        match self.at_hand(run) {
            None => Moved::Stuck,
            Some(instr) => self.act(run, instr, row),
        }
    }

    /// Takes the answer to the instruction at hand, which asked.
    #[tactic(auto, using(crate::proofs::Answered::stays))]
    pub(crate) fn answer(&mut self, run: &Run, answer: u64)
        ensures { self.new ≡ answered_at run.now self.old answer }
    {
        let Some(instr) = self.at_hand(run) else {
            return;
        };
        match &instr.op {
            CodeOp::Memory(op) => self.take_word(run, instr, op, answer),
            CodeOp::External(op) => self.take_answer(run, instr, op, answer),
            CodeOp::Compute(_) => {},
            CodeOp::Alloca { .. } => {},
            CodeOp::Skip => {},
            CodeOp::Call { .. } => {},
            CodeOp::Ret(_) => {},
            CodeOp::Branch(_) => {},
            CodeOp::Unreachable => {},
            CodeOp::Unknown => {},
        }
    }
}

//! Actors: where a thread stands in the step table, and what an answer leads to.

ghost use Rattle.std.specs.Prelude.{◌≡◌, ◌+◌, ◌<◌, ◌≤◌, suc, false, slice_set, IfOk};
ghost use Rattle.ds_map.specs.Words.{words};
ghost use Rattle.ds_map.specs.Blocks.{block_start};
ghost use Rattle.ds_plain.specs.declared.Position.TheVariants.{Start, Access, Malloc, Note, Free, Spawn, Join};
ghost use Rattle.ds_plain.specs.Behaviour.{Behaviour, told};
ghost use Rattle.ds_plain.specs.Asking.{IsWithin};
ghost use Rattle.ds_plain.specs.Accessing.{access_next, IsAccessAt};
ghost use Rattle.ds_plain.specs.Searching.{alloc_next, place_behind};
ghost use Rattle.ds_plain.specs.Noting.{note_next, IsNoteAt};
ghost use Rattle.ds_plain.specs.Freeing.{free_next};
ghost use Rattle.ds_plain.specs.Reached.{AreCursors, IsPlace, IsAllocAt, IsFreeAt};
ghost use Rattle.ds_plain.specs.Table.{op_at, is_over};
ghost use Rattle.ds_plain.specs.Starting.{start_next};
ghost use Rattle.ds_plain.specs.Spawning.{spawn_next, IsSpawnAt};
ghost use Rattle.ds_plain.specs.Joining.{join_next, IsJoinAt};
ghost use Rattle.ds_plain.specs.Thread.{first_thread, going_on, moved, moved_from_access, moved_from_malloc};
ghost use Rattle.ds_plain.specs.Thread.{moved_from_start, moved_from_spawn, moved_from_join};
ghost use Rattle.ds_plain.specs.Thread.{moved_from_note, moved_from_free, freed_address, trap_kind, stop_at};
ghost use Rattle.ds_plain.specs.Thread as threads;
ghost use Rattle.ds_alloc_laws.specs.Laws.{class_at};
ghost use Rattle.ds_code.specs.CodeProgram.{program_of, behaves};
ghost use Rattle.ds_frame.specs.declared.moved.Want.TheVariants as wants;
ghost use Rattle.ds_frame.specs.Threads.{runs, Serves};
ghost use Rattle.ds_actor.specs.Actors.{actor_with, stands_at, first_actor, has_begun, IsAt, IsSame, ended_with};
ghost use Rattle.ds_actor.specs.Actors.{turn_at, Pays};

use crate::cursors::Cursors;
use crate::join::{JoinStep, join_step};
use crate::outcome::{Turn, turn_by};
use crate::place::{position_by, stands_at};
use crate::spawn::{SpawnStep, spawn_step};
use crate::start::{StartStep, start_step};
use crate::table::{op_of, step_of};
use ds_access::AccessWalk;
use ds_alloc::{AllocOutcome, AllocWalk, place_behind};
use ds_alloc_laws::{classes_are_few, cursors_begin, cursors_move, mallocs_begin, mallocs_look_on};
use ds_code::Code;
use ds_frame::{Thread, Want};
use ds_log::{NoteOutcome, NoteWalk};
use ds_map::Limits;
use ds_mark::{FreeOutcome, FreeWalk};
use ds_pages::start_of;
use ds_plain::{
    AccessAt, AllocAt, FreeAt, JoinAt, NoteAt, Position, SpawnAt, StartAt, Stop, Trap, TrapKind,
};
use ds_step::{FreeTrap, WordOp};
use std::alloc::{AllocError, Global};
use std::marker::Model;

/// Begins a function with an argument, and answers where the thread then stands.
fn begin(
    code: &Code,
    limits: &Limits,
    cursors: &Cursors,
    thread: &mut Thread,
    function: u32,
    argument: u64,
) -> Position
    requires lim { thread.old.lim ≡ limits.now }
    requires row { code.now.row ≤ thread.old.row }
    requires fresh { thread.old.want ≡ wants.Begin }
    requires pays { thread.old.units < limits.now.fuel }
    requires looks { AreCursors limits.now cursors.now }
    ensures at { IsAt code.now (actor_with thread.new result cursors.now) (going_on thread.old.lim cursors.now
        (thread.old.units + 1) (behaves (runs code.now thread.old) function argument)) }
    ensures same { IsSame thread.old thread.new }
    ensures within { IsWithin limits.now result }
    ensures pays { Pays limits.now.fuel thread.new.units thread.new.want result }
{
    classes_are_few();
    mallocs_begin();
    let _pages = limits.pages();
    thread.spend();
    thread.begin(code, function, argument);
    position_by(limits, cursors, thread)
}

/// Gives a thread the answer to what it wants, and answers where the thread then stands.
fn resume(
    code: &Code,
    limits: &Limits,
    cursors: &Cursors,
    thread: &mut Thread,
    value: u64,
) -> Position
    requires lim { thread.old.lim ≡ limits.now }
    requires row { code.now.row ≤ thread.old.row }
    requires pays { thread.old.units < limits.now.fuel }
    requires looks { AreCursors limits.now cursors.now }
    ensures at { (rest : Behaviour) → Serves (runs code.now thread.old) thread.old.machine rest
        → IsAt code.now (actor_with thread.new result cursors.now)
        (going_on thread.old.lim cursors.now (thread.old.units + 1) (told rest value)) }
    ensures same { IsSame thread.old thread.new }
    ensures within { IsWithin limits.now result }
    ensures pays { Pays limits.now.fuel thread.new.units thread.new.want result }
{
    classes_are_few();
    mallocs_begin();
    let _pages = limits.pages();
    thread.spend();
    thread.answer(code, value);
    position_by(limits, cursors, thread)
}

/// Makes a thread go on that has not begun, and answers where it then stands.
fn start_on(limits: &Limits, thread: &mut Thread, at: StartAt) -> Position
    requires lim { thread.old.lim ≡ limits.now }
    requires fresh { thread.old.want ≡ wants.Begin }
    requires pays { thread.old.units < limits.now.fuel }
    ensures thread { thread.new ≡ record thread.old { units = thread.old.units + 1 } }
    ensures position { result ≡ stands_at limits.now (thread.old.units + 1) (Start at) }
    ensures within { IsWithin limits.now result }
    ensures pays { Pays limits.now.fuel thread.new.units thread.new.want result }
{
    thread.spend();
    stands_at(limits, thread.units(), Position::Start(at))
}

/// Makes a thread go on with starting another one, and answers where it then stands.
fn spawn_on(limits: &Limits, thread: &mut Thread, at: SpawnAt) -> Position
    requires lim { thread.old.lim ≡ limits.now }
    requires reached { IsSpawnAt limits.now at }
    requires pays { thread.old.units < limits.now.fuel }
    ensures thread { thread.new ≡ record thread.old { units = thread.old.units + 1 } }
    ensures position { result ≡ stands_at limits.now (thread.old.units + 1) (Spawn at) }
    ensures within { IsWithin limits.now result }
    ensures pays { Pays limits.now.fuel thread.new.units thread.new.want result }
{
    thread.spend();
    stands_at(limits, thread.units(), Position::Spawn(at))
}

/// Makes a thread go on with waiting for another one, and answers where it then stands.
fn join_on(limits: &Limits, thread: &mut Thread, at: JoinAt) -> Position
    requires lim { thread.old.lim ≡ limits.now }
    requires reached { IsJoinAt at }
    requires pays { thread.old.units < limits.now.fuel }
    ensures thread { thread.new ≡ record thread.old { units = thread.old.units + 1 } }
    ensures position { result ≡ stands_at limits.now (thread.old.units + 1) (Join at) }
    ensures within { IsWithin limits.now result }
    ensures pays { Pays limits.now.fuel thread.new.units thread.new.want result }
{
    thread.spend();
    stands_at(limits, thread.units(), Position::Join(at))
}

/// Makes a thread go on with its change of a part of a word, and answers where it then stands.
fn change_on(limits: &Limits, thread: &mut Thread, at: AccessAt) -> Position
    requires lim { thread.old.lim ≡ limits.now }
    requires reached { IsAccessAt limits.now at }
    requires pays { thread.old.units < limits.now.fuel }
    ensures thread { thread.new ≡ record thread.old { units = thread.old.units + 1 } }
    ensures position { result ≡ stands_at limits.now (thread.old.units + 1) (Access at) }
    ensures within { IsWithin limits.now result }
    ensures pays { Pays limits.now.fuel thread.new.units thread.new.want result }
{
    thread.spend();
    stands_at(limits, thread.units(), Position::Access(at))
}

/// Makes a thread go on with its malloc, and answers where it then stands.
fn look_on(limits: &Limits, thread: &mut Thread, at: AllocAt) -> Position
    requires lim { thread.old.lim ≡ limits.now }
    requires reached { IsAllocAt limits.now at }
    requires pays { thread.old.units < limits.now.fuel }
    ensures thread { thread.new ≡ record thread.old { units = thread.old.units + 1 } }
    ensures position { result ≡ stands_at limits.now (thread.old.units + 1) (Malloc at) }
    ensures within { IsWithin limits.now result }
    ensures pays { Pays limits.now.fuel thread.new.units thread.new.want result }
{
    thread.spend();
    stands_at(limits, thread.units(), Position::Malloc(at))
}

/// Makes a thread go on with its note, and answers where it then stands.
fn note_on(limits: &Limits, thread: &mut Thread, at: NoteAt) -> Position
    requires lim { thread.old.lim ≡ limits.now }
    requires reached { IsNoteAt limits.now at }
    requires pays { thread.old.units < limits.now.fuel }
    ensures thread { thread.new ≡ record thread.old { units = thread.old.units + 1 } }
    ensures position { result ≡ stands_at limits.now (thread.old.units + 1) (Note at) }
    ensures within { IsWithin limits.now result }
    ensures pays { Pays limits.now.fuel thread.new.units thread.new.want result }
{
    thread.spend();
    stands_at(limits, thread.units(), Position::Note(at))
}

/// Makes a thread go on with its free, and answers where it then stands.
fn free_on(limits: &Limits, thread: &mut Thread, at: FreeAt) -> Position
    requires lim { thread.old.lim ≡ limits.now }
    requires reached { IsFreeAt limits.now at }
    requires pays { thread.old.units < limits.now.fuel }
    ensures thread { thread.new ≡ record thread.old { units = thread.old.units + 1 } }
    ensures position { result ≡ stands_at limits.now (thread.old.units + 1) (Free at) }
    ensures within { IsWithin limits.now result }
    ensures pays { Pays limits.now.fuel thread.new.units thread.new.want result }
{
    thread.spend();
    stands_at(limits, thread.units(), Position::Free(at))
}

/// The size class that a malloc wants.
fn class_at(at: AllocAt) -> u8
    ensures { result ≡ class_at at }
{
    match at {
        AllocAt::LoadPage { search } => search.class,
        AllocAt::SwapPage { search } => search.class,
        AllocAt::LoadBlock { search, index: _ } => search.class,
        AllocAt::SwapBlock {
            search,
            index: _,
            life: _,
        } => search.class,
    }
}

/// The address that a free is asked for.
fn freed_address(at: FreeAt) -> u64
    ensures { result ≡ freed_address at }
{
    match at {
        FreeAt::LoadPage { address } => address,
        FreeAt::LoadBlock { address, place: _ } => address,
        FreeAt::SwapBlock {
            address,
            place: _,
            life: _,
        } => address,
        FreeAt::StoreFree { place: _, life: _ } => 0,
    }
}

/// Why the free of an address traps.
fn trap_kind(address: u64, trap: FreeTrap) -> TrapKind
    ensures { result ≡ trap_kind address trap }
{
    match trap {
        FreeTrap::BadFree => TrapKind::BadFree { address },
        FreeTrap::DoubleFree { seen } => TrapKind::DoubleFree { address, seen },
    }
}

/// One thread of a run: it runs code, and makes the steps of the step table for what the code asks.
#[derive(Drop)]
pub struct Actor {
    limits: Limits,
    number: u8,
    thread: Thread,
    position: Position,
    cursors: Cursors,
}

impl Model for Actor {
    ghost use Rattle.ds_actor.specs.Actors.{ActorState, actor_with, IsKept};

    ghost Value = { ActorState };

    ghost view = { λ a. actor_with a.thread a.position a.cursors };

    ghost invariant = { λ a. IsKept a.limits a.number a.thread a.position a.cursors };
}

impl Actor {
    /// An actor of this number within these limits, which has not begun and is to run this code. It takes all its
    /// memory.
    pub fn new(alloc: Global, code: &Code, limits: &Limits, number: u8) -> Result<Actor, AllocError>
        requires { number < 16 }
        ensures first { IfOk result (λ actor. actor ≡ first_actor limits.now number code.now.row) }
        ensures at { IfOk result (λ actor. IsAt code.now actor (first_thread limits.now)) }
    {
        cursors_begin();
        let _pages = limits.pages();
        let thread = Thread::new(alloc, code, limits, number)?;
        Ok(Actor {
            limits: *limits,
            number,
            thread,
            position: stands_at(limits, 0, Position::Start(StartAt::LoadStart)),
            cursors: Cursors::new(),
        })
    }

    /// The stop with which it has ended, if it has.
    pub fn stop(&self) -> Option<Stop>
        ensures { result ≡ ended_with self.now.position }
    {
        match self.position {
            Position::Over { stop } => Some(stop),
            _ => None,
        }
    }

    /// How it stands, if the run ends now.
    pub fn standing(&self) -> Stop
        ensures { result ≡ stop_at (has_begun self.now.thread.want) self.now.position }
    {
        let began = self.thread.want() != Want::Begin;
        match self.position {
            Position::Start(_) => Stop::Idle,
            Position::Access(_) => Stop::Running,
            Position::Malloc(_) => Stop::Running,
            Position::Note(_) => Stop::Running,
            Position::Free(_) => Stop::Running,
            Position::Spawn(_) => Stop::Running,
            Position::Join(_) => Stop::Running,
            Position::DrawPrint { value: _ } => Stop::Running,
            Position::StoreEnded { stop: _ } => { if began { Stop::Running } else { Stop::Idle } }
            Position::Over { stop } => stop,
            Position::NoRow => Stop::Running,
        }
    }

    /// The units that it has spent, at most its fuel.
    pub fn units(&self) -> u32
        ensures units { result ≡ self.now.thread.units }
        ensures paid { result ≤ self.now.thread.lim.fuel }
    {
        self.thread.units()
    }

    /// The operation of its next step.
    pub fn op(&self) -> WordOp
        requires { is_over self.now.position ≡ false }
        ensures op { result ≡ op_at self.now.thread.lim self.now.thread.number self.now.position }
        ensures word { result.word < words self.now.thread.lim }
    {
        op_of(&self.limits, self.number, self.position)
    }

    /// Goes on before it begins, by the answer to its step.
    fn start(&mut self, code: &Code, at: StartAt, old: u64)
        requires at { self.old.position ≡ Start at }
        requires row { code.now.row ≤ self.old.thread.row }
        ensures stands { (a : threads.Thread) → IsAt code.now self.old a → IsAt code.now self.new
            (moved_from_start (program_of self.old.thread.lim code.now) self.old.thread.lim self.old.thread.number a
            (start_next (program_of self.old.thread.lim code.now) self.old.thread.number at old)) }
        ensures same { IsSame self.old.thread self.new.thread }
    {
        match start_step(code, self.number, at, old) {
            StartStep::StartsOn(next) => {
                self.position = start_on(&self.limits, &mut self.thread, next);
            }
            StartStep::Begins { function, argument } => {
                self.position = begin(
                    code,
                    &self.limits,
                    &self.cursors,
                    &mut self.thread,
                    function,
                    argument,
                );
            }
        }
    }

    /// Is told the answer to its request, and goes on up to the step behind.
    fn resumed(&mut self, code: &Code, value: u64)
        requires row { code.now.row ≤ self.old.thread.row }
        requires pays { self.old.thread.units < self.old.thread.lim.fuel }
        ensures stands { (rest : Behaviour) → Serves (runs code.now self.old.thread) self.old.thread.machine rest
            → IsAt code.now self.new (going_on self.old.thread.lim self.old.cursors (self.old.thread.units + 1)
            (told rest value)) }
        ensures same { IsSame self.old.thread self.new.thread }
    {
        self.position = resume(code, &self.limits, &self.cursors, &mut self.thread, value);
    }

    /// Takes the block at a place, behind which the next malloc of its class begins to look.
    fn took(&mut self, code: &Code, class: u8, place: u32)
        requires row { code.now.row ≤ self.old.thread.row }
        requires pays { self.old.thread.units < self.old.thread.lim.fuel }
        requires block { IsPlace self.old.thread.lim class place }
        ensures stands { (rest : Behaviour) → Serves (runs code.now self.old.thread) self.old.thread.machine rest
            → IsAt code.now self.new (going_on self.old.thread.lim
            (slice_set self.old.cursors class (place_behind self.old.thread.lim class place))
            (self.old.thread.units + 1) (told rest (block_start place class))) }
        ensures same { IsSame self.old.thread self.new.thread }
    {
        cursors_move();
        let behind = place_behind(&self.limits, class, place);
        let start = start_of(place, u64::from(class) + 1);
        self.cursors.set(class, behind);
        self.position = resume(code, &self.limits, &self.cursors, &mut self.thread, start);
    }

    /// Goes on with its access to program memory, by the answer to its step.
    fn access_on(&mut self, code: &Code, at: AccessAt, old: u64)
        requires at { self.old.position ≡ Access at }
        requires row { code.now.row ≤ self.old.thread.row }
        ensures stands { (a : threads.Thread) → IsAt code.now self.old a → IsAt code.now self.new
            (moved_from_access self.old.thread.lim a (access_next at old)) }
        ensures same { IsSame self.old.thread self.new.thread }
    {
        let mut walk = AccessWalk::at(at, &self.limits);
        walk.answer(old);
        if let Some(next) = walk.position() {
            self.position = change_on(&self.limits, &mut self.thread, next);
            return;
        }
        match walk.outcome() {
            Some(answer) => self.resumed(code, answer),
            None => unreachable!(),
        }
    }

    /// Goes on with its malloc, by the answer to its step.
    fn malloc_on(&mut self, code: &Code, at: AllocAt, old: u64)
        requires at { self.old.position ≡ Malloc at }
        requires row { code.now.row ≤ self.old.thread.row }
        ensures stands { (a : threads.Thread) → IsAt code.now self.old a → IsAt code.now self.new
            (moved_from_malloc self.old.thread.lim a (alloc_next self.old.thread.lim at old)) }
        ensures same { IsSame self.old.thread self.new.thread }
    {
        mallocs_look_on();
        let _pages = self.limits.pages();
        let mut walk = AllocWalk::at(at, &self.limits);
        walk.answer(old);
        if let Some(next) = walk.position() {
            self.position = look_on(&self.limits, &mut self.thread, next);
            return;
        }
        match walk.outcome() {
            Some(AllocOutcome::Block { place, life: _ }) => self.took(code, class_at(at), place),
            _ => self.resumed(code, 0),
        }
    }

    /// Goes on with its note, by the answer to its step.
    fn noted_on(&mut self, code: &Code, at: NoteAt, old: u64)
        requires at { self.old.position ≡ Note at }
        requires row { code.now.row ≤ self.old.thread.row }
        ensures stands { (a : threads.Thread) → IsAt code.now self.old a → IsAt code.now self.new
            (moved_from_note self.old.thread.lim a (note_next self.old.thread.lim at old)) }
        ensures same { IsSame self.old.thread self.new.thread }
    {
        let mut walk = NoteWalk::at(self.number, at, &self.limits);
        walk.answer(old);
        if let Some(next) = walk.position() {
            self.position = note_on(&self.limits, &mut self.thread, next);
            return;
        }
        match walk.outcome() {
            Some(NoteOutcome::Full(what)) => {
                let place = self.thread.place();
                self.thread.spend();
                self.position = Position::StoreEnded {
                    stop: Stop::Full(place, what),
                };
            }
            _ => self.resumed(code, 0),
        }
    }

    /// Goes on with its free, by the answer to its step.
    fn freed_on(&mut self, code: &Code, at: FreeAt, old: u64)
        requires at { self.old.position ≡ Free at }
        requires row { code.now.row ≤ self.old.thread.row }
        ensures stands { (a : threads.Thread) → IsAt code.now self.old a → IsAt code.now self.new
            (moved_from_free self.old.thread.lim a (freed_address at) (free_next at old)) }
        ensures same { IsSame self.old.thread self.new.thread }
    {
        let mut walk = FreeWalk::at(at, &self.limits);
        walk.answer(old);
        if let Some(next) = walk.position() {
            self.position = free_on(&self.limits, &mut self.thread, next);
            return;
        }
        match walk.outcome() {
            Some(FreeOutcome::Trap(trap)) => {
                let kind = trap_kind(freed_address(at), trap);
                let place = self.thread.place();
                self.thread.spend();
                self.position = Position::StoreEnded {
                    stop: Stop::Trap(Trap { place, kind }),
                };
            }
            _ => self.resumed(code, 0),
        }
    }

    /// Goes on with starting another thread, by the answer to its step.
    fn spawn(&mut self, code: &Code, at: SpawnAt, old: u64)
        requires at { self.old.position ≡ Spawn at }
        requires row { code.now.row ≤ self.old.thread.row }
        ensures stands { (a : threads.Thread) → IsAt code.now self.old a → IsAt code.now self.new
            (moved_from_spawn self.old.thread.lim a (spawn_next at old)) }
        ensures same { IsSame self.old.thread self.new.thread }
    {
        match spawn_step(&self.limits, at, old) {
            SpawnStep::SpawnsOn(next) => {
                self.position = spawn_on(&self.limits, &mut self.thread, next);
            }
            SpawnStep::Tells(answer) => self.resumed(code, answer),
        }
    }

    /// Goes on with waiting for another thread, by the answer to its step.
    fn join(&mut self, code: &Code, at: JoinAt, old: u64)
        requires at { self.old.position ≡ Join at }
        requires row { code.now.row ≤ self.old.thread.row }
        ensures stands { (a : threads.Thread) → IsAt code.now self.old a → IsAt code.now self.new
            (moved_from_join self.old.thread.lim a (join_next self.old.thread.number at old)) }
        ensures same { IsSame self.old.thread self.new.thread }
    {
        match join_step(self.number, at, old) {
            JoinStep::JoinsOn(next) => {
                self.position = join_on(&self.limits, &mut self.thread, next);
            }
            JoinStep::Joined => self.resumed(code, 0),
            JoinStep::FailsJoin(number) => {
                let place = self.thread.place();
                let kind = TrapKind::BadJoin { number };
                self.thread.spend();
                self.position = Position::StoreEnded {
                    stop: Stop::Trap(Trap { place, kind }),
                };
            }
        }
    }

    /// Takes the answer to its step and goes on, up to the step behind.
    fn go_on(&mut self, code: &Code, old: u64)
        requires goes_on { is_over self.old.position ≡ false }
        requires row { code.now.row ≤ self.old.thread.row }
        ensures stands { (a : threads.Thread) → IsAt code.now self.old a → IsAt code.now self.new
            (moved (program_of self.old.thread.lim code.now) self.old.thread.lim self.old.thread.number a old) }
        ensures same { IsSame self.old.thread self.new.thread }
    {
        match self.position {
            Position::Start(at) => self.start(code, at, old),
            Position::Access(at) => self.access_on(code, at, old),
            Position::Malloc(at) => self.malloc_on(code, at, old),
            Position::Note(at) => self.noted_on(code, at, old),
            Position::Free(at) => self.freed_on(code, at, old),
            Position::Spawn(at) => self.spawn(code, at, old),
            Position::Join(at) => self.join(code, at, old),
            Position::DrawPrint { value: _ } => self.resumed(code, 0),
            Position::StoreEnded { stop } => {
                self.position = Position::Over { stop };
            }
            Position::Over { stop: _ } => {}
            Position::NoRow => {}
        }
    }

    /// Takes the answer to its operation, and runs instructions up to its next step.
    ///
    /// The code copies no more values together than the code for which the actor was made. Together with `op` this is
    /// exactly one step of the step table, whatever the answer is.
    pub fn answer(&mut self, code: &Code, old: u64) -> Turn
        requires goes_on { is_over self.old.position ≡ false }
        requires row { code.now.row ≤ self.old.thread.row }
        ensures stands { (a : threads.Thread) → IsAt code.now self.old a → IsAt code.now self.new
            (moved (program_of self.old.thread.lim code.now) self.old.thread.lim self.old.thread.number a old) }
        ensures same { IsSame self.old.thread self.new.thread }
        ensures turn { result ≡ turn_at self.old.thread.lim self.old.thread.number self.old.position old }
    {
        let position = self.position;
        let step = step_of(&self.limits, self.number, position, old);
        self.go_on(code, old);
        turn_by(position, step)
    }
}

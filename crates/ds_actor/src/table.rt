//! The step table as code: the step of each position.

ghost use Rattle.std.specs.Prelude.{◌≡◌, ◌<◌};
ghost use Rattle.ds_map.specs.Words.{control_words, words};
ghost use Rattle.ds_plain.specs.Table.{op_at, row_at, event_at, step_at};
ghost use Rattle.ds_plain.specs.Operations.{load_of, store_of, swap_of};
ghost use Rattle.ds_plain.specs.Starting.{start_word, function_word, argument_word, start_op, start_row, start_event};
ghost use Rattle.ds_plain.specs.Spawning.{spawn_op, IsSpawnAt};
ghost use Rattle.ds_plain.specs.Joining.{join_op, IsJoinAt};
ghost use Rattle.ds_plain.specs.Accessing.{access_row, access_event, IsAccessAt};
ghost use Rattle.ds_plain.specs.Asking.{IsWithin};
ghost use Rattle.ds_plain.specs.Noting.{note_row, note_event, IsNoteAt};
ghost use Rattle.ds_plain.specs.Freeing.{free_row, free_event};
ghost use Rattle.ds_plain.specs.Reached.{IsAllocAt, IsFreeAt};
ghost use Rattle.ds_plain.specs.Searching.{alloc_row, alloc_event};

use crate::join::join_meaning_of;
use crate::spawn::spawn_meaning_of;
use ds_access::AccessWalk;
use ds_alloc::AllocWalk;
use ds_log::NoteWalk;
use ds_map::{Limits, word_of};
use ds_mark::FreeWalk;
use ds_plain::{AccessAt, AllocAt, FreeAt, JoinAt, NoteAt, Position, SpawnAt, StartAt};
use ds_step::{Event, OpKind, Step, WordOp};

/// The word that counts the prints.
const PRINTS_WORD: u32 = 2;

/// The word that counts the numbers of threads that were given out.
const GIVEN_WORD: u32 = 1;

/// The word that says whether thread 0 may begin. The other threads' words follow it.
const FIRST_START_WORD: u32 = 16;

/// The word with the number of the function of thread 0. The other threads' words follow it.
const FIRST_FUNCTION_WORD: u32 = 32;

/// The word with the argument of thread 0. The other threads' words follow it.
const FIRST_ARGUMENT_WORD: u32 = 48;

// OPERATIONS

/// A load of a word of the table.
fn load(word: u32) -> WordOp
    ensures { result ≡ load_of word }
{
    WordOp {
        kind: OpKind::Load,
        word,
        a: 0,
        b: 0,
    }
}

/// A store of a value to a word of the table.
fn store(word: u32, value: u64) -> WordOp
    ensures { result ≡ store_of word value }
{
    WordOp {
        kind: OpKind::Store,
        word,
        a: value,
        b: 0,
    }
}

/// A compare-and-swap of a word of the table.
fn swap(word: u32, expected: u64, new: u64) -> WordOp
    ensures { result ≡ swap_of word expected new }
{
    WordOp {
        kind: OpKind::Cas,
        word,
        a: expected,
        b: new,
    }
}

/// The start word of a thread.
fn start_word_of(thread: u8) -> u32
    requires { thread < 16 }
    ensures word { result ≡ start_word thread }
    ensures control { result < control_words }
{
    FIRST_START_WORD + u32::from(thread)
}

/// The word with the number of a thread's function.
fn function_word_of(thread: u8) -> u32
    requires { thread < 16 }
    ensures word { result ≡ function_word thread }
    ensures control { result < control_words }
{
    FIRST_FUNCTION_WORD + u32::from(thread)
}

/// The word with a thread's argument.
fn argument_word_of(thread: u8) -> u32
    requires { thread < 16 }
    ensures word { result ≡ argument_word thread }
    ensures control { result < control_words }
{
    FIRST_ARGUMENT_WORD + u32::from(thread)
}

/// The operation that a thread makes before it begins.
fn start_op_of(thread: u8, at: StartAt) -> WordOp
    requires { thread < 16 }
    ensures op { result ≡ start_op thread at }
    ensures control { result.word < control_words }
{
    match at {
        StartAt::LoadStart => load(start_word_of(thread)),
        StartAt::LoadFunction => load(function_word_of(thread)),
        StartAt::LoadArgument { function: _ } => load(argument_word_of(thread)),
    }
}

/// The operation that a thread makes that starts another one.
fn spawn_op_of(limits: &Limits, at: SpawnAt) -> WordOp
    requires { IsSpawnAt limits.now at }
    ensures op { result ≡ spawn_op limits.now at }
    ensures word { result.word < words limits.now }
{
    match at {
        SpawnAt::DrawThread { .. } => WordOp {
            kind: OpKind::Add,
            word: GIVEN_WORD,
            a: 1,
            b: 0,
        },
        SpawnAt::StoreNumber { n, loc, .. } => store(word_of(limits, loc), u64::from(n)),
        SpawnAt::StoreFunction {
            n,
            function,
            arg: _,
        } => store(function_word_of(n), u64::from(function)),
        SpawnAt::StoreArgument { n, arg } => store(argument_word_of(n), arg),
        SpawnAt::OpenThread { n } => swap(start_word_of(n), 0, 1),
    }
}

/// The operation that a thread makes that waits for another one.
fn join_op_of(at: JoinAt) -> WordOp
    requires { IsJoinAt at }
    ensures op { result ≡ join_op at }
    ensures control { result.word < control_words }
{
    match at {
        JoinAt::LoadGiven { number: _ } => load(GIVEN_WORD),
        JoinAt::LoadEnded { n } => load(start_word_of(n)),
    }
}

/// The operation that a thread makes at a position.
pub fn op_of(limits: &Limits, thread: u8, position: Position) -> WordOp
    requires thread { thread < 16 }
    requires location { IsWithin limits.now position }
    ensures op { result ≡ op_at limits.now thread position }
    ensures word { result.word < words limits.now }
{
    let _pages = limits.pages();
    match position {
        Position::Start(at) => start_op_of(thread, at),
        Position::Access(at) => AccessWalk::at(at, limits).op(),
        Position::Malloc(at) => AllocWalk::at(at, limits).op(),
        Position::Note(at) => NoteWalk::at(thread, at, limits).op(),
        Position::Free(at) => FreeWalk::at(at, limits).op(),
        Position::Spawn(at) => spawn_op_of(limits, at),
        Position::Join(at) => join_op_of(at),
        Position::DrawPrint { value: _ } => WordOp {
            kind: OpKind::Add,
            word: PRINTS_WORD,
            a: 1,
            b: 0,
        },
        Position::StoreEnded { stop: _ } => store(start_word_of(thread), 2),
        Position::Over { stop: _ } => load(0),
        Position::NoRow => load(0),
    }
}

// ROWS AND EVENTS

/// The number of a row before a thread begins, and what the answer means there.
fn start_meaning_of(thread: u8, at: StartAt, old: u64) -> (u8, Event)
    ensures row { result.0 ≡ start_row at }
    ensures event { result.1 ≡ start_event thread at old }
{
    match at {
        StartAt::LoadStart if thread == 0 && old == 1 => (1, Event::Begin),
        StartAt::LoadStart => (1, Event::Log),
        StartAt::LoadFunction => (2, Event::Log),
        StartAt::LoadArgument { function: _ } => (3, Event::Begin),
    }
}

/// The number of a row of an access to program memory, and what the answer means there.
fn access_meaning_of(limits: &Limits, at: AccessAt, old: u64) -> (u8, Event)
    requires { IsAccessAt limits.now at }
    ensures row { result.0 ≡ access_row at }
    ensures event { result.1 ≡ access_event at old }
{
    let mut walk = AccessWalk::at(at, limits);
    let row = walk.row();
    (row, walk.answer(old))
}

/// The number of a row of a malloc, and what the answer means there.
fn alloc_meaning_of(limits: &Limits, at: AllocAt, old: u64) -> (u8, Event)
    requires { IsAllocAt limits.now at }
    ensures row { result.0 ≡ alloc_row at }
    ensures event { result.1 ≡ alloc_event limits.now at old }
{
    let mut walk = AllocWalk::at(at, limits);
    let row = walk.row();
    (row, walk.answer(old))
}

/// The number of a row of a note, and what the answer means there.
fn note_meaning_of(limits: &Limits, thread: u8, at: NoteAt, old: u64) -> (u8, Event)
    requires thread { thread < 16 }
    requires at { IsNoteAt limits.now at }
    ensures row { result.0 ≡ note_row at }
    ensures event { result.1 ≡ note_event limits.now at old }
{
    let mut walk = NoteWalk::at(thread, at, limits);
    let row = walk.row();
    (row, walk.answer(old))
}

/// The number of a row of a free, and what the answer means there.
fn free_meaning_of(limits: &Limits, at: FreeAt, old: u64) -> (u8, Event)
    requires { IsFreeAt limits.now at }
    ensures row { result.0 ≡ free_row at }
    ensures event { result.1 ≡ free_event at old }
{
    let mut walk = FreeWalk::at(at, limits);
    let row = walk.row();
    (row, walk.answer(old))
}

/// The number of a position's row, and what the answer means there.
fn meaning_of(limits: &Limits, thread: u8, position: Position, old: u64) -> (u8, Event)
    requires thread { thread < 16 }
    requires location { IsWithin limits.now position }
    ensures row { result.0 ≡ row_at position }
    ensures event { result.1 ≡ event_at limits.now thread position old }
{
    match position {
        Position::Start(at) => start_meaning_of(thread, at, old),
        Position::Access(at) => access_meaning_of(limits, at, old),
        Position::Malloc(at) => alloc_meaning_of(limits, at, old),
        Position::Note(at) => note_meaning_of(limits, thread, at, old),
        Position::Free(at) => free_meaning_of(limits, at, old),
        Position::Spawn(at) => spawn_meaning_of(at, old),
        Position::Join(at) => join_meaning_of(thread, at, old),
        Position::DrawPrint { value } => (13, Event::Print { number: old, value }),
        Position::StoreEnded { stop: _ } => (12, Event::End),
        Position::Over { stop: _ } => (0, Event::Log),
        Position::NoRow => (0, Event::Log),
    }
}

/// The step that a thread makes at a position, by the answer to its operation.
pub fn step_of(limits: &Limits, thread: u8, position: Position, old: u64) -> Step
    requires thread { thread < 16 }
    requires location { IsWithin limits.now position }
    ensures { result ≡ step_at limits.now thread position old }
{
    let (row, event) = meaning_of(limits, thread, position, old);
    Step {
        op: op_of(limits, thread, position),
        old,
        row,
        event,
    }
}

//! The rows of a note as code: the operation of each position, what its answer means, and what comes next.

ghost use Rattle.std.specs.Prelude.{◌≡◌, ℕ, ◌+◌, ◌*◌, ◌<◌, true};
ghost use Rattle.ds_map.specs.Bounds.{Bounds};
ghost use Rattle.ds_map.specs.Blocks.{page_at};
ghost use Rattle.ds_map.specs.Regions.{heap, lies_in, program_words};
ghost use Rattle.ds_map.specs.Words.{first_page_word, first_block_word, words};
ghost use Rattle.ds_entry.specs.Header.{log_entries};
ghost use Rattle.ds_plain.specs.Freeing.{life_seen};
ghost use Rattle.ds_plain.specs.Listing.{header_word, entry_word, list_event, list_next, list_place, list_life};
ghost use Rattle.ds_plain.specs.Listing.{IsLife, IsListAt};
ghost use Rattle.ds_plain.specs.Noting.{held_seen, held_loaded, found_loaded, behind_held_load, behind_found_load};
ghost use Rattle.ds_plain.specs.Noting.{with_log, behind_list, note_op, note_row, note_event, note_next};
ghost use Rattle.ds_plain.specs.Noting.{is_notable, IsNoteAt};
ghost use Rattle.ds_plain.specs.Operations.{load_of, store_of};
ghost use Rattle.ds_list.specs.Walks.{IsOwn};
ghost use Rattle.ds_log.specs.Walks.{next_in, IsNext};

use crate::outcome::NoteStep;
use crate::seen::{BlockWord, PageWord, held_seen, life_seen};
use ds_entry::{header_word, pack, read_header};
use ds_list::{ListOutcome, ListWalk};
use ds_map::Limits;
use ds_plain::{ListAt, NoteAt};
use ds_step::{Event, OpKind, WordOp};

/// The address of the heap's first byte.
const HEAP_START: u64 = 0x100_0000;

/// The number of bytes of a page.
const PAGE_BYTES: u64 = 4096;

/// The table's word of page 0. Those of the other pages follow it, and then those of the places.
const FIRST_PAGE_WORD: u32 = 384;

/// The number of the table's words for each page: a page word, 256 block words and 4,096 home words.
const RECORDS_OF_PAGE: u32 = 1 + 256 + 4096;

/// The number of the table's words for each log.
const LOG_WORDS: u32 = 16;

// OPERATIONS AND ROWS

/// A load of a word of the table.
fn load(word: u32) -> WordOp
    ensures { result ≡ load_of word }
{
    WordOp {
        kind: OpKind::Load,
        word,
        a: 0,
        b: 0,
    }
}

/// A store of a value to a word of the table.
fn store(word: u32, value: u64) -> WordOp
    ensures { result ≡ store_of word value }
{
    WordOp {
        kind: OpKind::Store,
        word,
        a: value,
        b: 0,
    }
}

/// The table's word of the page of a value of the heap.
fn page_word_at(limits: &Limits, value: u64) -> u32
    requires { lies_in (heap limits.now) value ≡ true }
    ensures word { result ≡ first_page_word + page_at value }
    ensures below { result < words limits.now }
{
    let _pages = limits.pages();
    FIRST_PAGE_WORD + ((value - HEAP_START) / PAGE_BYTES) as u32
}

/// The table's word of the block of a place.
fn block_word_at(limits: &Limits, place: u32) -> u32
    requires { place < 256 * limits.now.pages }
    ensures word { result ≡ first_block_word limits.now + place }
    ensures below { result < words limits.now }
{
    FIRST_PAGE_WORD + limits.pages() + place
}

/// The table's word of the header of a log.
fn header_word_at(limits: &Limits, log: u32) -> u32
    requires { log < limits.now.logs }
    ensures word { result ≡ header_word limits.now log }
    ensures below { result + 15 < words limits.now }
{
    FIRST_PAGE_WORD + RECORDS_OF_PAGE * limits.pages() + LOG_WORDS * log
}

/// The table's word of the entry of this number of a log.
fn entry_word_at(limits: &Limits, log: u32, number: u32) -> u32
    requires log { log < limits.now.logs }
    requires number { number < log_entries }
    ensures word { result ≡ entry_word limits.now log number }
    ensures below { result < words limits.now }
{
    let _pages = limits.pages();
    header_word_at(limits, log) + 2 + number
}

/// The operation that a note makes at a position.
pub(crate) fn op_of(limits: &Limits, thread: u8, at: NoteAt) -> WordOp
    requires thread { thread < 16 }
    requires at { IsNoteAt limits.now at }
    ensures op { result ≡ note_op limits.now thread at }
    ensures word { result.word < words limits.now }
{
    match at {
        NoteAt::LoadPage { loc: _, value } => load(page_word_at(limits, value)),
        NoteAt::LoadBlock {
            loc: _,
            place,
            start: _,
        } => load(block_word_at(limits, place)),
        NoteAt::Seek { loc: _, at } => ListWalk::at(thread, at, limits).op(),
        NoteAt::StoreLife {
            loc: _,
            place: _,
            life,
            log,
        } => store(header_word_at(limits, log), header_word(life, 0, 0)),
        NoteAt::StoreEntry {
            loc,
            place: _,
            life: _,
            log,
            used,
        } => store(entry_word_at(limits, log, used), pack(loc)),
        NoteAt::CountEntry {
            loc: _,
            place: _,
            life,
            log,
            used,
        } => store(
            header_word_at(limits, log),
            header_word(life, used as u8 + 1, 0),
        ),
    }
}

/// The number of the row that a note makes at a position.
pub(crate) fn row_of(limits: &Limits, thread: u8, at: NoteAt) -> u8
    requires thread { thread < 16 }
    requires at { IsNoteAt limits.now at }
    ensures { result ≡ note_row at }
{
    match at {
        NoteAt::LoadPage { loc: _, value: _ } => 24,
        NoteAt::LoadBlock {
            loc: _,
            place: _,
            start: _,
        } => 25,
        NoteAt::Seek { loc: _, at } => ListWalk::at(thread, at, limits).row(),
        NoteAt::StoreLife {
            loc: _,
            place: _,
            life: _,
            log: _,
        } => 31,
        NoteAt::StoreEntry {
            loc: _,
            place: _,
            life: _,
            log: _,
            used: _,
        } => 38,
        NoteAt::CountEntry {
            loc: _,
            place: _,
            life: _,
            log: _,
            used: _,
        } => 39,
    }
}

// WHAT ITS ANSWERS MEAN, AND WHAT COMES NEXT

/// What the word of the page means to a note that loaded it, and what comes next.
fn held_loaded(limits: &Limits, loc: u32, value: u64, old: u64) -> (Event, NoteStep)
    requires { is_notable limits.now loc value ≡ true }
    ensures event { result.0 ≡ held_loaded (held_seen value old) }
    ensures next { next_in result.1 ≡ behind_held_load loc value (held_seen value old) }
    ensures stands { IsNext limits.now (next_in result.1) }
{
    match held_seen(limits, value, old) {
        PageWord::HeldIn(place, start) => (
            Event::Log,
            NoteStep::NotesOn(NoteAt::LoadBlock { loc, place, start }),
        ),
        PageWord::HeldByNone => (Event::Skip, NoteStep::HasSkipped),
        PageWord::NoPageWord => (
            Event::Log,
            NoteStep::NotesOn(NoteAt::LoadPage { loc, value }),
        ),
    }
}

/// What the word of the block means to a note that loaded it, and what comes next.
fn found_loaded(loc: u32, place: u32, start: u64, old: u64) -> (Event, NoteStep)
    ensures event { result.0 ≡ found_loaded place start (life_seen old) }
    ensures next { next_in result.1 ≡ behind_found_load loc place start (life_seen old) }
    ensures stands { (lim : Bounds) → loc < program_words lim → place < 256 * lim.pages
        → IsNext lim (next_in result.1) }
{
    match life_seen(old) {
        BlockWord::LiveIn(life) => {
            let at = ListAt::LoadHome { place, life };
            (
                Event::Found { place, start, life },
                NoteStep::NotesOn(NoteAt::Seek { loc, at }),
            )
        }
        BlockWord::NotLive => (Event::Skip, NoteStep::HasSkipped),
        BlockWord::NoBlockWord => (
            Event::Log,
            NoteStep::NotesOn(NoteAt::LoadBlock { loc, place, start }),
        ),
    }
}

/// The place of the block whose log a thread looks for.
fn place_of(at: ListAt) -> u32
    ensures { result ≡ list_place at }
{
    match at {
        ListAt::LoadHome { place, life: _ } => place,
        ListAt::DrawLog { place, life: _ } => place,
        ListAt::StoreHeader {
            place,
            life: _,
            log: _,
        } => place,
        ListAt::StoreHome {
            place,
            life: _,
            log: _,
        } => place,
        ListAt::LoadHeader {
            place,
            life: _,
            log: _,
        } => place,
    }
}

/// Its life.
fn life_of(at: ListAt) -> u32
    ensures { result ≡ list_life at }
{
    match at {
        ListAt::LoadHome { place: _, life } => life,
        ListAt::DrawLog { place: _, life } => life,
        ListAt::StoreHeader {
            place: _,
            life,
            log: _,
        } => life,
        ListAt::StoreHome {
            place: _,
            life,
            log: _,
        } => life,
        ListAt::LoadHeader {
            place: _,
            life,
            log: _,
        } => life,
    }
}

/// What comes of a note that has its own log, with this header.
fn with_log(loc: u32, place: u32, life: u32, log: u32, header: u64) -> NoteStep
    ensures next { next_in result ≡ with_log loc place life log header }
    ensures stands { (lim : Bounds) → loc < program_words lim → IsLife lim place life
        → IsOwn lim life log header → IsNext lim (next_in result) }
{
    let told = read_header(header);
    if told.life != life {
        return NoteStep::NotesOn(NoteAt::StoreLife {
            loc,
            place,
            life,
            log,
        });
    }
    NoteStep::NotesOn(NoteAt::StoreEntry {
        loc,
        place,
        life,
        log,
        used: u32::from(told.used),
    })
}

/// What the answer means to a note that looks for its log, and what comes next.
fn sought(limits: &Limits, thread: u8, loc: u32, at: ListAt, old: u64) -> (Event, NoteStep)
    requires thread { thread < 16 }
    requires loc { loc < program_words limits.now }
    requires at { IsListAt limits.now at }
    ensures event { result.0 ≡ list_event limits.now at old }
    ensures next { next_in result.1
        ≡ behind_list loc (list_place at) (list_life at) (list_next limits.now at old) }
    ensures stands { IsNext limits.now (next_in result.1) }
{
    let mut walk = ListWalk::at(thread, at, limits);
    let event = walk.answer(old);
    let next = match walk.outcome() {
        None => match walk.position() {
            Some(at) => NoteStep::NotesOn(NoteAt::Seek { loc, at }),
            None => unreachable!(),
        },
        Some(ListOutcome::Own { log, header }) => {
            with_log(loc, place_of(at), life_of(at), log, header)
        }
        Some(ListOutcome::Full(what)) => NoteStep::FailsNote(what),
    };
    (event, next)
}

/// What the answer means to a note at a position, and what comes next.
pub(crate) fn step_of(limits: &Limits, thread: u8, at: NoteAt, old: u64) -> (Event, NoteStep)
    requires thread { thread < 16 }
    requires at { IsNoteAt limits.now at }
    ensures event { result.0 ≡ note_event limits.now at old }
    ensures next { next_in result.1 ≡ note_next limits.now at old }
    ensures stands { IsNext limits.now (next_in result.1) }
{
    match at {
        NoteAt::LoadPage { loc, value } => held_loaded(limits, loc, value, old),
        NoteAt::LoadBlock { loc, place, start } => found_loaded(loc, place, start, old),
        NoteAt::Seek { loc, at } => sought(limits, thread, loc, at, old),
        NoteAt::StoreLife {
            loc,
            place,
            life,
            log,
        } => (
            Event::Log,
            NoteStep::NotesOn(NoteAt::StoreEntry {
                loc,
                place,
                life,
                log,
                used: 0,
            }),
        ),
        NoteAt::StoreEntry {
            loc,
            place,
            life,
            log,
            used,
        } => (
            Event::Log,
            NoteStep::NotesOn(NoteAt::CountEntry {
                loc,
                place,
                life,
                log,
                used,
            }),
        ),
        NoteAt::CountEntry {
            loc,
            place,
            life,
            log: _,
            used: _,
        } => (Event::Noted { place, life, loc }, NoteStep::HasNoted),
    }
}

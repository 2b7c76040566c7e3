//! The rows of a free as code: the operation of each position, what its answer means, and what comes next.

ghost use Rattle.std.specs.Prelude.{◌≡◌, ℕ, ◌+◌, ◌*◌, ◌<◌, true};
ghost use Rattle.ds_map.specs.Bounds.{Bounds};
ghost use Rattle.ds_map.specs.Blocks.{page_at};
ghost use Rattle.ds_map.specs.Words.{first_page_word, first_block_word, words};
ghost use Rattle.ds_step.specs.declared.Event.TheVariants.{Trap};
ghost use Rattle.ds_step.specs.declared.FreeTrap.TheVariants.{DoubleFree};
ghost use Rattle.ds_plain.specs.Freeing.{start_seen, start_loaded, behind_start_load, is_freeable};
ghost use Rattle.ds_plain.specs.Freeing.{life_seen, life_loaded, life_swapped, behind_life_load, behind_life_swap};
ghost use Rattle.ds_plain.specs.Freeing.{free_op, free_row, free_event, free_next};
ghost use Rattle.ds_plain.specs.Reached.{IsFreeAt};
ghost use Rattle.ds_plain.specs.Operations.{load_of, store_of, swap_of};
ghost use Rattle.ds_mark.specs.declared.outcome.FreeStep.TheVariants.{FailsFree};
ghost use Rattle.ds_mark.specs.Walks.{next_in, IsNext};

use crate::outcome::FreeStep;
use crate::seen::{BlockWord, PageWord, life_seen, start_seen};
use ds_map::Limits;
use ds_pages::{BlockState, state_word};
use ds_plain::FreeAt;
use ds_step::{Event, FreeTrap, OpKind, WordOp};

/// The address of the heap's first byte.
const HEAP_START: u64 = 0x100_0000;

/// The number of bytes of a page.
const PAGE_BYTES: u64 = 4096;

/// The table's word of page 0. Those of the other pages follow it, and then those of the places.
const FIRST_PAGE_WORD: u32 = 384;

// OPERATIONS AND ROWS

/// A load of a word of the table.
fn load(word: u32) -> WordOp
    ensures { result ≡ load_of word }
{
    WordOp {
        kind: OpKind::Load,
        word,
        a: 0,
        b: 0,
    }
}

/// A store of a value to a word of the table.
fn store(word: u32, value: u64) -> WordOp
    ensures { result ≡ store_of word value }
{
    WordOp {
        kind: OpKind::Store,
        word,
        a: value,
        b: 0,
    }
}

/// A compare-and-swap of a word of the table.
fn swap(word: u32, expected: u64, new: u64) -> WordOp
    ensures { result ≡ swap_of word expected new }
{
    WordOp {
        kind: OpKind::Cas,
        word,
        a: expected,
        b: new,
    }
}

/// The table's word of the page of an address.
fn page_word_at(limits: &Limits, address: u64) -> u32
    requires { is_freeable limits.now address ≡ true }
    ensures word { result ≡ first_page_word + page_at address }
    ensures below { result < words limits.now }
{
    let _pages = limits.pages();
    FIRST_PAGE_WORD + ((address - HEAP_START) / PAGE_BYTES) as u32
}

/// The table's word of the block of a place.
fn block_word_at(limits: &Limits, place: u32) -> u32
    requires { place < 256 * limits.now.pages }
    ensures word { result ≡ first_block_word limits.now + place }
    ensures below { result < words limits.now }
{
    FIRST_PAGE_WORD + limits.pages() + place
}

/// The operation that a free makes at a position.
pub(crate) fn op_of(limits: &Limits, at: FreeAt) -> WordOp
    requires { IsFreeAt limits.now at }
    ensures op { result ≡ free_op limits.now at }
    ensures word { result.word < words limits.now }
{
    match at {
        FreeAt::LoadPage { address } => load(page_word_at(limits, address)),
        FreeAt::LoadBlock { address: _, place } => load(block_word_at(limits, place)),
        FreeAt::SwapBlock {
            address: _,
            place,
            life,
        } => swap(
            block_word_at(limits, place),
            state_word(life, BlockState::Live),
            state_word(life, BlockState::Freeing),
        ),
        FreeAt::StoreFree { place, life } => store(
            block_word_at(limits, place),
            state_word(life, BlockState::Free),
        ),
    }
}

/// The number of the row that a free makes at a position.
pub(crate) fn row_of(at: FreeAt) -> u8
    ensures { result ≡ free_row at }
{
    match at {
        FreeAt::LoadPage { address: _ } => 61,
        FreeAt::LoadBlock {
            address: _,
            place: _,
        } => 62,
        FreeAt::SwapBlock {
            address: _,
            place: _,
            life: _,
        } => 63,
        FreeAt::StoreFree { place: _, life: _ } => 74,
    }
}

// WHAT ITS ANSWERS MEAN, AND WHAT COMES NEXT

/// That a free fails, since the block is not live in the life in which it saw it: its word was this one.
fn double(old: u64) -> (Event, FreeStep)
    ensures event { result.0 ≡ Trap }
    ensures next { result.1 ≡ FailsFree (DoubleFree old) }
{
    (
        Event::Trap,
        FreeStep::FailsFree(FreeTrap::DoubleFree { seen: old }),
    )
}

/// What the word of the page means to a free that loaded it, and what comes next.
fn start_loaded(limits: &Limits, address: u64, old: u64) -> (Event, FreeStep)
    requires { is_freeable limits.now address ≡ true }
    ensures event { result.0 ≡ start_loaded (start_seen address old) }
    ensures next { next_in result.1 ≡ behind_start_load address (start_seen address old) }
    ensures stands { IsNext limits.now (next_in result.1) }
{
    match start_seen(limits, address, old) {
        PageWord::StartOf(place) => (
            Event::Log,
            FreeStep::FreesOn(FreeAt::LoadBlock { address, place }),
        ),
        PageWord::NoStart => (Event::Trap, FreeStep::FailsFree(FreeTrap::BadFree)),
        PageWord::NoPageWord => (Event::Log, FreeStep::FreesOn(FreeAt::LoadPage { address })),
    }
}

/// What the word of the block means to a free that loaded it, and what comes next.
fn life_loaded(address: u64, place: u32, old: u64) -> (Event, FreeStep)
    ensures event { result.0 ≡ life_loaded (life_seen old) }
    ensures next { next_in result.1 ≡ behind_life_load address place old (life_seen old) }
    ensures stands { (lim : Bounds) → is_freeable lim address ≡ true → place < 256 * lim.pages
        → IsNext lim (next_in result.1) }
{
    match life_seen(old) {
        BlockWord::LiveIn(life) => (
            Event::Log,
            FreeStep::FreesOn(FreeAt::SwapBlock {
                address,
                place,
                life,
            }),
        ),
        BlockWord::NotLive => double(old),
        BlockWord::NoBlockWord => (
            Event::Log,
            FreeStep::FreesOn(FreeAt::LoadBlock { address, place }),
        ),
    }
}

/// What the word of the block means to a free that would take it, and what comes next.
fn life_swapped(address: u64, place: u32, life: u32, old: u64) -> (Event, FreeStep)
    ensures event { result.0 ≡ life_swapped place life (life_seen old) }
    ensures next { next_in result.1 ≡ behind_life_swap address place life old (life_seen old) }
    ensures stands { (lim : Bounds) → is_freeable lim address ≡ true → place < 256 * lim.pages
        → IsNext lim (next_in result.1) }
{
    match life_seen(old) {
        BlockWord::LiveIn(seen) if seen == life => {
            (
                Event::BeginFree { place, life },
                FreeStep::FreesOn(FreeAt::StoreFree { place, life }),
            )
        }
        BlockWord::LiveIn(_) => double(old),
        BlockWord::NotLive => double(old),
        BlockWord::NoBlockWord => (
            Event::Log,
            FreeStep::FreesOn(FreeAt::SwapBlock {
                address,
                place,
                life,
            }),
        ),
    }
}

/// What the answer means to a free at a position, and what comes next.
pub(crate) fn step_of(limits: &Limits, at: FreeAt, old: u64) -> (Event, FreeStep)
    requires { IsFreeAt limits.now at }
    ensures event { result.0 ≡ free_event at old }
    ensures next { next_in result.1 ≡ free_next at old }
    ensures stands { IsNext limits.now (next_in result.1) }
{
    match at {
        FreeAt::LoadPage { address } => start_loaded(limits, address, old),
        FreeAt::LoadBlock { address, place } => life_loaded(address, place, old),
        FreeAt::SwapBlock {
            address,
            place,
            life,
        } => life_swapped(address, place, life, old),
        FreeAt::StoreFree { place, life: _ } => (Event::EndFree { place }, FreeStep::Freed),
    }
}

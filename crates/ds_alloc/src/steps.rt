//! The rows of a malloc as code: the operation of each position, what its answer means, and what comes next.

ghost use Rattle.std.specs.Prelude.{◌≡◌, suc, ◌-◌, ◌^◌, ◌<◌, ◌≤◌};
ghost use Rattle.ds_map.specs.Words.{words};
ghost use Rattle.ds_map.specs.Blocks.{class_blocks, index_of, block_start};
ghost use Rattle.ds_step.specs.declared.Event.TheVariants.{Taken, TakenPage};
ghost use Rattle.ds_plain.specs.declared.AllocAt.TheVariants.{LoadBlock};
ghost use Rattle.ds_plain.specs.Searching.{Looks, Takes, page_in, first_index, place_in_search};
ghost use Rattle.ds_plain.specs.Searching.{behind_page, behind_other_page, behind_block};
ghost use Rattle.ds_plain.specs.Searching.{page_seen, page_loaded, page_swapped, behind_page_load, behind_page_swap};
ghost use Rattle.ds_plain.specs.Searching.{block_seen, block_loaded, block_swapped, taken};
ghost use Rattle.ds_plain.specs.Searching.{behind_block_load, behind_block_swap};
ghost use Rattle.ds_plain.specs.Operations.{load_of, swap_of};
ghost use Rattle.ds_plain.specs.Searching.{alloc_op, alloc_row, alloc_event, alloc_next};
ghost use Rattle.ds_plain.specs.Reached.{IsSearch, IsLooked, IsAllocAt};
ghost use Rattle.ds_alloc.specs.Walks.{next_in};

use crate::outcome::AllocStep;
use crate::places::{
    block_word_in, end_index, first_index, page_in, page_word_in, place_in_search, visits,
};
use crate::seen::{BlockWord, block_seen};
use ds_map::Limits;
use ds_pages::{BlockState, is_page_word, start_of, state_word};
use ds_plain::{AllocAt, Search};
use ds_step::{Event, OpKind, WordOp};

// OPERATIONS AND ROWS

/// A load of a word of the table.
fn load(word: u32) -> WordOp
    ensures { result ≡ load_of word }
{
    WordOp {
        kind: OpKind::Load,
        word,
        a: 0,
        b: 0,
    }
}

/// A compare-and-swap of a word of the table.
fn swap(word: u32, expected: u64, new: u64) -> WordOp
    ensures { result ≡ swap_of word expected new }
{
    WordOp {
        kind: OpKind::Cas,
        word,
        a: expected,
        b: new,
    }
}

/// The operation that a malloc makes at a position.
pub(crate) fn op_of(limits: &Limits, at: AllocAt) -> WordOp
    requires { IsAllocAt limits.now at }
    ensures op { result ≡ alloc_op limits.now at }
    ensures word { result.word < words limits.now }
{
    match at {
        AllocAt::LoadPage { search } => load(page_word_in(limits, search)),
        AllocAt::SwapPage { search } => swap(
            page_word_in(limits, search),
            0,
            u64::from(search.class) + 1,
        ),
        AllocAt::LoadBlock { search, index } => load(block_word_in(limits, search, index)),
        AllocAt::SwapBlock {
            search,
            index,
            life,
        } => swap(
            block_word_in(limits, search, index),
            state_word(life, BlockState::Free),
            state_word(life + 1, BlockState::Live),
        ),
    }
}

/// The number of the row that a malloc makes at a position.
pub(crate) fn row_of(at: AllocAt) -> u8
    ensures { result ≡ alloc_row at }
{
    match at {
        AllocAt::LoadPage { search: _ } => 20,
        AllocAt::SwapPage { search: _ } => 21,
        AllocAt::LoadBlock {
            search: _,
            index: _,
        } => 22,
        AllocAt::SwapBlock {
            search: _,
            index: _,
            life: _,
        } => 23,
    }
}

// WHERE IT GOES ON

/// What comes of a malloc that is through with its page.
fn behind_page(limits: &Limits, search: Search) -> AllocStep
    requires { search.passed ≤ limits.now.pages }
    ensures { next_in result ≡ behind_page limits.now search }
{
    let most = visits(limits, search);
    if search.passed + 1 < most {
        let search = Search {
            passed: search.passed + 1,
            ..search
        };
        AllocStep::Looks(AllocAt::LoadPage { search })
    } else {
        AllocStep::TakesNone
    }
}

/// What comes of a malloc that is through with its page, which has another class.
fn behind_other_page(limits: &Limits, search: Search) -> AllocStep
    requires { search.passed ≤ limits.now.pages }
    ensures { next_in result ≡ behind_other_page limits.now search }
{
    let again = search.again && search.passed != 0;
    behind_page(limits, Search { again, ..search })
}

/// What comes of a malloc that is through with the block of this index.
fn behind_block(limits: &Limits, search: Search, index: u32) -> AllocStep
    requires { IsLooked limits.now search index }
    ensures { next_in result ≡ behind_block limits.now search index }
{
    if index + 1 < end_index(limits, search) {
        AllocStep::Looks(AllocAt::LoadBlock {
            search,
            index: index + 1,
        })
    } else {
        behind_page(limits, search)
    }
}

// WHAT ITS ANSWERS MEAN, AND WHAT COMES NEXT

/// What comes of a malloc whose page has the class that it wants.
fn first_block(search: Search) -> AllocStep
    ensures { next_in result ≡ Looks (LoadBlock search (first_index search)) }
{
    let index = first_index(search);
    AllocStep::Looks(AllocAt::LoadBlock { search, index })
}

/// That a malloc passes over its page, which has another class, and what comes next.
fn other_page(limits: &Limits, search: Search) -> (Event, AllocStep)
    requires { IsSearch limits.now search }
    ensures event { result.0 ≡ TakenPage (page_in limits.now search) }
    ensures next { next_in result.1 ≡ behind_other_page limits.now search }
{
    let page = page_in(limits, search);
    (Event::TakenPage { page }, behind_other_page(limits, search))
}

/// What the word of its page means to a malloc that loaded it, and what comes next.
fn page_loaded(limits: &Limits, search: Search, old: u64) -> (Event, AllocStep)
    requires { IsSearch limits.now search }
    ensures event { result.0 ≡ page_loaded limits.now search (page_seen search.class old) }
    ensures next { next_in result.1 ≡ behind_page_load limits.now search (page_seen search.class old) }
{
    if old == 0 {
        return (Event::Log, AllocStep::Looks(AllocAt::SwapPage { search }));
    }
    if old == u64::from(search.class) + 1 {
        return (Event::Log, first_block(search));
    }
    if is_page_word(old) {
        return other_page(limits, search);
    }
    (Event::Log, AllocStep::Looks(AllocAt::LoadPage { search }))
}

/// What the word of its page means to a malloc that would give the page its class, and what comes next.
fn page_swapped(limits: &Limits, search: Search, old: u64) -> (Event, AllocStep)
    requires { IsSearch limits.now search }
    ensures event { result.0 ≡ page_swapped limits.now search (page_seen search.class old) }
    ensures next { next_in result.1 ≡ behind_page_swap limits.now search (page_seen search.class old) }
{
    if old == 0 {
        let (page, class) = (page_in(limits, search), search.class);
        return (Event::Assign { page, class }, first_block(search));
    }
    if old == u64::from(search.class) + 1 {
        return (Event::Log, first_block(search));
    }
    if is_page_word(old) {
        return other_page(limits, search);
    }
    (Event::Log, AllocStep::Looks(AllocAt::SwapPage { search }))
}

/// That a malloc passes over the block of this index, which is in use, and what comes next.
fn used(limits: &Limits, search: Search, index: u32) -> (Event, AllocStep)
    requires { IsLooked limits.now search index }
    ensures event { result.0 ≡ Taken (place_in_search limits.now search index) }
    ensures next { next_in result.1 ≡ behind_block limits.now search index }
{
    let place = place_in_search(limits, search, index);
    (Event::Taken { place }, behind_block(limits, search, index))
}

/// What the word of a block means to a malloc that loaded it, and what comes next.
fn block_loaded(limits: &Limits, search: Search, index: u32, old: u64) -> (Event, AllocStep)
    requires { IsLooked limits.now search index }
    ensures event { result.0 ≡ block_loaded limits.now search index (block_seen old) }
    ensures next { next_in result.1 ≡ behind_block_load limits.now search index (block_seen old) }
{
    match block_seen(old) {
        BlockWord::Unused(life) => (
            Event::Log,
            AllocStep::Looks(AllocAt::SwapBlock {
                search,
                index,
                life,
            }),
        ),
        BlockWord::Used => used(limits, search, index),
        BlockWord::NoBlockWord => (
            Event::Log,
            AllocStep::Looks(AllocAt::LoadBlock { search, index }),
        ),
    }
}

/// The address at which the block of a place starts, in a page of this class.
fn block_start(place: u32, class: u8) -> u64
    requires place { place < 2 ^ 20 }
    requires some_class { class < 15 }
    requires block { index_of place < class_blocks class }
    ensures { result ≡ block_start place class }
{
    start_of(place, u64::from(class) + 1)
}

/// That a malloc took the block of this index, which it saw free behind this life.
fn taken(limits: &Limits, search: Search, index: u32, life: u32) -> (Event, AllocStep)
    requires looked { IsLooked limits.now search index }
    requires life { life < 2 ^ 32 - 1 }
    ensures event { result.0 ≡ taken limits.now search index life }
    ensures next { next_in result.1 ≡ Takes search.class (place_in_search limits.now search index) (suc life) }
{
    let (class, life) = (search.class, life + 1);
    let place = place_in_search(limits, search, index);
    let start = block_start(place, class);
    (
        Event::Block { place, start, life },
        AllocStep::Takes { class, place, life },
    )
}

/// What the word of a block means to a malloc that would take it, and what comes next.
fn block_swapped(
    limits: &Limits,
    search: Search,
    index: u32,
    life: u32,
    old: u64,
) -> (Event, AllocStep)
    requires looked { IsLooked limits.now search index }
    requires life { life < 2 ^ 32 - 1 }
    ensures event { result.0 ≡ block_swapped limits.now search index life (block_seen old) }
    ensures next { next_in result.1 ≡ behind_block_swap limits.now search index life (block_seen old) }
{
    match block_seen(old) {
        BlockWord::Unused(seen) if seen == life => taken(limits, search, index, life),
        BlockWord::Unused(seen) => {
            (
                Event::Log,
                AllocStep::Looks(AllocAt::SwapBlock {
                    search,
                    index,
                    life: seen,
                }),
            )
        }
        BlockWord::Used => used(limits, search, index),
        BlockWord::NoBlockWord => (
            Event::Log,
            AllocStep::Looks(AllocAt::SwapBlock {
                search,
                index,
                life,
            }),
        ),
    }
}

/// What the answer means to a malloc at a position, and what comes next.
pub(crate) fn step_of(limits: &Limits, at: AllocAt, old: u64) -> (Event, AllocStep)
    requires { IsAllocAt limits.now at }
    ensures event { result.0 ≡ alloc_event limits.now at old }
    ensures next { next_in result.1 ≡ alloc_next limits.now at old }
{
    match at {
        AllocAt::LoadPage { search } => page_loaded(limits, search, old),
        AllocAt::SwapPage { search } => page_swapped(limits, search, old),
        AllocAt::LoadBlock { search, index } => block_loaded(limits, search, index, old),
        AllocAt::SwapBlock {
            search,
            index,
            life,
        } => block_swapped(limits, search, index, life, old),
    }
}

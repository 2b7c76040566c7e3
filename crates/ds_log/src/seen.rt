//! What a note makes of the words of its page and its block.

ghost use Rattle.std.specs.Prelude.{◌≡◌, true};
ghost use Rattle.ds_map.specs.Regions.{heap, lies_in};
ghost use Rattle.ds_plain.specs.Noting.{held_seen};
ghost use Rattle.ds_plain.specs.Freeing.{life_seen};
ghost use Rattle.ds_log.specs.Walks.{held_in, IsWithin, life_in};

use ds_map::Limits;
use ds_pages::{BlockState, block_of, is_page_word, read_state, start_of};

/// What the word of the page says of a value.
pub(crate) enum PageWord {
    /// It points into the block at this place, which starts at this address.
    HeldIn(u32, u64),
    /// It points into no block.
    HeldByNone,
    /// This is no page word.
    NoPageWord,
}

/// What the word of the block says.
pub(crate) enum BlockWord {
    /// The block is live, in this life.
    LiveIn(u32),
    /// It is not.
    NotLive,
    /// This is no block word.
    NoBlockWord,
}

/// What a word says of a value of the heap in its page.
pub(crate) fn held_seen(limits: &Limits, value: u64, word: u64) -> PageWord
    requires { lies_in (heap limits.now) value ≡ true }
    ensures seen { held_in result ≡ held_seen value word }
    ensures within { IsWithin limits.now result }
{
    let _pages = limits.pages();
    if !is_page_word(word) {
        return PageWord::NoPageWord;
    }
    match block_of(value, word) {
        None => PageWord::HeldByNone,
        Some(place) => PageWord::HeldIn(place, start_of(place, word)),
    }
}

/// What a word says of a block.
pub(crate) fn life_seen(word: u64) -> BlockWord
    ensures { life_in result ≡ life_seen word }
{
    match read_state(word) {
        None => BlockWord::NoBlockWord,
        Some((life, state)) => match state {
            BlockState::Free => BlockWord::NotLive,
            BlockState::Live => BlockWord::LiveIn(life),
            BlockState::Freeing => BlockWord::NotLive,
        },
    }
}

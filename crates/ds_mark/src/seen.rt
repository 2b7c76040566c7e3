//! What a free makes of the words of its page and its block.

ghost use Rattle.std.specs.Prelude.{◌≡◌, true};
ghost use Rattle.ds_plain.specs.Freeing.{start_seen, life_seen, is_freeable};
ghost use Rattle.ds_mark.specs.Walks.{start_in, IsWithin, life_in};

use ds_map::Limits;
use ds_pages::{BlockState, is_page_word, read_state, starts_at};

/// What the word of the page says of an address.
pub(crate) enum PageWord {
    /// The block at this place starts there.
    StartOf(u32),
    /// No block does.
    NoStart,
    /// This is no page word.
    NoPageWord,
}

/// What the word of the block says.
pub(crate) enum BlockWord {
    /// The block is live, in this life.
    LiveIn(u32),
    /// It is not.
    NotLive,
    /// This is no block word.
    NoBlockWord,
}

/// What a word says of an address in its page.
pub(crate) fn start_seen(limits: &Limits, address: u64, word: u64) -> PageWord
    requires { is_freeable limits.now address ≡ true }
    ensures seen { start_in result ≡ start_seen address word }
    ensures within { IsWithin limits.now result }
{
    let _pages = limits.pages();
    if !is_page_word(word) {
        return PageWord::NoPageWord;
    }
    match starts_at(address, word) {
        None => PageWord::NoStart,
        Some((place, _)) => PageWord::StartOf(place),
    }
}

/// What a word says of a block.
pub(crate) fn life_seen(word: u64) -> BlockWord
    ensures { life_in result ≡ life_seen word }
{
    match read_state(word) {
        None => BlockWord::NoBlockWord,
        Some((life, state)) => match state {
            BlockState::Free => BlockWord::NotLive,
            BlockState::Live => BlockWord::LiveIn(life),
            BlockState::Freeing => BlockWord::NotLive,
        },
    }
}

//! What a malloc makes of the word of a block.

ghost use Rattle.std.specs.Prelude.{◌≡◌};
ghost use Rattle.ds_plain.specs.Searching.{block_seen};
ghost use Rattle.ds_alloc.specs.Walks.{seen_in, HasNext};

use ds_pages::{BlockState, read_state};

/// What the word of a block says to a malloc.
pub(crate) enum BlockWord {
    /// The block is free, behind this life, and can be taken.
    Unused(u32),
    /// It is in use.
    Used,
    /// This is no block word, or that of the last life that a word can hold.
    NoBlockWord,
}

/// What a word says of a block.
pub(crate) fn block_seen(word: u64) -> BlockWord
    ensures seen { seen_in result ≡ block_seen word }
    ensures has_next { HasNext result }
{
    match read_state(word) {
        None => BlockWord::NoBlockWord,
        Some((life, state)) => match state {
            BlockState::Free if life < u32::MAX => BlockWord::Unused(life),
            BlockState::Free => BlockWord::NoBlockWord,
            BlockState::Live => BlockWord::Used,
            BlockState::Freeing => BlockWord::Used,
        },
    }
}

//! The words of the table that tell of the heap: which size class a page has, which life and state a block, and so which
//! block holds an address or starts there.
//!
//! A page word is 0 where the page has no size class yet, and else one more than that, 1 to 15. A block word is four
//! times the block's life, which counts how often it was given out, and 0, 1 or 2 for its state.
#![tactic(auto)]

mod pages;
mod states;

pub use pages::{block_of, is_page_word, start_of, starts_at};
pub use states::{read_state, state_word};

/// What a block word tells of its block.
#[derive(Clone, Copy, Debug, PartialEq, Eq)]
pub enum BlockState {
    /// It is not given out.
    Free,
    /// It is given out.
    Live,
    /// It is being freed.
    Freeing,
}

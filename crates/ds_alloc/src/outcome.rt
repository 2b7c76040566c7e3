//! What comes of the steps of a malloc.

use ds_plain::AllocAt;

/// What a malloc came to.
#[derive(Clone, Copy, Debug, PartialEq, Eq)]
pub enum AllocOutcome {
    /// It took the block at a place, which is in this life from then on.
    Block { place: u32, life: u32 },
    /// It saw each place of its class to be unavailable.
    Null,
}

/// What came of a step of a malloc.
#[derive(Clone, Copy, Debug)]
pub(crate) enum AllocStep {
    /// It goes on at this position.
    Looks(AllocAt),
    /// It took the block of this size class at a place, which is in this life from then on.
    Takes { class: u8, place: u32, life: u32 },
    /// It saw each place of its class to be unavailable.
    TakesNone,
}

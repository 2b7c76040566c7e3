//! What comes of the steps of a free.

use ds_plain::FreeAt;
use ds_step::FreeTrap;

/// What a free came to.
#[derive(Clone, Copy, Debug, PartialEq, Eq)]
pub enum FreeOutcome {
    /// The block is free again.
    Done,
    /// It cannot be freed.
    Trap(FreeTrap),
}

/// What came of a step of a free.
#[derive(Clone, Copy, Debug)]
pub(crate) enum FreeStep {
    /// It goes on at this position.
    FreesOn(FreeAt),
    /// The block is free again.
    Freed,
    /// It cannot be freed.
    FailsFree(FreeTrap),
}

//! What comes of the steps of an access.

use ds_plain::AccessAt;

/// What came of a step of an access.
#[derive(Clone, Copy, Debug)]
pub(crate) enum AccessStep {
    /// It goes on at this position.
    AccessesOn(AccessAt),
    /// It is done, and the thread is told this.
    Tells(u64),
}

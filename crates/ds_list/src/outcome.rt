//! What comes of the steps of a thread that looks for its log.

use ds_plain::ListAt;
use ds_step::FullWhat;

/// What it came to.
#[derive(Clone, Copy, Debug, PartialEq, Eq)]
pub enum ListOutcome {
    /// It has this log, whose header is this.
    Own { log: u32, header: u64 },
    /// A table is full.
    Full(FullWhat),
}

/// What came of a step of a thread that looks for its log.
#[derive(Clone, Copy, Debug)]
pub(crate) enum ListStep {
    /// It goes on at this position.
    ListsOn(ListAt),
    /// It has this log, whose header is this.
    Owns { log: u32, header: u64 },
    /// A table is full.
    FailsList(FullWhat),
}

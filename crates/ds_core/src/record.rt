//! What a call of the program leaves.

ghost use Rattle.std.specs.Prelude.{◌≡◌, [], None};

use crate::lists::{Order, Stops, Traces};
use std::alloc::Global;

/// The record of a run: by thread number 16 stops and 16 traces, and the order of the steps where the
/// machine that ran them knows one. Where nothing was run all three parts are empty.
#[derive(Debug, Drop)]
pub struct RunRecord {
    pub stops: Stops,
    pub traces: Traces,
    pub order: Option<Order>,
}

impl RunRecord {
    /// The record where nothing was run.
    pub fn empty(alloc: Global) -> RunRecord
        ensures stops { result.stops ≡ [] }
        ensures traces { result.traces ≡ [] }
        ensures order { result.order ≡ None }
    {
        RunRecord {
            stops: Stops::new(Vec::new(alloc)),
            traces: Traces::new(alloc),
            order: None,
        }
    }
}

/// How a call of the program ended: its exit status, and the record of what it ran.
#[derive(Debug, Drop)]
pub struct Ended {
    pub status: u8,
    pub run: RunRecord,
}

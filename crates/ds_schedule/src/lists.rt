//! Schedules, and their lists of cues.

ghost use Rattle.std.specs.Prelude.{◌≡◌, []};

use ds_plain::Cue;
use std::alloc::Global;
use std::marker::Model;

/// Cues in the order in which they are followed.
#[derive(Debug, Drop)]
pub struct Cues {
    cues: Vec<Cue>,
}

impl Model for Cues {
    ghost use Rattle.std.specs.Prelude.{List};
    ghost use Rattle.ds_plain.specs.declared.Cue.{Cue};

    ghost Value = { List Cue };

    ghost view = { λ c. c.cues.items };
}

impl Cues {
    /// The list of these cues.
    pub fn new(cues: Vec<Cue>) -> Cues
        ensures { result ≡ cues.items }
    {
        Cues { cues }
    }

    /// The cues, the first to be followed first.
    pub fn as_slice(&self) -> &[Cue]
        ensures { result.now ≡ self.now }
    {
        self.cues.as_slice()
    }
}

/// Whose turn it is in a replay: the cues are followed in order, and then each turn is drawn.
#[derive(Debug, Drop)]
pub struct Schedule {
    /// The cues that it begins with.
    pub cues: Cues,
    /// Where the numbers that are drawn begin.
    pub seed: u64,
}

impl Schedule {
    /// The schedule that draws each turn.
    pub fn seeded(alloc: Global, seed: u64) -> Schedule
        ensures cues { result.cues ≡ [] }
        ensures seed { result.seed ≡ seed }
    {
        Schedule {
            cues: Cues::new(Vec::new(alloc)),
            seed,
        }
    }
}

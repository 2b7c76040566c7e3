//! The threads that may have a turn.

ghost use Rattle.std.specs.Prelude.{◌≡◌, ◌<◌, ◌≤◌, ◌%◌, Some, length, slice_get};
ghost use Rattle.ds_schedule.specs.Kept.{may_by, threads_from};

use std::marker::Model;

/// How many threads there are.
const THREADS: u8 = 16;

/// Whether the thread was given out, of so many, and has not ended.
pub(crate) fn may_by(given: u8, ended: &[bool; 16], thread: u8) -> bool
    requires { given ≤ 16 }
    ensures { result ≡ may_by given ended.now thread }
{
    thread < given && !ended[thread as usize]
}

/// The threads that may have a turn, in number order. Contracts see the list of their numbers.
#[derive(Drop)]
pub(crate) struct Turning {
    threads: [u8; 16],
    count: u64,
}

impl Model for Turning {
    ghost use Rattle.std.specs.Prelude.{List, ℕ, ◌≤◌, take};

    ghost Value = { List ℕ };

    ghost view = { λ t. take t.count t.threads };

    ghost invariant = { λ t. t.count ≤ 16 };
}

impl Turning {
    /// The threads below this number that have not ended.
    #[tactic(auto, using(crate::proofs::Turning::from_each))]
    pub(crate) fn of(given: u8, ended: &[bool; 16]) -> Turning
        requires { given ≤ 16 }
        ensures { result ≡ threads_from (may_by given ended.now) 0 }
    {
        let mut threads = [0; 16];
        let mut count = 0;
        for thread in 0..THREADS {
            if may_by(given, ended, thread) {
                threads[count as usize] = thread;
                count += 1;
            }
        }
        Turning { threads, count }
    }

    /// The one of them that a number draws.
    pub(crate) fn drawn(&self, number: u64) -> u8
        requires { 0 < length self.now }
        ensures { slice_get self.now (number % length self.now) ≡ Some result }
    {
        if self.count == 1 {
            return self.threads[0];
        }
        self.threads[(number % self.count) as usize]
    }
}

//! What comes of a step of a thread that waits for another one, and what the step means.

ghost use Rattle.std.specs.Prelude.{◌≡◌};
ghost use Rattle.ds_plain.specs.Joining.{is_bad_join, join_row, join_event, join_next, IsJoinAt};
ghost use Rattle.ds_actor.specs.Actors.{join_in, IsJoinStep};

use ds_plain::JoinAt;
use ds_step::Event;

/// How many threads there are.
const THREADS: u64 = 16;

/// The start word of a thread that has ended.
const ENDED: u64 = 2;

/// What comes of a step of a thread that waits for another one.
pub(crate) enum JoinStep {
    /// It goes on with this row.
    JoinsOn(JoinAt),
    /// The other one has ended.
    Joined,
    /// This number cannot be joined.
    FailsJoin(u64),
}

/// Whether a thread cannot join a number, where so many were given out.
fn is_bad_join(thread: u8, number: u64, given: u64) -> bool
    ensures { result ≡ is_bad_join thread number given }
{
    number == u64::from(thread) || (number >= THREADS || number >= given)
}

/// What comes of its step at this position, by the answer.
pub(crate) fn join_step(thread: u8, at: JoinAt, old: u64) -> JoinStep
    requires { IsJoinAt at }
    ensures exact { join_in result ≡ join_next thread at old }
    ensures reached { IsJoinStep result }
{
    match at {
        JoinAt::LoadGiven { number } => {
            if is_bad_join(thread, number, old) {
                return JoinStep::FailsJoin(number);
            }
            JoinStep::JoinsOn(JoinAt::LoadEnded { n: number as u8 })
        }
        JoinAt::LoadEnded { n } => {
            if old == ENDED {
                return JoinStep::Joined;
            }
            JoinStep::JoinsOn(JoinAt::LoadEnded { n })
        }
    }
}

/// The number of its row, and what the answer means there.
pub(crate) fn join_meaning_of(thread: u8, at: JoinAt, old: u64) -> (u8, Event)
    ensures row { result.0 ≡ join_row at }
    ensures event { result.1 ≡ join_event thread at old }
{
    match at {
        JoinAt::LoadGiven { number } if is_bad_join(thread, number, old) => (10, Event::Trap),
        JoinAt::LoadGiven { .. } => (10, Event::Log),
        JoinAt::LoadEnded { n } if old == ENDED => (11, Event::Join { n }),
        JoinAt::LoadEnded { .. } => (11, Event::Log),
    }
}

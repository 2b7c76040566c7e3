//! What comes of a step of a thread that starts another one, and what the step means.

ghost use Rattle.std.specs.Prelude.{◌≡◌};
ghost use Rattle.ds_plain.specs.Spawning.{spawn_row, spawn_event, spawn_next, IsSpawnAt};
ghost use Rattle.ds_actor.specs.Actors.{spawn_in, IsSpawnStep};

use ds_map::Limits;
use ds_plain::SpawnAt;
use ds_step::Event;

/// How many threads there are.
const THREADS: u64 = 16;

/// What `pthread_create` answers where no number is left.
const NO_THREAD: u64 = 11;

/// What comes of a step of a thread that starts another one.
pub(crate) enum SpawnStep {
    /// It goes on with this row.
    SpawnsOn(SpawnAt),
    /// It is done, and the thread is told this.
    Tells(u64),
}

/// What comes of its step at this position, by the answer.
pub(crate) fn spawn_step(limits: &Limits, at: SpawnAt, old: u64) -> SpawnStep
    requires { IsSpawnAt limits.now at }
    ensures exact { spawn_in result ≡ spawn_next at old }
    ensures reached { IsSpawnStep limits.now result }
{
    match at {
        SpawnAt::DrawThread { loc, function, arg } if old < THREADS => {
            SpawnStep::SpawnsOn(SpawnAt::StoreNumber {
                n: old as u8,
                loc,
                function,
                arg,
            })
        }
        SpawnAt::DrawThread { .. } => SpawnStep::Tells(NO_THREAD),
        SpawnAt::StoreNumber {
            n,
            loc: _,
            function,
            arg,
        } => SpawnStep::SpawnsOn(SpawnAt::StoreFunction { n, function, arg }),
        SpawnAt::StoreFunction {
            n,
            function: _,
            arg,
        } => SpawnStep::SpawnsOn(SpawnAt::StoreArgument { n, arg }),
        SpawnAt::StoreArgument { n, arg: _ } => SpawnStep::SpawnsOn(SpawnAt::OpenThread { n }),
        SpawnAt::OpenThread { n: _ } => SpawnStep::Tells(0),
    }
}

/// The number of its row, and what the answer means there.
pub(crate) fn spawn_meaning_of(at: SpawnAt, old: u64) -> (u8, Event)
    ensures row { result.0 ≡ spawn_row at }
    ensures event { result.1 ≡ spawn_event at old }
{
    match at {
        SpawnAt::DrawThread {
            loc: _,
            function,
            arg,
        } if old < THREADS => (
            5,
            Event::Spawn {
                n: old as u8,
                function,
                arg,
            },
        ),
        SpawnAt::DrawThread { .. } => (5, Event::SpawnRefused),
        SpawnAt::StoreNumber { n, loc, .. } => (
            9,
            Event::Store {
                loc,
                value: u64::from(n),
            },
        ),
        SpawnAt::StoreFunction { .. } => (6, Event::Log),
        SpawnAt::StoreArgument { .. } => (7, Event::Log),
        SpawnAt::OpenThread { .. } => (8, Event::Log),
    }
}

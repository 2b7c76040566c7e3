//! What comes of a step of a thread that has not begun.

ghost use Rattle.std.specs.Prelude.{◌≡◌, ℕ, ◌^◌, ◌&&◌, nat_lt, slice_get, if◌then◌else◌};
ghost use Rattle.ds_map.specs.Bounds.{Bounds};
ghost use Rattle.ds_plain.specs.declared.StartAt.TheVariants.{LoadStart, LoadFunction, LoadArgument};
ghost use Rattle.ds_plain.specs.Starting.{StartNext, StartsOn, may_begin, start_next};
ghost use Rattle.ds_code.specs.CodeProgram.{may_start, program_of};
ghost use Rattle.ds_actor.specs.Actors.{start_in};

use ds_code::Code;
use ds_plain::StartAt;

/// What comes of a step of a thread that has not begun.
pub(crate) enum StartStep {
    /// It goes on with this row.
    StartsOn(StartAt),
    /// It begins this function with this argument.
    Begins { function: u32, argument: u64 },
}

/// What comes of its start word.
fn opened(code: &Code, thread: u8, old: u64) -> StartStep
    ensures { (lim : Bounds) → start_in result ≡ start_next (program_of lim code.now) thread LoadStart old }
{
    if old != 1 {
        return StartStep::StartsOn(StartAt::LoadStart);
    }
    if thread == 0 {
        return StartStep::Begins {
            function: code.main(),
            argument: 0,
        };
    }
    StartStep::StartsOn(StartAt::LoadFunction)
}

/// Whether a word is the number of a function on which a thread may be started.
fn is_startable(code: &Code, word: u64) -> bool
    ensures { result ≡ nat_lt word (2 ^ 32) && may_start (slice_get code.now.functions word) }
{
    if word >= 1 << 32 {
        return false;
    }
    match code.function(word as u32) {
        None => false,
        Some(function) => function.may_start,
    }
}

/// What comes of the number of its function.
fn learned(code: &Code, old: u64) -> StartStep
    ensures { (thread : ℕ) (lim : Bounds)
        → start_in result ≡ start_next (program_of lim code.now) thread LoadFunction old }
{
    if !is_startable(code, old) {
        return StartStep::StartsOn(StartAt::LoadFunction);
    }
    StartStep::StartsOn(StartAt::LoadArgument {
        function: old as u32,
    })
}

/// What comes of its step at this position, by the answer.
pub(crate) fn start_step(code: &Code, thread: u8, at: StartAt, old: u64) -> StartStep
    ensures { (lim : Bounds) → start_in result ≡ start_next (program_of lim code.now) thread at old }
{
    match at {
        StartAt::LoadStart => opened(code, thread, old),
        StartAt::LoadFunction => learned(code, old),
        StartAt::LoadArgument { function } => StartStep::Begins {
            function,
            argument: old,
        },
    }
}

//! What came of a turn.

ghost use Rattle.std.specs.Prelude.{◌≡◌};
ghost use Rattle.ds_plain.specs.Turns.{is_not_yet};
ghost use Rattle.ds_actor.specs.Actors.{waiting, turn_by, step_in};

use ds_plain::{Position, Stop};
use ds_step::Step;

/// What came of a turn, with the step that was made.
#[derive(Clone, Copy, Debug, PartialEq, Eq)]
pub enum Turn {
    /// The step was made, and the thread goes on.
    Stepped(Step),
    /// The step only saw that the thread must wait: its own start word, before it began, read 0, or that of the thread
    /// that it joins read other than 2.
    NotYet(Step),
    /// The step was the last one of the thread, which has ended with this stop.
    Stopped(Step, Stop),
}

impl Turn {
    /// The step that was made.
    pub fn step(&self) -> Step
        ensures { result ≡ step_in self.now }
    {
        match self {
            Turn::Stepped(step) => *step,
            Turn::NotYet(step) => *step,
            Turn::Stopped(step, _) => *step,
        }
    }
}

/// Whether a step only saw that its thread must wait.
fn is_not_yet(step: Step) -> bool
    ensures { result ≡ is_not_yet step }
{
    (step.row == 1 && step.old == 0) || (step.row == 11 && step.old != 2)
}

/// What a turn came to that was not the thread's last.
fn waiting(step: Step) -> Turn
    ensures { result ≡ waiting step }
{
    if is_not_yet(step) {
        Turn::NotYet(step)
    } else {
        Turn::Stepped(step)
    }
}

/// What a turn came to, by the position at which its step was made.
pub(crate) fn turn_by(position: Position, step: Step) -> Turn
    ensures { result ≡ turn_by position step }
{
    match position {
        Position::Start(_) => waiting(step),
        Position::Access(_) => waiting(step),
        Position::Malloc(_) => waiting(step),
        Position::Note(_) => waiting(step),
        Position::Free(_) => waiting(step),
        Position::Spawn(_) => waiting(step),
        Position::Join(_) => waiting(step),
        Position::DrawPrint { value: _ } => waiting(step),
        Position::StoreEnded { stop } => Turn::Stopped(step, stop),
        Position::Over { stop: _ } => waiting(step),
        Position::NoRow => waiting(step),
    }
}

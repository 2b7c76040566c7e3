//! What a step means for a schedule.

ghost use Rattle.std.specs.Prelude.{◌≡◌};
ghost use Rattle.ds_plain.specs.Turns.{passing_of, is_not_yet, is_end, ends_cue, draw};
ghost use Rattle.ds_schedule.specs.Kept.{gives_thread};

use ds_plain::Cue;
use ds_step::{Event, Step};

/// Whether the event gives out a thread number.
pub(crate) fn is_given(event: Event) -> bool
    ensures { result ≡ gives_thread (passing_of event) }
{
    match event {
        Event::Spawn { .. } => true,
        _ => false,
    }
}

/// Whether the step is its thread's last.
pub(crate) fn is_end(step: &Step) -> bool
    ensures { result ≡ is_end step.now }
{
    match step.event {
        Event::End => true,
        _ => false,
    }
}

/// Whether the step only saw that its thread must wait.
fn is_not_yet(step: &Step) -> bool
    ensures { result ≡ is_not_yet step.now }
{
    match step.row {
        1 => step.old == 0,
        11 => step.old != 2,
        _ => false,
    }
}

/// Whether the step follows the cue to its end.
pub(crate) fn ends_cue(cue: Cue, step: &Step) -> bool
    ensures { result ≡ ends_cue cue step.now }
{
    step.row == cue.until || is_not_yet(step) || is_end(step)
}

/// The number that is drawn behind another one.
pub(crate) fn draw(last: u64) -> u64
    ensures { result ≡ draw last }
{
    last.wrapping_mul(6_364_136_223_846_793_005)
        .wrapping_add(1_442_695_040_888_963_407)
}

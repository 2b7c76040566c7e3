//! What the summary counts.

ghost use Rattle.std.specs.Prelude.{◌≡◌, ◌*◌, ◌+◌, ◌^◌, ◌<◌, length, if◌then◌else◌};
ghost use Rattle.ds_report.specs.Counts.{tally_of, number_of, is_tally, count_in, count_of};
ghost use Rattle.ds_report.specs.declared.counts.Tally.TheVariants.{Malloc, Free, Note, Mark};

use ds_core::Steps;
use ds_step::{Event, Step};

/// What an event counts as.
#[derive(Clone, Copy, Debug, PartialEq, Eq)]
pub enum Tally {
    /// A block was given out.
    Malloc,
    /// A free ended.
    Free,
    /// A pointer was noted.
    Note,
    /// A word was marked.
    Mark,
    /// It is not counted.
    Nothing,
}

/// What an event counts as.
fn tally_of(event: Event) -> Tally
    ensures { result ≡ tally_of event }
{
    match event {
        Event::Block { .. } => Tally::Malloc,
        Event::EndFree { .. } => Tally::Free,
        Event::Noted { .. } => Tally::Note,
        Event::Mark { .. } => Tally::Mark,
        _ => Tally::Nothing,
    }
}

/// The number of a tally among them.
fn number_of(tally: Tally) -> u8
    ensures { result ≡ number_of tally }
{
    match tally {
        Tally::Malloc => 0,
        Tally::Free => 1,
        Tally::Note => 2,
        Tally::Mark => 3,
        Tally::Nothing => 4,
    }
}

/// Whether an event counts as this.
fn is_tally(event: Event, tally: Tally) -> bool
    ensures { result ≡ is_tally tally event }
{
    number_of(tally_of(event)) == number_of(tally)
}

/// A count behind an event, by whether that counts as this.
fn counted(count: u64, event: Event, tally: Tally) -> u64
    requires { count + 1 < 2 ^ 64 }
    ensures { result ≡ (if is_tally tally event then count + 1 else count) }
{
    if is_tally(event, tally) {
        count + 1
    } else {
        count
    }
}

/// How many steps count as each tally that the summary names.
#[derive(Clone, Copy, Debug, PartialEq, Eq)]
pub struct Counts {
    /// The blocks that were given out.
    pub mallocs: u128,
    /// The frees that ended.
    pub frees: u128,
    /// The pointers that were noted.
    pub notes: u128,
    /// The words that were marked.
    pub marks: u128,
}

/// How many steps of a trace count as each.
fn counts_in(steps: &[Step]) -> Counts
    ensures mallocs { result.mallocs ≡ count_in Malloc steps.now }
    ensures frees { result.frees ≡ count_in Free steps.now }
    ensures notes { result.notes ≡ count_in Note steps.now }
    ensures marks { result.marks ≡ count_in Mark steps.now }
    ensures few { (result.mallocs < 2 ^ 64) × (result.frees < 2 ^ 64) × (result.notes < 2 ^ 64)
        × (result.marks < 2 ^ 64) }
{
    let mut mallocs = 0;
    let mut frees = 0;
    let mut notes = 0;
    let mut marks = 0;
    for step in steps {
        mallocs = counted(mallocs, step.event, Tally::Malloc);
        frees = counted(frees, step.event, Tally::Free);
        notes = counted(notes, step.event, Tally::Note);
        marks = counted(marks, step.event, Tally::Mark);
    }
    Counts {
        mallocs: u128::from(mallocs),
        frees: u128::from(frees),
        notes: u128::from(notes),
        marks: u128::from(marks),
    }
}

/// How many steps of all traces count as each.
pub fn counts_of(traces: &[Steps]) -> Counts
    ensures mallocs { result.mallocs ≡ count_of traces.now Malloc }
    ensures frees { result.frees ≡ count_of traces.now Free }
    ensures notes { result.notes ≡ count_of traces.now Note }
    ensures marks { result.marks ≡ count_of traces.now Mark }
{
    let mut all = Counts {
        mallocs: 0,
        frees: 0,
        notes: 0,
        marks: 0,
    };
    for steps in traces {
        let more = counts_in(steps.as_slice());
        all.mallocs += more.mallocs;
        all.frees += more.frees;
        all.notes += more.notes;
        all.marks += more.marks;
    }
    all
}

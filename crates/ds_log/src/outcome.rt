//! What comes of the steps of a note.

use ds_plain::NoteAt;
use ds_step::FullWhat;

/// What a note came to.
#[derive(Clone, Copy, Debug, PartialEq, Eq)]
pub enum NoteOutcome {
    /// The location is noted.
    Noted,
    /// No live block holds the value.
    Skipped,
    /// A table is full.
    Full(FullWhat),
}

/// What came of a step of a note.
#[derive(Clone, Copy, Debug)]
pub(crate) enum NoteStep {
    /// It goes on at this position.
    NotesOn(NoteAt),
    /// The location is noted.
    HasNoted,
    /// No live block holds the value.
    HasSkipped,
    /// A table is full.
    FailsNote(FullWhat),
}

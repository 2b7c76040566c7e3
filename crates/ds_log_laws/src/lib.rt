//! Laws about the logs of notes, each the contract of a function that does nothing.
//!
//! A caller calls the function and uses what it ensures. The laws speak of every program and of every
//! list of traces, whichever code made them.
#![tactic(auto)]

ghost use Rattle.ds_log_laws.specs.Laws.{FullLogsAreDrawn, FullEntriesAreUsed, NotesAreLogged};

use ds_plain_laws::legal_runs_are_plain;

/// Where a thread ended since no log was left, the threads have found more pairs of a place and a thread than there
/// are logs.
pub fn full_logs_are_drawn()
    ensures { FullLogsAreDrawn }
{
    legal_runs_are_plain();
}

/// Where a thread ended since its log had no entry left, it has noted 14 locations for the life of the block that it
/// found last.
pub fn full_entries_are_used()
    ensures { FullEntriesAreUsed }
{
    legal_runs_are_plain();
}

/// At every moment a thread has noted a location for the present life of a block exactly where the words of its log say
/// so.
pub fn notes_are_logged()
    ensures { NotesAreLogged }
{
    legal_runs_are_plain();
}

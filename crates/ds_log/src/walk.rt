//! One note, from its first row to its last.

ghost use Rattle.std.specs.Prelude.{◌≡◌, ℕ, ◌<◌, ◌↔◌, IsSome, IfSome, true};
ghost use Rattle.ds_map.specs.Words.{words};
ghost use Rattle.ds_step.specs.declared.FullWhat.TheVariants.{Logs, Hash};
ghost use Rattle.ds_plain.specs.declared.NoteAt.TheVariants.{LoadPage};
ghost use Rattle.ds_plain.specs.Noting.{NotesOn, HasSkipped, FailsNote, note_op, note_row, note_event, note_next};
ghost use Rattle.ds_plain.specs.Noting.{is_notable, IsNoteAt};
ghost use Rattle.ds_log.specs.Walks.{notes_at, outcome_of, FindsNone, DrawsNone, HasAllUsed};

use crate::outcome::{NoteOutcome, NoteStep};
use crate::steps::{op_of, row_of, step_of};
use ds_map::Limits;
use ds_plain::NoteAt;
use ds_step::{Event, WordOp};
use std::marker::Model;

/// One note: it makes the rows 24 to 31, 38 and 39 of the step table, one after another, until its location is noted,
/// or it has seen that no live block holds the value or that a table is full.
#[derive(Clone, Copy, Debug)]
pub struct NoteWalk {
    limits: Limits,
    thread: u8,
    next: NoteStep,
}

impl Model for NoteWalk {
    ghost use Rattle.std.proofs.Common.{ap};
    ghost use Rattle.ds_log.specs.Walks.{NoteState, state_of, step_in, step_in_next, IsKept};

    ghost Value = { NoteState };

    ghost view = { λ w. state_of w.limits w.thread w.next };

    ghost invariant = { λ w. IsKept w.limits w.thread w.next };

    ghost inverse = { λ s. record { limits = s.lim; thread = s.thread; next = step_in s.next } };

    ghost inverse_ok = { λ w h. ap (λ step. record { limits = w.limits; thread = w.thread; next = step })
        (step_in_next w.next) };
}

impl NoteWalk {
    /// A note of a thread (0 to 15) before its first step: that this value, which points into the heap, was stored at
    /// a location of program memory.
    pub fn new(thread: u8, loc: u32, value: u64, limits: &Limits) -> NoteWalk
        requires thread { thread < 16 }
        requires value { is_notable limits.now loc value ≡ true }
        ensures lim { result.lim ≡ limits.now }
        ensures thread { result.thread ≡ thread }
        ensures next { result.next ≡ NotesOn (LoadPage loc value) }
    {
        NoteWalk::at(thread, NoteAt::LoadPage { loc, value }, limits)
    }

    /// The note of a thread (0 to 15) that stands at this position, which is one that a note reaches.
    pub fn at(thread: u8, at: NoteAt, limits: &Limits) -> NoteWalk
        requires thread { thread < 16 }
        requires at { IsNoteAt limits.now at }
        ensures lim { result.lim ≡ limits.now }
        ensures thread { result.thread ≡ thread }
        ensures next { result.next ≡ NotesOn at }
    {
        let _pages = limits.pages();
        NoteWalk {
            limits: *limits,
            thread,
            next: NoteStep::NotesOn(at),
        }
    }

    /// The operation of its next step. It has not ended.
    pub fn op(&self) -> WordOp
        requires { IsSome (notes_at self.now.next) }
        ensures op { IfSome (notes_at self.now.next) (λ at. result ≡ note_op self.now.lim self.now.thread at) }
        ensures word { result.word < words self.now.lim }
    {
        match self.position() {
            Some(at) => op_of(&self.limits, self.thread, at),
            None => unreachable!(),
        }
    }

    /// The number of the row of its next step. It has not ended.
    pub fn row(&self) -> u8
        requires { IsSome (notes_at self.now.next) }
        ensures { IfSome (notes_at self.now.next) (λ at. result ≡ note_row at) }
    {
        match self.position() {
            Some(at) => row_of(&self.limits, self.thread, at),
            None => unreachable!(),
        }
    }

    /// Takes the answer to its operation, goes on, and says what the step means. It has not ended; the answer may be
    /// any.
    pub fn answer(&mut self, old: u64) -> Event
        requires { IsSome (notes_at self.old.next) }
        ensures lim { self.new.lim ≡ self.old.lim }
        ensures thread { self.new.thread ≡ self.old.thread }
        ensures event { IfSome (notes_at self.old.next) (λ at. result ≡ note_event self.old.lim at old) }
        ensures next { IfSome (notes_at self.old.next) (λ at. self.new.next ≡ note_next self.old.lim at old) }
        ensures skipped { IfSome (notes_at self.old.next) (λ at.
            (self.new.next ≡ HasSkipped) ↔ FindsNone at old) }
        ensures full_logs { IfSome (notes_at self.old.next) (λ at.
            (self.new.next ≡ FailsNote Logs) ↔ DrawsNone self.old.lim at old) }
        ensures full_hash { IfSome (notes_at self.old.next) (λ at.
            (self.new.next ≡ FailsNote Hash) ↔ HasAllUsed at old) }
    {
        match self.next {
            NoteStep::NotesOn(at) => {
                let (event, next) = step_of(&self.limits, self.thread, at, old);
                self.next = next;
                event
            }
            NoteStep::HasNoted => unreachable!(),
            NoteStep::HasSkipped => unreachable!(),
            NoteStep::FailsNote(_) => unreachable!(),
        }
    }

    /// The position at which it stands. `None` exactly where it has ended.
    pub fn position(&self) -> Option<NoteAt>
        ensures exact { result ≡ notes_at self.now.next }
        ensures reached { IfSome result (λ at. IsNoteAt self.now.lim at) }
    {
        match self.next {
            NoteStep::NotesOn(at) => Some(at),
            NoteStep::HasNoted => None,
            NoteStep::HasSkipped => None,
            NoteStep::FailsNote(_) => None,
        }
    }

    /// What it came to. `None` exactly where it has not ended; that it skipped and that a table is full have the
    /// causes that `answer` tells: no live block holds the value, all logs were drawn, or all entries of its log for
    /// this life are used.
    pub fn outcome(&self) -> Option<NoteOutcome>
        ensures { result ≡ outcome_of self.now.next }
    {
        match self.next {
            NoteStep::NotesOn(_) => None,
            NoteStep::HasNoted => Some(NoteOutcome::Noted),
            NoteStep::HasSkipped => Some(NoteOutcome::Skipped),
            NoteStep::FailsNote(what) => Some(NoteOutcome::Full(what)),
        }
    }
}

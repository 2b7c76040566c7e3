//! A thread that looks for its own log of a block, from the first row to the last.

ghost use Rattle.std.specs.Prelude.{◌≡◌, ℕ, ◌*◌, ◌<◌, ◌↔◌, IsSome, IfSome};
ghost use Rattle.ds_map.specs.Words.{words};
ghost use Rattle.ds_step.specs.declared.FullWhat.TheVariants.{Logs, Hash};
ghost use Rattle.ds_plain.specs.declared.ListAt.TheVariants.{LoadHome};
ghost use Rattle.ds_plain.specs.Listing.{ListsOn, Owns, FailsList, list_op, list_row, list_event, list_next};
ghost use Rattle.ds_plain.specs.Listing.{list_life, IsListAt};
ghost use Rattle.ds_list.specs.Walks.{lists_at, outcome_of, IsOwn, DrawsNone, HasAllUsed};

use crate::outcome::{ListOutcome, ListStep};
use crate::steps::{op_of, row_of, step_of};
use ds_map::Limits;
use ds_plain::ListAt;
use ds_step::{Event, WordOp};
use std::marker::Model;

/// A thread that looks for its own log of a block: it makes the rows 26 to 30 of the step table, one after another,
/// until it has the log and its header, or has seen that a table is full.
#[derive(Clone, Copy, Debug)]
pub struct ListWalk {
    limits: Limits,
    thread: u8,
    next: ListStep,
}

impl Model for ListWalk {
    ghost use Rattle.std.proofs.Common.{ap};
    ghost use Rattle.ds_list.specs.Walks.{ListState, state_of, step_in, step_in_next, IsKept};

    ghost Value = { ListState };

    ghost view = { λ w. state_of w.limits w.thread w.next };

    ghost invariant = { λ w. IsKept w.limits w.thread w.next };

    ghost inverse = { λ s. record { limits = s.lim; thread = s.thread; next = step_in s.next } };

    ghost inverse_ok = { λ w h. ap (λ step. record { limits = w.limits; thread = w.thread; next = step })
        (step_in_next w.next) };
}

impl ListWalk {
    /// A thread (0 to 15) that looks for its log of the block at a place, which it found live in this life, before its
    /// first step.
    pub fn new(thread: u8, place: u32, life: u32, limits: &Limits) -> ListWalk
        requires thread { thread < 16 }
        requires place { place < 256 * limits.now.pages }
        ensures lim { result.lim ≡ limits.now }
        ensures thread { result.thread ≡ thread }
        ensures next { result.next ≡ ListsOn (LoadHome place life) }
    {
        ListWalk::at(thread, ListAt::LoadHome { place, life }, limits)
    }

    /// The thread (0 to 15) that stands at this position, which is one that a thread reaches.
    pub fn at(thread: u8, at: ListAt, limits: &Limits) -> ListWalk
        requires thread { thread < 16 }
        requires at { IsListAt limits.now at }
        ensures lim { result.lim ≡ limits.now }
        ensures thread { result.thread ≡ thread }
        ensures next { result.next ≡ ListsOn at }
    {
        let _pages = limits.pages();
        ListWalk {
            limits: *limits,
            thread,
            next: ListStep::ListsOn(at),
        }
    }

    /// The operation of its next step. It has not ended.
    pub fn op(&self) -> WordOp
        requires { IsSome (lists_at self.now.next) }
        ensures op { IfSome (lists_at self.now.next) (λ at. result ≡ list_op self.now.lim self.now.thread at) }
        ensures word { result.word < words self.now.lim }
    {
        match self.position() {
            Some(at) => op_of(&self.limits, self.thread, at),
            None => unreachable!(),
        }
    }

    /// The number of the row of its next step. It has not ended.
    pub fn row(&self) -> u8
        requires { IsSome (lists_at self.now.next) }
        ensures { IfSome (lists_at self.now.next) (λ at. result ≡ list_row at) }
    {
        match self.position() {
            Some(at) => row_of(at),
            None => unreachable!(),
        }
    }

    /// Takes the answer to its operation, goes on, and says what the step means. It has not ended; the answer may be
    /// any.
    pub fn answer(&mut self, old: u64) -> Event
        requires { IsSome (lists_at self.old.next) }
        ensures lim { self.new.lim ≡ self.old.lim }
        ensures thread { self.new.thread ≡ self.old.thread }
        ensures event { IfSome (lists_at self.old.next) (λ at. result ≡ list_event self.old.lim at old) }
        ensures next { IfSome (lists_at self.old.next) (λ at. self.new.next ≡ list_next self.old.lim at old) }
        ensures owned { IfSome (lists_at self.old.next) (λ at. (log header : ℕ) →
            self.new.next ≡ Owns log header → IsOwn self.old.lim (list_life at) log header) }
        ensures full_logs { IfSome (lists_at self.old.next) (λ at.
            (self.new.next ≡ FailsList Logs) ↔ DrawsNone self.old.lim at old) }
        ensures full_hash { IfSome (lists_at self.old.next) (λ at.
            (self.new.next ≡ FailsList Hash) ↔ HasAllUsed at old) }
    {
        match self.next {
            ListStep::ListsOn(at) => {
                let (event, next) = step_of(&self.limits, at, old);
                self.next = next;
                event
            }
            ListStep::Owns { log: _, header: _ } => unreachable!(),
            ListStep::FailsList(_) => unreachable!(),
        }
    }

    /// The position at which it stands. `None` exactly where it has ended.
    pub fn position(&self) -> Option<ListAt>
        ensures exact { result ≡ lists_at self.now.next }
        ensures reached { IfSome result (λ at. IsListAt self.now.lim at) }
    {
        match self.next {
            ListStep::ListsOn(at) => Some(at),
            ListStep::Owns { log: _, header: _ } => None,
            ListStep::FailsList(_) => None,
        }
    }

    /// What it came to. `None` exactly where it has not ended; that a table is full has the cause that `answer` tells:
    /// all logs were drawn, or all entries of its log for this life are used.
    pub fn outcome(&self) -> Option<ListOutcome>
        ensures { result ≡ outcome_of self.now.next }
    {
        match self.next {
            ListStep::ListsOn(_) => None,
            ListStep::Owns { log, header } => Some(ListOutcome::Own { log, header }),
            ListStep::FailsList(what) => Some(ListOutcome::Full(what)),
        }
    }
}

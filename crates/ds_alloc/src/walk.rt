//! One malloc, from its first row to its last.

ghost use Rattle.std.specs.Prelude.{◌≡◌, ℕ, ◌<◌, List, [], ◌↔◌, Some, IsSome, IfSome};
ghost use Rattle.ds_map.specs.Blocks.{places_of_class};
ghost use Rattle.ds_map.specs.Words.{words};
ghost use Rattle.ds_plain.specs.declared.AllocAt.TheVariants.{LoadPage};
ghost use Rattle.ds_plain.specs.Searching.{Looks, search_from, alloc_op, alloc_row, alloc_event, alloc_next};
ghost use Rattle.ds_plain.specs.Reached.{IsPlace, IsAllocAt, left_behind_event};
ghost use Rattle.ds_alloc.specs.declared.outcome.AllocOutcome.TheVariants.{Null};
ghost use Rattle.ds_alloc.specs.Walks.{looks_at, outcome_of, IsTaken, IsLeft};

use crate::outcome::{AllocOutcome, AllocStep};
use crate::steps::{op_of, row_of, step_of};
use ds_alloc_laws::{mallocs_begin, mallocs_have_left, mallocs_look_on};
use ds_map::Limits;
use ds_plain::{AllocAt, Search};
use ds_step::{Event, WordOp};
use std::marker::Model;

/// One malloc: it makes the rows 20 to 23 of the step table, one after another, until it takes a block or has seen
/// each place of its class to be unavailable.
#[derive(Clone, Copy, Debug)]
pub struct AllocWalk {
    limits: Limits,
    next: AllocStep,
}

impl Model for AllocWalk {
    ghost use Rattle.std.proofs.Common.{ap};
    ghost use Rattle.ds_alloc.specs.Walks.{AllocState, state_of, step_in, step_in_next, IsKept};

    ghost Value = { AllocState };

    ghost view = { λ w. state_of w.limits w.next };

    ghost invariant = { λ w. IsKept w.limits w.next };

    ghost inverse = { λ s. record { limits = s.lim; next = step_in s.next } };

    ghost inverse_ok = { λ w h. ap (λ step. record { limits = w.limits; next = step }) (step_in_next w.next) };
}

impl AllocWalk {
    /// A malloc of a thread (0 to 15) for a block of this size class, before its first step. It begins to look at the
    /// place `cursor`, which is one of the class.
    pub fn new(thread: u8, class: u8, cursor: u32, limits: &Limits) -> AllocWalk
        requires thread { thread < 16 }
        requires cursor { IsPlace limits.now class cursor }
        ensures lim { result.lim ≡ limits.now }
        ensures next { result.next ≡ Looks (LoadPage (search_from class cursor)) }
        ensures left { IsLeft result (places_of_class limits.now class) }
    {
        mallocs_begin();
        let _pages = limits.pages();
        let search = Search {
            class,
            first: cursor,
            passed: 0,
            again: cursor % 256 != 0,
        };
        AllocWalk {
            limits: *limits,
            next: AllocStep::Looks(AllocAt::LoadPage { search }),
        }
    }

    /// The malloc that stands at this position, which is one that a malloc reaches.
    pub fn at(at: AllocAt, limits: &Limits) -> AllocWalk
        requires { IsAllocAt limits.now at }
        ensures lim { result.lim ≡ limits.now }
        ensures next { result.next ≡ Looks at }
    {
        let _pages = limits.pages();
        AllocWalk {
            limits: *limits,
            next: AllocStep::Looks(at),
        }
    }

    /// The operation of its next step. It has not ended.
    pub fn op(&self) -> WordOp
        requires { IsSome (looks_at self.now.next) }
        ensures op { IfSome (looks_at self.now.next) (λ at. result ≡ alloc_op self.now.lim at) }
        ensures word { result.word < words self.now.lim }
    {
        match self.position() {
            Some(at) => op_of(&self.limits, at),
            None => unreachable!(),
        }
    }

    /// The number of the row of its next step. It has not ended.
    pub fn row(&self) -> u8
        requires { IsSome (looks_at self.now.next) }
        ensures { IfSome (looks_at self.now.next) (λ at. result ≡ alloc_row at) }
    {
        match self.position() {
            Some(at) => row_of(at),
            None => unreachable!(),
        }
    }

    /// Takes the answer to its operation, goes on, and says what the step means. It has not ended; the answer may be
    /// any.
    pub fn answer(&mut self, old: u64) -> Event
        requires { IsSome (looks_at self.old.next) }
        ensures lim { self.new.lim ≡ self.old.lim }
        ensures event { IfSome (looks_at self.old.next) (λ at. result ≡ alloc_event self.old.lim at old) }
        ensures next { IfSome (looks_at self.old.next) (λ at. self.new.next ≡ alloc_next self.old.lim at old) }
        ensures left { (left : List ℕ) → IsLeft self.old left → IsLeft self.new (left_behind_event result left) }
    {
        mallocs_look_on();
        mallocs_have_left();
        match self.next {
            AllocStep::Looks(at) => {
                let (event, next) = step_of(&self.limits, at, old);
                self.next = next;
                event
            }
            AllocStep::Takes {
                class: _,
                place: _,
                life: _,
            } => unreachable!(),
            AllocStep::TakesNone => unreachable!(),
        }
    }

    /// The position at which it stands. `None` exactly where it has ended.
    pub fn position(&self) -> Option<AllocAt>
        ensures exact { result ≡ looks_at self.now.next }
        ensures reached { IfSome result (λ at. IsAllocAt self.now.lim at) }
    {
        match self.next {
            AllocStep::Looks(at) => Some(at),
            AllocStep::Takes {
                class: _,
                place: _,
                life: _,
            } => None,
            AllocStep::TakesNone => None,
        }
    }

    /// What it came to. `None` exactly where it has not ended, and `Null` exactly where its steps saw each place of
    /// its class to be unavailable.
    pub fn outcome(&self) -> Option<AllocOutcome>
        ensures exact { result ≡ outcome_of self.now.next }
        ensures taken { IsTaken self.now.lim self.now.next }
        ensures null { (left : List ℕ) → IsLeft self.now left → ((result ≡ Some Null) ↔ (left ≡ [])) }
    {
        mallocs_have_left();
        match self.next {
            AllocStep::Looks(_) => None,
            AllocStep::Takes {
                class: _,
                place,
                life,
            } => Some(AllocOutcome::Block { place, life }),
            AllocStep::TakesNone => Some(AllocOutcome::Null),
        }
    }
}

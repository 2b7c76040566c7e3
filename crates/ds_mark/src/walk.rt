//! One free, from its first row to its last.

ghost use Rattle.std.specs.Prelude.{◌≡◌, ℕ, ◌<◌, ◌↔◌, IsSome, IfSome, true};
ghost use Rattle.ds_map.specs.Words.{words};
ghost use Rattle.ds_plain.specs.declared.FreeAt.TheVariants.{LoadPage};
ghost use Rattle.ds_step.specs.declared.FreeTrap.TheVariants.{BadFree, DoubleFree};
ghost use Rattle.ds_plain.specs.Freeing.{FreesOn, FailsFree, is_freeable, free_op, free_row, free_event, free_next};
ghost use Rattle.ds_plain.specs.Reached.{IsFreeAt};
ghost use Rattle.ds_mark.specs.Walks.{frees_at, outcome_of, StartsNone, IsNotLive};

use crate::outcome::{FreeOutcome, FreeStep};
use crate::steps::{op_of, row_of, step_of};
use ds_map::Limits;
use ds_plain::FreeAt;
use ds_step::{Event, WordOp};
use std::marker::Model;

/// One free: it makes the rows 61 to 63 and 74 of the step table, one after another, until its block is free or it has
/// seen why it cannot free it.
#[derive(Clone, Copy, Debug)]
pub struct FreeWalk {
    limits: Limits,
    next: FreeStep,
}

impl Model for FreeWalk {
    ghost use Rattle.std.proofs.Common.{ap};
    ghost use Rattle.ds_mark.specs.Walks.{FreeState, state_of, step_in, step_in_next, IsKept};

    ghost Value = { FreeState };

    ghost view = { λ w. state_of w.limits w.next };

    ghost invariant = { λ w. IsKept w.limits w.next };

    ghost inverse = { λ s. record { limits = s.lim; next = step_in s.next } };

    ghost inverse_ok = { λ w h. ap (λ step. record { limits = w.limits; next = step }) (step_in_next w.next) };
}

impl FreeWalk {
    /// A free of a thread (0 to 15) before its first step. Its address is one of the heap and a multiple of 8.
    pub fn new(thread: u8, address: u64, limits: &Limits) -> FreeWalk
        requires thread { thread < 16 }
        requires address { is_freeable limits.now address ≡ true }
        ensures lim { result.lim ≡ limits.now }
        ensures next { result.next ≡ FreesOn (LoadPage address) }
    {
        FreeWalk::at(FreeAt::LoadPage { address }, limits)
    }

    /// The free that stands at this position, which is one that a free reaches.
    pub fn at(at: FreeAt, limits: &Limits) -> FreeWalk
        requires { IsFreeAt limits.now at }
        ensures lim { result.lim ≡ limits.now }
        ensures next { result.next ≡ FreesOn at }
    {
        let _pages = limits.pages();
        FreeWalk {
            limits: *limits,
            next: FreeStep::FreesOn(at),
        }
    }

    /// The operation of its next step. It has not ended.
    pub fn op(&self) -> WordOp
        requires { IsSome (frees_at self.now.next) }
        ensures op { IfSome (frees_at self.now.next) (λ at. result ≡ free_op self.now.lim at) }
        ensures word { result.word < words self.now.lim }
    {
        match self.position() {
            Some(at) => op_of(&self.limits, at),
            None => unreachable!(),
        }
    }

    /// The number of the row of its next step. It has not ended.
    pub fn row(&self) -> u8
        requires { IsSome (frees_at self.now.next) }
        ensures { IfSome (frees_at self.now.next) (λ at. result ≡ free_row at) }
    {
        match self.position() {
            Some(at) => row_of(at),
            None => unreachable!(),
        }
    }

    /// Takes the answer to its operation, goes on, and says what the step means. It has not ended; the answer may be
    /// any.
    pub fn answer(&mut self, old: u64) -> Event
        requires { IsSome (frees_at self.old.next) }
        ensures lim { self.new.lim ≡ self.old.lim }
        ensures event { IfSome (frees_at self.old.next) (λ at. result ≡ free_event at old) }
        ensures next { IfSome (frees_at self.old.next) (λ at. self.new.next ≡ free_next at old) }
        ensures bad_free { IfSome (frees_at self.old.next) (λ at.
            (self.new.next ≡ FailsFree BadFree) ↔ StartsNone at old) }
        ensures double_free { IfSome (frees_at self.old.next) (λ at. (seen : ℕ) →
            (self.new.next ≡ FailsFree (DoubleFree seen)) ↔ ((seen ≡ old) × IsNotLive at old)) }
    {
        match self.next {
            FreeStep::FreesOn(at) => {
                let (event, next) = step_of(&self.limits, at, old);
                self.next = next;
                event
            }
            FreeStep::Freed => unreachable!(),
            FreeStep::FailsFree(_) => unreachable!(),
        }
    }

    /// The position at which it stands. `None` exactly where it has ended.
    pub fn position(&self) -> Option<FreeAt>
        ensures exact { result ≡ frees_at self.now.next }
        ensures reached { IfSome result (λ at. IsFreeAt self.now.lim at) }
    {
        match self.next {
            FreeStep::FreesOn(at) => Some(at),
            FreeStep::Freed => None,
            FreeStep::FailsFree(_) => None,
        }
    }

    /// What it came to. `None` exactly where it has not ended; a trap has the cause that `answer` tells: no block starts at
    /// the address, or the block is not live in the life in which it was seen.
    pub fn outcome(&self) -> Option<FreeOutcome>
        ensures { result ≡ outcome_of self.now.next }
    {
        match self.next {
            FreeStep::FreesOn(_) => None,
            FreeStep::Freed => Some(FreeOutcome::Done),
            FreeStep::FailsFree(trap) => Some(FreeOutcome::Trap(trap)),
        }
    }
}

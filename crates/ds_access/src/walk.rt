//! One access to program memory, from its first row to its last.

ghost use Rattle.std.specs.Prelude.{◌≡◌, ◌<◌, IsSome, IfSome};
ghost use Rattle.ds_map.specs.Words.{words};
ghost use Rattle.ds_plain.specs.Accessing.{AccessesOn, access_op, access_row, access_event, access_next, IsAccessAt};
ghost use Rattle.ds_access.specs.Walks.{accesses_at, outcome_of};

use crate::outcome::AccessStep;
use crate::steps::{op_of, row_of, step_of};
use ds_map::Limits;
use ds_plain::AccessAt;
use ds_step::{Event, WordOp};
use std::marker::Model;

/// One access to program memory: it makes the rows 14 to 19 of the step table, until it knows what its thread is told.
#[derive(Clone, Copy, Debug)]
pub struct AccessWalk {
    limits: Limits,
    next: AccessStep,
}

impl Model for AccessWalk {
    ghost use Rattle.std.proofs.Common.{ap};
    ghost use Rattle.ds_access.specs.Walks.{AccessState, state_of, step_in, step_in_next, IsKept};

    ghost Value = { AccessState };

    ghost view = { λ w. state_of w.limits w.next };

    ghost invariant = { λ w. IsKept w.limits w.next };

    ghost inverse = { λ s. record { limits = s.lim; next = step_in s.next } };

    ghost inverse_ok = { λ w h. ap (λ step. record { limits = w.limits; next = step }) (step_in_next w.next) };
}

impl AccessWalk {
    /// The access that stands at this position, which is one that an access reaches: its location is that of a program
    /// word, and a part that it changes lies within the word and has fewer than 64 bits.
    pub fn at(at: AccessAt, limits: &Limits) -> AccessWalk
        requires { IsAccessAt limits.now at }
        ensures lim { result.lim ≡ limits.now }
        ensures next { result.next ≡ AccessesOn at }
    {
        AccessWalk {
            limits: *limits,
            next: AccessStep::AccessesOn(at),
        }
    }

    /// The operation of its next step. It has not ended.
    pub fn op(&self) -> WordOp
        requires { IsSome (accesses_at self.now.next) }
        ensures op { IfSome (accesses_at self.now.next) (λ at. result ≡ access_op self.now.lim at) }
        ensures word { result.word < words self.now.lim }
    {
        match self.position() {
            Some(at) => op_of(&self.limits, at),
            None => unreachable!(),
        }
    }

    /// The number of the row of its next step. It has not ended.
    pub fn row(&self) -> u8
        requires { IsSome (accesses_at self.now.next) }
        ensures { IfSome (accesses_at self.now.next) (λ at. result ≡ access_row at) }
    {
        match self.position() {
            Some(at) => row_of(at),
            None => unreachable!(),
        }
    }

    /// Takes the answer to its operation, goes on, and says what the step means. It has not ended; the answer may be
    /// any.
    #[tactic(auto, using(crate::proofs::Bits::in_word))]
    pub fn answer(&mut self, old: u64) -> Event
        requires { IsSome (accesses_at self.old.next) }
        ensures lim { self.new.lim ≡ self.old.lim }
        ensures event { IfSome (accesses_at self.old.next) (λ at. result ≡ access_event at old) }
        ensures next { IfSome (accesses_at self.old.next) (λ at. self.new.next ≡ access_next at old) }
    {
        match self.next {
            AccessStep::AccessesOn(at) => {
                let (event, next) = step_of(at, old);
                self.next = next;
                event
            }
            AccessStep::Tells(_) => unreachable!(),
        }
    }

    /// The position at which it stands. `None` exactly where it has ended.
    pub fn position(&self) -> Option<AccessAt>
        ensures exact { result ≡ accesses_at self.now.next }
        ensures reached { IfSome result (λ at. IsAccessAt self.now.lim at) }
    {
        match self.next {
            AccessStep::AccessesOn(at) => Some(at),
            AccessStep::Tells(_) => None,
        }
    }

    /// What its thread is told: the word that it saw last, and 0 where it only stores. `None` exactly where it has not
    /// ended.
    pub fn outcome(&self) -> Option<u64>
        ensures { result ≡ outcome_of self.now.next }
    {
        match self.next {
            AccessStep::AccessesOn(_) => None,
            AccessStep::Tells(answer) => Some(answer),
        }
    }
}

//! How far a schedule has been followed.

ghost use Rattle.std.specs.Prelude.{◌≡◌, ◌<◌, ◌+◌, true, false, min, Some};
ghost use Rattle.ds_plain.specs.Turns.{Turns, first_turns, next_turn, may_turn, turns_behind, standing_cues};
ghost use Rattle.ds_plain.specs.Turns.{passing_of, chosen, draw};
ghost use Rattle.ds_schedule.specs.Standing.{Standing, StandsAt, main_has_ended};
ghost use Rattle.ds_schedule.specs.Kept.{turns_of, threads_from, cues_after, drawn_after};

use crate::listed::{Turning, may_by};
use crate::lists::Schedule;
use crate::passing::{draw, ends_cue, is_end, is_given};
use ds_plain::Cue;
use ds_step::Step;
use std::marker::Model;

/// How many threads there are.
const THREADS: u8 = 16;

/// How far a schedule has been followed: whose turn it is next.
#[derive(Drop)]
pub struct Progress<'a> {
    cues: &'a [Cue],
    drawn: u64,
    given: u8,
    ended: [bool; 16],
    turning: Turning,
}

impl<'a> Model for Progress<'a> {
    ghost use Rattle.ds_schedule.specs.Standing.{Standing};
    ghost use Rattle.ds_schedule.specs.Kept.{IsKept};

    ghost Value = { Standing };

    ghost view = { λ p. record { cues = p.cues.now; drawn = p.drawn; given = p.given; ended = p.ended } };

    ghost invariant = { λ p. IsKept p.given p.ended p.turning };
}

impl<'a> Progress<'a> {
    /// Where the schedule stands before the first step: no cue was followed, and main alone was given out.
    pub fn new(schedule: &'a Schedule) -> Progress<'a>
        ensures { StandsAt result (first_turns schedule.now.cues schedule.now.seed) }
    {
        let ended = [false; 16];
        Progress {
            cues: schedule.cues.as_slice(),
            drawn: schedule.seed,
            given: 1,
            turning: Turning::of(1, &ended),
            ended,
        }
    }

    /// Whether main has ended, so that there is no further turn.
    pub fn main_has_ended(&self) -> bool
        ensures seen { result ≡ main_has_ended self.now }
        ensures told { (turns : Turns) → StandsAt self.now turns → result ≡ turns.ended 0 }
    {
        self.ended[0]
    }

    /// The thread whose turn it is: that of the first cue whose thread may have a turn, and without such a cue the
    /// one that is drawn among the threads that may have one.
    pub fn next(&self) -> u8
        requires { main_has_ended self.now ≡ false }
        ensures next { (turns : Turns) → StandsAt self.now turns → next_turn turns ≡ Some result }
        ensures may { (turns : Turns) → StandsAt self.now turns → may_turn turns result ≡ true }
        ensures within { result < 16 }
    {
        self.turn()
    }

    /// Goes on behind a step of a thread.
    pub fn passed(&mut self, thread: u8, step: &Step)
        requires { thread < 16 }
        ensures { (turns : Turns) → StandsAt self.old turns → StandsAt self.new (turns_behind turns thread step.now) }
    {
        let cues = self.standing();
        self.drawn = drawn_behind(cues, self.drawn);
        self.cues = cues_behind(cues, step);
        if is_end(step) {
            self.ended[thread as usize] = true;
            self.turning = Turning::of(self.given, &self.ended);
            return;
        }
        if is_given(step.event) {
            self.given = one_more(self.given);
            self.turning = Turning::of(self.given, &self.ended);
        }
    }

    /// The thread whose turn it is.
    fn turn(&self) -> u8
        requires { main_has_ended self.now ≡ false }
        ensures next { next_turn (turns_of self.now) ≡ Some result }
        ensures may { may_turn (turns_of self.now) result ≡ true }
    {
        match self.standing().first() {
            Some(cue) => cue.thread,
            None => self.drawn_thread(),
        }
    }

    /// Whether the thread was given out and has not ended.
    fn may_turn(&self, thread: u8) -> bool
        ensures { result ≡ may_turn (turns_of self.now) thread }
    {
        may_by(self.given, &self.ended, thread)
    }

    /// The cues from the first one on whose thread may have a turn.
    fn standing(&self) -> &'a [Cue]
        ensures { result.now ≡ standing_cues (turns_of self.now) self.now.cues }
    {
        let mut cues = self.cues;
        'cues: while let Some((cue, rest)) = cues.split_first() {
            if self.may_turn(cue.thread) {
                return cues;
            }
            cues = rest;
        }
        cues
    }

    /// The thread that is drawn next among those that may have a turn.
    fn drawn_thread(&self) -> u8
        requires { main_has_ended self.now ≡ false }
        ensures drawn { chosen (threads_from (may_turn (turns_of self.now)) 0) (draw self.now.drawn) ≡ Some result }
        ensures may { may_turn (turns_of self.now) result ≡ true }
    {
        self.turning.drawn(draw(self.drawn) >> 33)
    }
}

/// The cues that are left behind a step, of those that stood before it.
fn cues_behind<'a>(cues: &'a [Cue], step: &Step) -> &'a [Cue]
    ensures { result.now ≡ cues_after cues.now step.now }
{
    match cues.split_first() {
        Some((cue, rest)) if ends_cue(*cue, step) => rest,
        _ => cues,
    }
}

/// The number that was drawn last behind a step, by the cues that stood before it.
fn drawn_behind(cues: &[Cue], drawn: u64) -> u64
    ensures { result ≡ drawn_after cues.now drawn }
{
    match cues.first() {
        Some(_) => drawn,
        None => draw(drawn),
    }
}

/// How many thread numbers were given out, of 16, where one more was.
fn one_more(given: u8) -> u8
    requires { given < 17 }
    ensures { result ≡ min (given + 1) 16 }
{
    if given < THREADS { given + 1 } else { given }
}

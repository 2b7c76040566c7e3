//! Laws about histories of recorded steps, each the contract of a function that does nothing.
//!
//! A caller calls the function and uses what it ensures. The laws speak of every program and of every
//! list of traces, whichever code made them.
#![tactic(auto)]

ghost use Rattle.ds_plain_laws.specs.Laws.{NothingStands, OneStepMore, StandingIsRecorded, LegalRunsArePlain};

use ds_alloc_laws::{
    classes_are_few, cursors_begin, cursors_move, mallocs_begin, mallocs_have_left, mallocs_look_on,
};

/// Before any step the empty history stands: it is legal and leaves the first words.
pub fn nothing_stands()
    ensures { NothingStands }
{}

/// A history that stands still stands when a thread that is not over makes its next step behind it.
pub fn one_step_more()
    ensures { OneStepMore }
{}

/// Traces that stand are a record, with each thread's stop as the thread stands there, and the order in which they
/// stand is legal.
pub fn standing_is_recorded()
    ensures { StandingIsRecorded }
{}

/// Where the traces follow the step table, every legal order of their steps is, without log steps, a run of the plain
/// machine, which the words agree with at every moment, and which ends as the record says.
pub fn legal_runs_are_plain()
    ensures { LegalRunsArePlain }
{
    classes_are_few();
    mallocs_begin();
    mallocs_look_on();
    mallocs_have_left();
    cursors_begin();
    cursors_move();
}

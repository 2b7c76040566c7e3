//! Laws about the rows of `malloc`, each the contract of a function that does nothing.
//!
//! Whatever the words answer, a malloc sees every place of its size class to be unavailable before it answers null.
#![tactic(auto)]

ghost use Rattle.ds_alloc_laws.specs.Laws.{MallocsBegin, MallocsLookOn, MallocsHaveLeft, CursorsBegin, CursorsMove};
ghost use Rattle.ds_alloc_laws.specs.Laws.{ClassesAreFew};

/// The size class of a request is one of the fifteen.
pub fn classes_are_few()
    ensures { ClassesAreFew }
{}

/// Before its first step a malloc has all places of its class left to look at.
pub fn mallocs_begin()
    ensures { MallocsBegin }
{}

/// Each step of a malloc takes from the places that are left those that its event shows to be unavailable; it ends
/// with a block of its class, or with null where no place is left.
pub fn mallocs_look_on()
    ensures { MallocsLookOn }
{}

/// While a malloc looks, a place is left.
pub fn mallocs_have_left()
    ensures { MallocsHaveLeft }
{}

/// The places at which a thread begins to look for blocks are at first the first ones of their classes.
pub fn cursors_begin()
    ensures { CursorsBegin }
{}

/// Where one of them is moved to another place of its class, they are places of their classes still.
pub fn cursors_move()
    ensures { CursorsMove }
{}

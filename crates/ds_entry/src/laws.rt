//! What is true of log entries, for the proofs of callers.
ghost use Rattle.ds_entry.specs.Laws.{EmptyHoldsNone, EntriesHoldTheirs, EntriesAreApart};

/// The word 0 holds no location.
pub fn empty_holds_none()
    ensures { EmptyHoldsNone }
{}

/// The entry of one location holds that one and no other.
pub fn entries_hold_theirs()
    ensures { EntriesHoldTheirs }
{}

/// Two locations with the same entry are the same.
pub fn entries_are_apart()
    ensures { EntriesAreApart }
{}

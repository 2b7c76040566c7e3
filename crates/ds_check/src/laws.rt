//! What is true of accepted modules and of first faults, for the proofs of callers.
ghost use Rattle.ds_check.specs.Laws.{AcceptedAreNotRefused, OneTypeFault};

/// An accepted module has no fault: `check` refuses none of them, as long as there is memory.
pub fn accepted_are_not_refused()
    ensures { AcceptedAreNotRefused }
{}

/// A module has at most one first fault: which one is told is fixed by the module.
pub fn one_type_fault()
    ensures { OneTypeFault }
{}

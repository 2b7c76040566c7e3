//! Well-formed modules have a meaning: no thread of one comes to an instruction that has none.
//!
//! There is no code in this crate. Each law is the contract of a function that does nothing.
#![tactic(auto)]

ghost use Rattle.ds_safe_laws.specs.Laws.{WellFormedMeans, AcceptedMeans};

/// A well-formed module that declares no function but the externals and `ds_note`, each with its type, has a meaning
/// wherever a thread of it comes that begins in a function which the module defines.
pub fn well_formed_means()
    ensures { WellFormedMeans }
{}

/// So has a module that is accepted.
pub fn accepted_means()
    ensures { AcceptedMeans }
{}

//! Laws of lowered code: it asks what its module asks.
//!
//! There is no code in this crate. Each law is the contract of a function that only calls other laws.
#![tactic(auto)]

ghost use Rattle.ds_code_laws.specs.Laws.{CodeAgrees, CodeMeans, AcceptedCodeMeans};

use ds_safe_laws::{accepted_means, well_formed_means};

/// Where a module has a meaning, the code that it is lowered to asks what the module asks.
pub fn code_agrees()
    ensures { CodeAgrees }
{}

/// The code that a well-formed module is lowered to is its program, where the module declares no function but the
/// externals and `ds_note`.
pub fn code_means()
    ensures { CodeMeans }
{
    well_formed_means();
}

/// So is the code of a module that is accepted.
pub fn accepted_code_means()
    ensures { AcceptedCodeMeans }
{
    accepted_means();
}

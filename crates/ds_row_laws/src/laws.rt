//! The law, as the contract of a function that does nothing.

ghost use Rattle.ds_row_laws.specs.Laws.{AcceptedModulesAskRows};

/// All that a thread of an accepted module asks has a row of the step table.
pub fn accepted_modules_ask_rows()
    ensures { AcceptedModulesAskRows }
{}

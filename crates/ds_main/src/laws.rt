//! The law of inputs, from those of texts, layouts and checks.

ghost use Rattle.ds_main.specs.Refusal.{AcceptedInputsAreNotRefused};

use ds_check::accepted_are_not_refused;
use ds_parse::{texts_are_not_refused, texts_spell_one_module};
use ds_shape::layouts_are_not_refused;

/// An input that is accepted is not refused.
pub fn accepted_inputs_are_not_refused()
    ensures { AcceptedInputsAreNotRefused }
{
    texts_spell_one_module();
    texts_are_not_refused();
    layouts_are_not_refused();
    accepted_are_not_refused();
}

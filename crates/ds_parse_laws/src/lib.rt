//! Laws about what texts spell, each the contract of a function that does nothing but to call other laws.
//!
//! A caller calls the function and uses what it ensures. The laws speak of every module that is read.
#![tactic(auto)]

ghost use Rattle.ds_parse_laws.specs.Laws.{TextsAreWithinBounds, TokensAreWithinBounds};

/// A module that fewer than 2^32 tokens have the form of is within its bounds, where nothing in them is out of its
/// bound.
pub fn tokens_are_within_bounds()
    ensures { TokensAreWithinBounds }
{}

/// A module that a text of fewer than 2^32 bytes spells is within its bounds.
pub fn texts_are_within_bounds()
    ensures { TextsAreWithinBounds }
{
    tokens_are_within_bounds();
}

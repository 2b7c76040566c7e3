//! What is true of names in a row and of their places, for the proofs of callers.
ghost use Rattle.ds_names.specs.Laws.{PlacesAreExact, PlacesAreUnique};

/// A name has no place exactly if it does not stand there, and at the place that it has it stands.
pub fn places_are_exact()
    ensures { PlacesAreExact }
{}

/// Among distinct names the place of a name is where it stands.
pub fn places_are_unique()
    ensures { PlacesAreUnique }
{}

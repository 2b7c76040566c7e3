//! What is true of modules with notes, for the proofs of callers.
ghost use Rattle.ds_pass.specs.Laws.{NotesKeepBounds};

/// A module within its bounds is within them with its notes, so that its canonical text is parsed as it again.
pub fn notes_keep_bounds()
    ensures { NotesKeepBounds }
{}

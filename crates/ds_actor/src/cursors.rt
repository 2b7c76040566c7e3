//! Where a thread looks for blocks.

ghost use Rattle.std.specs.Prelude.{◌≡◌, ◌<◌, slice_index, slice_set};
ghost use Rattle.ds_plain.specs.Thread.{first_cursors};

use std::marker::Model;

/// How many size classes there are.
const CLASSES: usize = 15;

/// The places at which a thread begins to look for a block, by size class. Contracts see the list of them.
#[derive(Drop)]
pub(crate) struct Cursors {
    places: [u32; CLASSES],
}

impl Model for Cursors {
    ghost use Rattle.std.specs.Prelude.{List, ℕ};

    ghost Value = { List ℕ };

    ghost view = { λ c. c.places };
}

impl Cursors {
    /// Those of a thread that took no block yet: the first place.
    pub(crate) fn new() -> Cursors
        ensures { result ≡ first_cursors }
    {
        Cursors {
            places: [0; CLASSES],
        }
    }

    /// The place for a size class.
    pub(crate) fn at(&self, class: u8) -> u32
        requires { class < 15 }
        ensures { result ≡ slice_index self.now class }
    {
        self.places[usize::from(class)]
    }

    /// Moves the place for a size class.
    pub(crate) fn set(&mut self, class: u8, place: u32)
        requires { class < 15 }
        ensures { self.new ≡ slice_set self.old class place }
    {
        self.places[usize::from(class)] = place;
    }
}

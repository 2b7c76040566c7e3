//! How many words the globals of a module take.
ghost use Rattle.std.specs.Prelude.{◌≡◌, ◌↔◌, ◌≤◌, ◌/◌, ℕ, IsTrue};
ghost use Rattle.ds_shape.specs.Sizes.{Extent, HasExtent, rounded};
ghost use Rattle.ds_shape.specs.Fits.{Fits};
ghost use Rattle.ds_shape.specs.Accepted.{HasLayout, HasWords};

use ds_ast::{GlobalDef, Module, Ty};
use ds_shape::{Shapes, extents_are_unique, written_types_fit};

/// The words of 8 bytes that a type takes.
fn words_of(shapes: &Shapes, ty: &Ty) -> u64
    requires { Fits shapes.now ty.now }
    ensures { (e : Extent) → HasExtent shapes.now ty.now e → result ≡ rounded e.size 8 / 8 }
{
    shapes.size_of(ty).div_ceil(8)
}

/// Whether the globals of a module take no more words than this together, each of them whole words.
pub fn has_few_words(module: &Module, shapes: &Shapes, limit: u64) -> bool
    requires layout { HasLayout «module».now }
    requires shapes { shapes.now ≡ «module».now.structs }
    ensures { IsTrue result ↔ ((n : ℕ) → HasWords «module».now.structs «module».now.globals n → n ≤ limit) }
{
    extents_are_unique();
    written_types_fit();
    let mut rest = limit;
    for g in module.globals.as_slice() {
        match rest.checked_sub(words_of(shapes, &g.ty)) {
            Some(fewer) => rest = fewer,
            None => return false,
        }
    }
    true
}

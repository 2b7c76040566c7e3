//! What the sizes of types are, the layout of a module's types, and which modules are accepted.
#![tactic(auto)]

ghost use Rattle.ds_shape.specs.Laws.{ExtentsAreUnique, ExtentsExist, ExtentsAreComputed, OffsetsAreUnique, OffsetsExist, OffsetsAreComputed, LayoutsAreNotRefused, OneFirstFault, WrittenTypesFit, FieldsFit, ElementsFit, WordsAreCounted, GlobalsAreLaidOut};

mod extents;
mod fault;
mod index;
mod lines;
mod local;
mod shapes;
mod steps;
#[cfg(test)]
mod tests;

pub use fault::ShapeFault;
pub use local::LocalType;
pub use shapes::{Shapes, layout};

/// A type has at most one size and alignment, however deep its structs are looked into.
pub fn extents_are_unique()
    ensures { ExtentsAreUnique }
{}

/// A field has at most one offset.
pub fn offsets_are_unique()
    ensures { OffsetsAreUnique }
{}

/// What a type's size and alignment are at some depth of structs is found as many structs deep as the module has
/// lines.
pub fn extents_are_computed()
    ensures { ExtentsAreComputed }
{}

/// And so is the offset of a field.
pub fn offsets_are_computed()
    ensures { OffsetsAreComputed }
{}

/// In a module whose struct types are known and hold themselves nowhere each type that is written has a size.
pub fn extents_exist()
    ensures { ExtentsExist }
{}

/// And each field of its structs has an offset.
pub fn offsets_exist()
    ensures { OffsetsExist }
{}

/// A module that has a layout has no fault: `layout` gives one exactly where there is one, as long as there is memory.
pub fn layouts_are_not_refused()
    ensures { LayoutsAreNotRefused }
{}

/// A module has at most one first fault.
pub fn one_first_fault()
    ensures { OneFirstFault }
{}

/// In a module that has a layout each type that is written has a size of at most 2^31 bytes.
pub fn written_types_fit()
    ensures { WrittenTypesFit }
{}

/// And so has each field of its structs.
pub fn fields_fit()
    ensures { FieldsFit }
{}

/// Where an array fits, its elements do.
pub fn elements_fit()
    ensures { ElementsFit }
{}

/// The globals of a module that has a layout begin with as many words as they have.
pub fn words_are_counted()
    ensures { WordsAreCounted }
{}

/// And each has its own from its location on.
pub fn globals_are_laid_out()
    ensures { GlobalsAreLaidOut }
{}

//! What names and types mean for lowering: the numbers of functions, the addresses of globals, the bytes with which
//! they begin, what a call calls, and what an index of an address adds.
#![tactic(auto)]

mod callees;
mod image;
mod leaps;
mod places;
mod scope;

pub use callees::callee_of;
pub use image::image_of;
pub use leaps::{Leap, leap_into};
pub use places::{FirstPlaces, small};
pub use scope::Scope;

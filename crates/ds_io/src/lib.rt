//! Bytes in and out. A reader or a writer may fail at any call, and counts its failures: a caller's
//! contract then can say that a fault of reading or writing comes only where that count rose.
#![tactic(auto)]

mod memory;
mod standard;
mod traits;
mod whole;

pub use memory::{MemSink, MemSource};
pub use standard::{StdSink, StdSource};
pub use traits::{Failed, Sink, Source};
pub use whole::{Bytes, ReadAllFault, read_all, write_all};

#[cfg(test)]
mod tests;

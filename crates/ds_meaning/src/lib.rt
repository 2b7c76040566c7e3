//! What a module means: which requests each of its threads makes, by the answers that it is given.
//!
//! There is no code in this crate. Its definitions stand in `specs/`, one clause an instruction, each named by its
//! section of the LLVM Language Reference.
#![tactic(auto)]

//! A case.
use crate::settings::Settings;
use std::alloc::Global;

/// A case: how a call is made, on which input, and what is wanted of it.
#[derive(Debug, Drop)]
pub struct Case<'a> {
    /// Its name.
    pub name: &'a str,
    /// How it is run, and the status that is wanted.
    pub settings: Settings<'a>,
    /// The words that stand for `WORD`, one at each call. With none the case is one call.
    pub each: Vec<&'a str>,
    /// What is read.
    pub input: Vec<u8>,
    /// What is to be written.
    pub output: Vec<u8>,
}

impl<'a> Case<'a> {
    /// A case of this name with these settings, and nothing read or written.
    pub fn new(alloc: Global, name: &'a str, settings: Settings<'a>) -> Case<'a> {
        Case {
            name,
            settings,
            each: Vec::new(alloc),
            input: Vec::new(alloc),
            output: Vec::new(alloc),
        }
    }
}

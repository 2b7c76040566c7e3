//! From the text of a module to the module.
#![tactic(auto)]

mod entities;
mod laws;
mod lines;
mod parser;
mod parts;

pub use laws::{texts_are_not_refused, texts_spell_one_module};
pub use parser::parse;

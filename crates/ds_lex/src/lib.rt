//! The tokens of a module's text.
#![tactic(auto)]

mod bytes;
mod fault;
mod laws;
mod number;
mod scanner;
mod token;
mod words;

pub use bytes::{ByteClass, RunOf, begins_name, belongs, class_of};
pub use fault::LexFault;
pub use laws::{decimals_are_read, tokens_are_unique, written_texts_are_lexed};
pub use number::number_of;
pub use scanner::{lex, tokens_or_fault};
pub use token::{Token, TokenKind, Tokens};
pub use words::Flaw;

#[cfg(test)]
mod tests;

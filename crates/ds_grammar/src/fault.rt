//! Why tokens are refused.
ghost use Rattle.std.specs.Prelude.{◌≡◌};

use ds_lex::LexFault;
use std::alloc::AllocError;
use thiserror::Error;

/// A bound of the language.
#[derive(Clone, Copy, Debug, PartialEq, Eq)]
pub enum Bound {
    /// The range of a literal, a count or a number of a name.
    Range,
    /// How deep types and initialisers may nest.
    Depth,
}

/// Something out of its bound, and where it stands.
#[derive(Clone, Copy, Debug, PartialEq, Eq)]
pub struct Breach {
    /// The bound.
    pub bound: Bound,
    /// How many bytes stand before it.
    pub at: u32,
}

/// Something that has a bound, and whether it is within it.
#[derive(Clone, Copy, Debug, PartialEq, Eq)]
pub struct Mark {
    /// The breach that it is where it is out of its bound.
    pub breach: Breach,
    /// Whether it is within its bound.
    pub within: bool,
}

/// Why a text gives no module. `at` is how many bytes stand before the token that it speaks of.
#[derive(Debug, Drop, Error, PartialEq, Eq)]
pub enum ParseFault {
    /// The text is not made of tokens.
    #[error("no tokens")]
    Lex(LexFault),
    /// No module goes on with this token.
    #[error("syntax at {at}")]
    Expected {
        /// Where the token begins.
        at: u32,
    },
    /// No module goes on with this token, which is a word of the language that is not read here.
    #[error("unsupported at {at}")]
    Unsupported {
        /// Where the word begins.
        at: u32,
    },
    /// This number is out of its range.
    #[error("out of range at {at}")]
    Range {
        /// Where it begins.
        at: u32,
    },
    /// This type or initialiser nests too deep.
    #[error("type too deep at {at}")]
    DeepType {
        /// Where it begins.
        at: u32,
    },
    /// There is not enough memory.
    #[error("out of memory")]
    Memory,
}

impl From<AllocError> for ParseFault {
    ghost use Rattle.ds_grammar.specs.declared.fault.ParseFault.TheVariants as faults;

    ghost from_gives = { λ fault result. result ≡ faults.Memory };

    fn from(_: AllocError) -> ParseFault {
        ParseFault::Memory
    }
}

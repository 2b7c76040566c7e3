//! Why a text gives no tokens.
use thiserror::Error;

/// The first lexical fault of a text. Each place is how many bytes of the text stand before it.
#[derive(Debug, Drop, Error, PartialEq, Eq)]
pub enum LexFault {
    /// A byte that begins no token: a `-` without a digit behind it, or a byte that is no blank, no `;`, no letter, no
    /// digit, none of `%`, `@`, `#`, `!` and `"`, and none of the marks.
    #[error("bad byte at {at}")]
    BadByte {
        /// The place of the byte.
        at: u32,
    },
    /// A `%`, an `@` or a `#` with no name behind it.
    #[error("bad name at {at}")]
    BadName {
        /// The place of the `%`, the `@` or the `#`.
        at: u32,
    },
    /// A number that a byte of a name goes on, a number out of its range, or a name in digits of 2^32 or more.
    #[error("bad number at {at}")]
    BadNumber {
        /// The place of the token.
        at: u32,
    },
    /// A text without an end: a `"` that no other `"` follows.
    #[error("open text at {at}")]
    OpenText {
        /// The length of the whole text.
        at: u32,
    },
    /// There is not enough memory for the tokens.
    #[error("out of memory")]
    Memory,
}

//! Why cases could not be tried.
use std::alloc::AllocError;
use std::io;
use thiserror::Error;

/// Why cases could not be tried.
#[derive(Debug, Drop, Error)]
pub enum CaseError {
    /// A file could not be read.
    #[error("reading {path}: {cause}")]
    File {
        /// Where it stands.
        path: String,
        /// What the system said.
        cause: io::Error,
    },
    /// A line is none of the format, or it is one of a case and stands before the first.
    #[error("{file}:{number}: no line of the format, or none that stands before a case")]
    Line {
        /// The file.
        file: String,
        /// The number of the line, from 1 on.
        number: usize,
    },
    /// The folder could not be read, or the output not be written.
    #[error(transparent)]
    Io(#[from] io::Error),
    /// Memory ran out.
    #[error(transparent)]
    Memory(#[from(alloc)] AllocError),
}

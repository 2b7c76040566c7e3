//! How a case is run.

/// How a case is run, and the status that is wanted.
#[derive(Clone, Copy, Debug)]
pub struct Settings<'a> {
    /// The words behind the program's name, with blanks between them.
    pub words: &'a str,
    /// The status that is wanted.
    pub status: u8,
    /// How many bytes the sink takes in all.
    pub room: usize,
    /// How many bytes a read or a write moves at most.
    pub most: usize,
    /// The number of the read that fails.
    pub fail_read: u32,
    /// The number of the write that fails.
    pub fail_write: u32,
}

/// No call has this number.
const NEVER: u32 = u32::MAX;

/// The settings at the beginning of a file.
pub const AT_FIRST: Settings<'static> = Settings {
    words: "",
    status: 0,
    room: 65536,
    most: 4096,
    fail_read: NEVER,
    fail_write: NEVER,
};

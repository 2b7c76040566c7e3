//! What calls call.

/// A function that the module does not define.
#[derive(Clone, Copy, Debug)]
pub enum Known {
    /// `malloc`.
    Malloc,
    /// `free`.
    Free,
    /// `print_i64`.
    Print,
    /// `pthread_create`.
    Create,
    /// `pthread_join`.
    Join,
    /// `ds_note`.
    Note,
}

/// What is called.
#[derive(Clone, Copy, Debug)]
pub enum Called {
    /// A function that the module defines, by its number among all.
    Defined(u32),
    /// One that it declares.
    Declared(Known),
    /// What has no meaning.
    Unknown,
}

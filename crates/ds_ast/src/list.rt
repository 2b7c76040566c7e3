//! Lists of any length.

/// A list, in order. Contracts see the list of its items. A tree may hold lists of trees through it.
pub use sqlite_items::Items as List;

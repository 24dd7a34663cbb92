//! The limits of printed lines.

/// How many bytes the canonical line of a listed instruction has at most, without its line feed.
pub const SLOT_LINE_LIMIT: usize = 119;

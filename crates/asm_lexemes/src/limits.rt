//! The limits of lines.

/// How many bytes a line has at most, its comment included.
pub const LINE_LIMIT: usize = 240;

/// How many bytes the name of a label has at most.
pub const NAME_LIMIT: usize = 63;

/// How many numbers a line of data has at most.
pub const NUMBER_LIMIT: usize = 32;

/// How many tokens these are, with the commas between them.
pub const NUMBER_TOKEN_LIMIT: usize = 2 * NUMBER_LIMIT - 1;

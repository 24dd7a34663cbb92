//! The limits of printed texts.

/// How many bytes the canonical text of a program has at most. It is what a command takes as its input.
pub const TEXT_LIMIT: usize = 16_777_216;

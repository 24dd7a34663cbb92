//! The limits of a group.

use ia_program::limits::RUN_LIMIT;

/// How many writes a slot has at most: a move to the predicates writes 63 of them.
pub const SLOT_WRITE_LIMIT: usize = 63;

/// How many writes a group has room for: those of the most slots that a group may have.
pub const WRITE_LIMIT: usize = RUN_LIMIT as usize * SLOT_WRITE_LIMIT;

//! The limits of states, an own choice: without them a run might take any amount of memory.

/// How many cells the register stack has at most.
pub const STACK_LIMIT: u32 = 65_536;

/// How many entries the ALAT has at most.
pub const ALAT_LIMIT: usize = 32;

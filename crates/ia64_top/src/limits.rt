//! The limits of calls.

use asm_build::limits::TEXT_LIMIT;

/// How many bytes an input has at most: as many as the canonical text of a program, so that it can be read again.
pub const INPUT_LIMIT: usize = TEXT_LIMIT;

/// How many groups a run is asked for at most.
pub const GROUP_LIMIT: u64 = 10_000_000;

/// How many groups a trace shows at most, so that all its states have room in memory.
pub const TRACE_LIMIT: u64 = 100;

/// How many bundles a trial is asked for at most.
pub const TRIAL_LIMIT: u64 = 4096;

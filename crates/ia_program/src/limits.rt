//! The limits of programs.

/// How many bundles a program has at most.
pub const BUNDLE_LIMIT: usize = 32_768;

/// How many declared entries a program has at most.
pub const ENTRY_LIMIT: usize = 1024;

/// How many bytes of data a program has at most.
pub const DATA_LIMIT: usize = 1_048_576;

/// How many declared relations a program has at most.
pub const RELATION_LIMIT: usize = 4096;

/// How many slots a run of slots has at most, and so an instruction group.
pub const RUN_LIMIT: u32 = 192;

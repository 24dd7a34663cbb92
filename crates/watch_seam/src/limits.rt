//! The limit of watchers.

/// How many groups a watcher sees at most. So the slots of all of them are fewer than 2^64.
pub const FILL_LIMIT: u64 = 4_294_967_295;

//! What a bundle is to hold.

ghost use Rattle.std.specs.Prelude.{◌≡◌};
ghost use Rattle.bundling.specs.Chunk.{Chunk as ChunkOf};

use arrayvec::ArrayVec;
use ia_program::limits::RUN_LIMIT;
use slot_layouts::Wanted;
use std::marker::Model;

/// As many bundles as this that follow one another, with one more behind them, never all go without a stop: with the slots on both
/// sides a run of slots could be longer than its limit.
pub const QUIET_LIMIT: usize = RUN_LIMIT as usize / 3 - 1;

/// What a bundle is to hold, and whether a stop is wanted after it.
#[derive(Drop)]
pub struct Chunk {
    /// The instructions, one to three.
    pub wanted: ArrayVec<Wanted, 3>,
    /// Whether a stop is wanted after it.
    pub end: bool,
}

impl Model for Chunk {
    ghost Value = { ChunkOf };

    ghost view = { λ c. record { wanted = c.wanted.items; end = c.end } };
}

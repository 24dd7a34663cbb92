//! The bundles of a loose text's instructions: a program that has them in the slots of templates, in their order, with
//! nops in all other slots (Intel Itanium Architecture Software Developer's Manual, volume 1, chapter 3, instruction
//! encoding).
//!
//! What each bundle is to hold is given, as [`Chunk`]s. [`bundled`] lays each out (`slot_layouts`), puts the targets of
//! the instructions in as the bundles that have them, and counts entries and relations by bundles. The laws say that this
//! is a program, that it has the instructions of the text's sequence ([`sequence_insns`]) at their places and the stops that are
//! wanted, and that its runs of slots are short enough.
#![tactic(auto)]

mod chunk;
mod laws;
mod program;

pub use chunk::{Chunk, QUIET_LIMIT};
pub use laws::{
    bundled_has_stops, bundled_is_program, bundled_is_spread, bundled_keeps_slot_rules,
    quiet_is_short,
};
pub use program::{BundledText, bundled, sequence_insns};

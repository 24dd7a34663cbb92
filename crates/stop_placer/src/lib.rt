//! Sets the stops between loose instructions that the rules of instruction groups need (Intel Itanium Architecture
//! Software Developer's Manual, volume 1, chapter 3, instruction groups and instruction dependencies).
//!
//! [`place_stops`] reads a loose text, packs its instructions into bundles (`packing`), asks at each gap whether the
//! rules want a stop there (`pairing`, with what is known in a program without those stops, `plain`), and names the
//! stops of the program with their reasons (`reasons`).
#![tactic(auto)]

mod laws;
mod packed;
mod packing;
mod pairing;
mod placing;
mod plain;
mod reasons;

pub use laws::{
    no_fault_where_placed, one_placed, one_placing_fault, placed_has_no_violation,
    placed_keeps_text,
};
pub use packed::{Packed, StopWhy, Why};
pub use packing::Cause;
pub use placing::place_stops;

//! The register stack (volume 1, chapter 4, register stack): the cells of the stacked registers, the
//! frame that names them, and the resident range.
//!
//! The contracts are the definitions of `ia_meaning`; how the cells are kept is none of theirs: those of the
//! resident range in a ring of 96 registers, and those below it in a backing store of words.
#![tactic(auto)]

mod laws;
mod moves;
mod runs;
mod stack;

pub use frame_shapes::{StackFault, frame_marker};
pub use ia_meaning::{Cell, FrameShape, Rrbs, Rse};
pub use laws::{caller_finds_its_registers, region_is_its_cells};
pub use stack::Stack;

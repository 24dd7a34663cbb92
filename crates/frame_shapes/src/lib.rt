//! Register stack frames and what they are made of (Intel Itanium Architecture Software Developer's Manual,
//! volume 1, chapter 3, current frame marker and previous function state, and chapter 4, register stack): the
//! cell of a register, the frames of `alloc`, calls, returns and rotations with their faults, the layout of the
//! markers in which frames are kept, and the resident range.
//!
//! Nothing is kept here: a frame comes in, and another one, a number or a fault goes out. The contracts are the
//! definitions of `ia_meaning`.
#![tactic(auto)]

mod fault;
mod frames;
mod laws;
mod marker;
mod previous_state;
mod range;

pub use fault::StackFault;
pub use frames::{
    alloc_fault, alloc_fault_within, called, cell_of, cleared, rotated, with_sizes, zero_frame,
};
pub use laws::return_fault_is_that;
pub use marker::{frame_marker, marked_frame, return_fault, return_fault_within, returned_frame};
pub use previous_state::{call_state, epilog_of, marker_of};
pub use range::{range_after, zero_range};

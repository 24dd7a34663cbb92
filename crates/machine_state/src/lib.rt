//! The state of the machine: its registers, with the register stack, and its memory, with the ALAT
//! (Intel Itanium Architecture Software Developer's Manual, volume 1, chapter 3, application register
//! state, and chapter 4).
//!
//! A slot sees the state as one that it [`StateView`], and what it writes is a [`Change`], a small value that names
//! registers as the instruction does. The contracts tie a change to the writes that `ia_meaning` speaks of:
//! [`MachineState::apply`] makes exactly those.
//!
//! [`StateView`]: slot_effects::StateView
//! [`Change`]: slot_effects::Change
#![tactic(auto)]

mod apply;
mod loads;
mod loops;
mod state;
mod state_view;

pub use state::MachineState;

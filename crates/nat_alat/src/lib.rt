//! Data memory with NaT bits, and the ALAT (Intel Itanium Architecture Software Developer's Manual,
//! volume 1, chapter 4, control and data speculation, and volume 3, chapter 2, `ld`, `st`, `chk.a` and
//! `invala`).
//!
//! The contracts are the definitions of `ia_meaning`: which fault an access has, what is loaded, what a
//! store leaves, and which entries of the ALAT stay. A NaT bit that is spilled goes to UNAT, whose word the
//! caller keeps. Once the memory is open no call takes memory, and a call that is refused changes nothing.
#![tactic(auto)]

mod alat;
mod bytes;
mod fault;
mod laws;
mod memory;
mod unat;

pub use alat::Alat;
pub use fault::MemFault;
pub use ia_meaning::{AlatEntry, Cell, Spot};
pub use laws::{
    entered_is_hit, invalidated_is_gone, others_stay, stored_is_loaded, touched_is_gone,
};
pub use memory::DataMem;

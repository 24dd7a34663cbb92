//! Which slots of which bundle template a list of one to three instructions takes, with the stops that are
//! wanted between them (Intel Itanium Architecture Software Developer's Manual, volume 1, chapter 3,
//! instruction encoding and instruction sequencing).
//!
//! A layout of the list in a template gives each instruction a slot that it fits, and the slots rise. The
//! template has a stop where one is wanted, and no other (`specs/Layouts`). [`laid_out`] takes the template of
//! the lowest code that has a layout, and in it the least list of slots, in order of lists. The other slots
//! hold a `nop` of their unit (`specs/Filled`). What a packer goes by is said as laws (`specs/Laws`).
#![tactic(auto)]

mod classes;
mod filling;
mod laws;
mod layout;

pub use classes::{SlotClass, class_of};
pub use filling::nop_of;
pub use laws::{
    filled_is_bundle, laid_out_bundles, laid_out_is_layout, laid_out_places, lists_with_layouts,
    place_is_fit,
};
pub use layout::{Layout, Wanted, laid_out};

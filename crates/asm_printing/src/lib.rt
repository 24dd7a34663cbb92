//! The canonical text of an instruction in a slot.
//!
//! Which form, completers and operands an instruction is printed with is said in `asm_canonical`. Everything else
//! goes by the rows of the forms.
#![tactic(auto)]

pub mod limits;
mod numerals;
mod printing;

pub use numerals::{push_bytes, push_decimal, push_hex};
pub use printing::print_slot;

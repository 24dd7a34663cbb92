//! The instructions of a text without braces, and which bundles they fill in order.
//!
//! `item` has what is kept of an instruction ([`Item`]), and its unit where its unit letter is missing. `packing` says
//! when an instruction joins the bundle of the one before it ([`joins`]), and follows the *plain packing*, that of all
//! instructions as if no stop were wanted ([`packed_with`]).
#![tactic(auto)]

mod item;
mod packing;

pub use item::{Item, bare_unit};
pub use packing::{Held, PlainPacking, is_call, joins, packed_with, wanted_as};

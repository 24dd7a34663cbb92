//! The emulator: a machine that runs a program slot by slot.
//!
//! A step computes what the slot does as a small value, and then makes it: so a slot that ends the run writes nothing. The
//! contracts name the definitions of `ia_meaning`: [`Machine::step_group`] goes one group further, and [`Machine::run`] a number
//! of groups, which from the start is the sequential run (`ia_meaning::progress_is_run`).
//!
//! The larger functions on the way of every slot are marked to be inlined always, as is each that hands the effect of a slot on
//! to another: where no call takes its address, it stays in registers.
#![tactic(auto)]

mod code;
mod machine;
mod run;
mod text;
mod work;

pub use machine::Machine;
pub use state_lines::WordText;
pub use text::{push_outcome, state_text};

//! What a slot does, by what it sees (Intel Itanium Architecture Software Developer's Manual, volume 3,
//! chapter 2).
//!
//! A slot reads registers and memory through [`StateView`], and what it does is a small value, a [`SlotEffect`]: a
//! [`Change`], and how the run goes on. Nothing is written here. The contracts tie an effect to the outcomes that
//! `ia_meaning` speaks of, whatever it is that the slot sees: [`effect`] is the effect of an action under its
//! qualifying predicate.
//!
//! The functions on the way of every slot are marked to be inlined always, as is each that hands the effect of
//! a slot on to another: where no call takes its address, it stays in registers.
#![tactic(auto)]

mod change;
mod effects;
mod frames;
mod landings;
mod loads;
mod loops;
mod moves;
mod operands;
mod predicates;
mod slot_effect;
mod state_view;

pub use change::Change;
pub use effects::effect;
pub use loads::{load, store};
pub use loops::{turn, turn_of};
pub use moves::{compute, test};
pub use predicates::predicate_word;
pub use slot_effect::SlotEffect;
pub use state_view::StateView;

//! What a program means: states, the effect of every operation, applying writes, the sequential step,
//! group and run, the resident range of the register stack and the printed state.
//!
//! The meaning stands in `specs/`, in whole numbers and lists; it speaks of no machine. Each operation
//! is one row of a table that gives it an action, one of twenty-two, and each action has its effect once (Intel
//! Itanium Architecture Software Developer's Manual, volume 1, chapters 3 and 4, and volume 3, chapter 2).
//! The code here is what the layers above share: the parts of a state, the action of an instruction, writes of
//! registers, how a slot goes on, the turn of a loop, and laws, which are functions that do nothing.
#![tactic(auto)]

mod action;
mod ending;
mod landings;
mod laws;
pub mod limits;
mod next;
mod state;
mod turn;
mod write;

pub use action::{
    Action, CallTarget, Condition, FetchSource, Function, MovedWord, action_of, update_register,
};
pub use ending::end_or;
pub use landings::target_of;
pub use laws::{
    addresses, entry_test, frame_test, groups_end, next_place, numbered_run_is_parallel,
    permutations_have_codes, progress_is_run, progress_text_is_run_text, relation_test, stop_test,
    zero_is_start,
};
pub use next::Next;
pub use state::{AlatEntry, Cell, FrameShape, Rrbs, Rse, Spot};
pub use turn::Turn;
pub use write::{FrameCause, Write};

//! Register rotation: where a register or a predicate stands under the register rename bases, and what
//! a rotation makes of them (volume 1, chapter 4, register rotation).
#![tactic(auto)]

mod bases;
mod index;
mod laws;

pub use bases::rotate;
pub use ia_meaning::Rrbs;
pub use index::{general_index, predicate_index_of};
pub use laws::{different_indexes, different_predicate_indexes, indexes_within};

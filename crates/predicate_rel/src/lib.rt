//! What is known of the predicates along the ways through a program: pairs of predicates that are not both 1,
//! and what each instruction leaves of them (Intel Itanium Architecture Software Developer's Manual, volume
//! 1, chapters 3 and 4, predication, and volume 3, chapter 2, `cmp`, `tbit`, `tnat`, `mov` to predicates,
//! `br`, `break` and `clrrrb`).
//!
//! A contract sees a set as 64 rows and reads the pairs off them (`pairs_of` in `specs/Pairs`). What an
//! instruction leaves is one rule for each pair (`specs/Rules`), by the action of the instruction
//! (`ia_meaning::Action`). A pair that is missing says nothing: the two predicates may be both 1, or never.
#![tactic(auto)]

mod bits;
mod edge;
mod facts;
mod laws;
mod narrow;
mod rows;

pub use bits::has_bit;
pub use edge::Edge;
pub use facts::Facts;
pub use laws::{facts_stay_true, pairs_are_unordered};
pub use rows::keeps_pairs;

//! The law that ranges decide which instructions there are.
//!
//! The tables of rows say which instructions there are, and `HasRanges` and `MayQualify` (`ia_insn/specs/Ranges`) say once
//! more, for each operation, which operands and qualifying predicates it has. That both say the same holds the rows from
//! both sides: none takes too much, and none is missing or takes too little.
#![tactic(auto)]

mod laws;

pub use laws::listed_iff_in_range;

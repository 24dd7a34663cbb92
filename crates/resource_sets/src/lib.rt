//! What an instruction reads and writes, and which two accesses of one group clash (Intel Itanium
//! Architecture Software Developer's Manual, volume 1, chapter 3, instruction dependencies, and volume 3,
//! chapter 5, resource and dependency semantics).
//!
//! `accesses_of` is a function of an instruction's qualifying predicate and its action (`ia_meaning::Action`);
//! `clash` is a table of two accesses. The laws say that no instruction depends on more than its accesses name, or
//! writes more than they name.
#![tactic(auto)]

mod access;
mod access_sets;
mod clashes;
mod insn_accesses;
mod laws;
mod masking;
mod row;
mod sets;

pub use access::{ACCESS_LIMIT, Access, Kind, Resource};
pub use access_sets::{AccessSet, NAMED_LIMIT, Parts};
pub use clashes::{Rule, clash, clash_of};
pub use insn_accesses::{accesses, accesses_of};
pub use laws::{
    accesses_are_regular, accesses_clash, effects_depend_on_accesses, writes_are_accesses,
};
pub use masking::{InsnAccesses, accesses_for, may_clash, may_clash_with};
pub use sets::{RESOURCE_COUNT, ResourceSet};

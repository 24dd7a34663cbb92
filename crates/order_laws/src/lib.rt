//! What breaks the rules of instruction groups on a walk, and that a program in which nothing does leaves the same in every
//! order of its writes (Intel Itanium Architecture Software Developer's Manual, volume 1, chapter 3, instruction groups and
//! instruction dependencies).
//!
//! Nothing here runs: the crate has the type of a violation, the definitions of what violates on a walk, and the laws that
//! lead from a program without violations to its order independence ([`orders_leave_the_same`]).
#![tactic(auto)]

mod laws;
mod violation;

pub use laws::{
    fetch_adds_are_summed, orders_leave_the_same, orders_may_differ, runs_follow_walks,
    slots_see_the_start, targets_are_kept,
};
pub use violation::Violation;

//! The laws of a sequence of instructions and a program that has them in its bundles: in order, with nops in the other
//! slots (Intel Itanium Architecture Software Developer's Manual, volume 1, chapter 3, instruction sequencing and
//! instruction groups). What is known of predicates at an instruction, and whether two of them break a rule, is the
//! same in both.
#![tactic(auto)]

mod laws;

pub use laws::{known_in_the_sequence, violated_in_the_program, violated_in_the_sequence};

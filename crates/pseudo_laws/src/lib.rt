//! The law that says of each pseudo-operation which instruction it is.
//!
//! The rows of forms say it by numbers of values (`asm_forms`), and what is printed and read back says nothing of a form by
//! which nothing is printed. So it is said once more, of whole lines, as the tables of assembly have it: a compare with its
//! targets or its operands exchanged, a shift by a number as a field, a move as an addition.
#![tactic(auto)]

mod laws;

pub use laws::pseudo_operations_make_instructions;

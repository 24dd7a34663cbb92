//! One line of assembly text both ways.
//!
//! `asm_reading` has what a line says, and `asm_printing` the canonical text of a slot. This crate has the law that
//! joins them: what is printed is read back.
#![tactic(auto)]

mod laws;

pub use asm_printing::{limits, print_slot, push_bytes, push_decimal, push_hex};
pub use asm_reading::{
    Draft, Line, LineBuffers, Predicates, TemplateName, Values, a_line_has_one_answer,
    a_line_is_read_by_its_lexemes, char_comes_first, faults_in_order, form_comes_last,
    line_or_fault, name_comes_next, read_line, read_line_into, the_first_wrong_token_decides,
};
pub use laws::printed_slots_are_read_back;

//! Which form, completers and operands an instruction is printed with.
//!
//! `forms` has the form of an opcode, `fields` what a value is printed as, and `syntax` goes by the form's row. The text
//! is made of it by `asm_printing`.
#![tactic(auto)]

mod fields;
mod forms;
mod syntax;

pub use syntax::{Syntax, syntax_of};

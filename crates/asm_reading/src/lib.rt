//! What a line of assembly text says, or its first fault.
//!
//! A line is cut into lexemes, and the leading name names one or more forms. `reading` finds the form that the
//! operands have and the line's value, or the first fault. Which fixed tokens and operands may follow a name, and the
//! predicates of a relation, is said below (`asm_matching`), and so is what each form means (`asm_instructions`); `data`
//! has the numbers in a line of data and `template_name` the names of templates, which go by no row of the forms.
#![tactic(auto)]

mod buffers;
mod data;
mod laws;
mod line;
mod reading;
mod relation;
mod template_name;

pub use buffers::LineBuffers;
pub use laws::{
    a_line_has_one_answer, a_line_is_read_by_its_lexemes, char_comes_first, faults_in_order,
    form_comes_last, line_or_fault, name_comes_next, the_first_wrong_token_decides,
};
pub use line::{Draft, Line, Predicates, TemplateName, Values};
pub use reading::{read_line, read_line_into};

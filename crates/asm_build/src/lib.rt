//! Programs as text, both ways.
//!
//! [`assemble`] takes the lines of a text one by one (`reading`): `text_parts` keeps what they say so far, with the bundle
//! that is open in `draft`, and after the last line `names` puts in what labels name, and `relations` gathers the declared
//! relations. It returns the program that the text says, or its first fault. [`disassemble`] gives the canonical text
//! of a program, which reads as the program again, and [`list`] its bundles by their bytes.
//!
//! A text without bundles has labels, entries, relations and data too: [`TextParts`] keeps what such lines say, and is
//! public with what is left to do with them after the last line. [`take_lines`] takes the lines of either.
#![tactic(auto)]

mod address;
mod assembly;
mod bundles;
mod data;
mod disassembly;
mod draft;
mod labels;
mod laws;
pub mod limits;
mod listing;
mod names;
mod reading;
mod reason;
mod relations;
mod template_name;
mod text_parts;

pub use address::{Address, addressed};
pub use assembly::{assemble, earlier, rising};
pub use disassembly::disassemble;
pub use draft::lettered;
pub use laws::{
    canonical_texts_are_read_back, no_fault_where_read, one_text_fault, one_text_program,
    text_or_fault, texts_mean_their_lines,
};
pub use listing::{list, list_of};
pub use reading::{TakesLines, take_lines};
pub use reason::{Reason, TextError, fault, reason_of};
pub use relations::relate_line;
pub use text_parts::{EntryLine, RelationLine, Section, TextParts};

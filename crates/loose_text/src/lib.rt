//! Reading a text without braces, a loose text: instructions in order, with the stops that are written, labels,
//! entries, relations and data, for a packer that puts them into bundles.
//!
//! The lines are those of [`asm_text`], with these changes in what they mean. Slot lines and `;;` stand in text outside
//! bundles, and there are none. Without a unit letter `nop`, `break` and `hint` are of unit I, and `chk.s` of unit M. A
//! label of text and a relation belong to the next instruction, and so does an entry that names such a label.
//!
//! [`read_loose`] takes the lines one by one: `parts` keeps what they say so far, with the bundles that they would fill
//! if no stop were wanted (`loose_items`), and after the last line `targets` finds what names mean and `relations` gathers
//! the declared relations. It answers the [`LooseText`], or the first fault:
//!
//! | Fault | Where it comes |
//! |---|---|
//! | `Limit` | a line has over [`LINE_LIMIT`](asm_lexemes::limits::LINE_LIMIT) bytes |
//! | `Char`, `Name`, `Register`, `Number`, `Range`, `Form` | the line by itself, as in a text with bundles |
//! | `Range` | a `nop` or a `break` without its unit letter has a number of 2^21 or more |
//! | `Misplaced` | `{` or `}`; a slot, `;;` or a relation in data; `;;` before any slot; data in text |
//! | `Twice` | a label again |
//! | `Limit` | data past their limit; an instruction that begins a bundle past the limit, if no stop were wanted |
//! | `Misplaced` | one past the last line: a label of text without an instruction behind it |
//! | `Empty` | one past the last line: there is no instruction |
//! | `NoLabel`, `Limit` | a name that means nothing that fits; a declared entry past the limit: the earlier line |
//! | `Relation`, `Limit` | a relation whose next instruction isn't an entry; relations past the limit |
//!
//! Those of a line come in this order, line by line, and then those after the last line in theirs. `Template`,
//! `SlotKind` and `LongRun` never come.
#![tactic(auto)]

mod item;
mod laws;
mod loose;
mod parts;
mod reading;
mod relations;
mod targets;

pub use laws::{
    loose_text_or_fault, loose_texts_are_loose, no_loose_fault_where_read, one_loose_fault,
    one_loose_text,
};
pub use loose::LooseText;
pub use loose_items::{Item, joins, wanted_as};
pub use reading::read_loose;

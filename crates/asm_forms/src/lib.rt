//! The forms of assembly lines: which stems lead a line, and which completers and operands each form has.
//!
//! A line is a mnemonic, which is a stem and its completers, and operands (volume 3, chapter 2, the assembly syntax of each
//! instruction). What there is is data: `rows` has a row a form, with the stem that leads a line of the form, the sets of its
//! completers, what stands after it, its opcode and which value stands where, and `completer` has the completers of each set and
//! what each says. Everything else goes by the rows: `naming` reads a mnemonic, `items` says from which tokens an item is read,
//! `spelling` finds the form of a mnemonic and operands at once, and `operands` takes the operands from between a form's fixed tokens.
//! Where a line's first fault is, is said one crate above (`asm_matching`).
#![tactic(auto)]

mod choices;
mod completer;
mod form;
mod items;
mod laws;
mod naming;
mod operands;
mod rows;
mod spelling;

pub use choices::AccessSize;
pub use completer::{Completer, CompleterSet, Said, Suffix, members, text};
pub use form::Form;
pub use items::{
    Fixed, FormItem, Kind, NumberField, accepts, are_accepted, begins_with_letter, fixed_token,
    has_room, is_label_item, is_long_name, is_number, is_register, is_stop,
};
pub use laws::forms_are_read_back;
pub use naming::{Completers, Named, completers, named_forms};
pub use operands::{Operands, taken};
pub use rows::{Row, RowOf};
pub use spelling::find_spelled;

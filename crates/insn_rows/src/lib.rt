//! Rows of instructions: of each the opcode, the format and the bits of its word that are no operand's. What goes from
//! instructions to words and back by a row is written once, for all rows.
//!
//! A format is the manual's picture (volume 3, chapter 4, instruction formats): which operand stands in which bits of a
//! word. An operand has a coding, which says the values that it may have and their codes. A row adds an opcode and the
//! other bits of the word, which are the same in each word of the row. The families' tables of rows stand in the crates
//! above; here are the types, what makes a list of rows a table, and the two ways between an instruction and its word.
//!
//! Nothing here takes memory.
#![tactic(auto)]

mod arms;
mod bits;
mod codec;
mod coding;
mod family;
pub mod fields;
pub mod formats;
mod opcode;
mod operands;
mod row;
mod value;

pub use arms::{flag, insn_of, opcode_of, small, value_at, values_of};
pub use bits::{BitField, Bits};
pub use codec::{decode_with, encode_with, lists_with, word_with};
pub use family::Family;
pub use opcode::{Opcode, UpdateKind};
pub use row::{Check, Coding, Format, Operand, OperandList, Row};
pub use value::{Value, Values};

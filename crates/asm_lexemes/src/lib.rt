//! The lexemes of a line of assembly text, and what each lexeme may be read as.
//!
//! A line is cut into lexemes: names, numbers, quoted lexemes and marks. A lexeme is a part of the line, given by its
//! first byte and the byte after its last, so no memory is taken, and the list that they are put
//! into ([`lexemes_into`]) serves one line after the other. Then each lexeme is a token: a
//! register, a number, a name, a quoted lexeme or a mark. `specs/` says what the lexemes of a line are (`Lexemes`), which
//! register a name spells (`Registers`), which number digits write (`Numbers`) and what the token of
//! a lexeme is (`Tokens`).
#![tactic(auto)]

mod bytes;
mod fault;
mod lexeme;
mod lexeme_list;
pub mod limits;
mod line;
mod name;
mod numbers;
mod reading;
mod registers;
mod tokens;

pub use fault::LineFault;
pub use lexeme::{Lexeme, LexemeKind};
pub use lexeme_list::LexemeList;
pub use line::{lexemes, lexemes_into};
pub use name::Name;
pub use reading::token;
pub use registers::numbered_register;
pub use tokens::Token;

//! Which tokens may follow the leading lexeme of a line, and the fault of the first that may not.
//!
//! Where the lexeme's forms have rows (`asm_forms`), `matching` says which of them a line's operands have, and where
//! none has them which fault that is, by one rule for all lexemes. `relation` has the predicates of a relation line,
//! which go by no row: after the lexeme come `"mutex"`, and commas and predicates in turn, none of these twice.
#![tactic(auto)]

mod matching;
mod relation;

pub use matching::{fault_at, read_form};
pub use relation::{agreed_relation, named_predicates, relation_fault};

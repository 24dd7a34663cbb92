//! The I instructions: those of the I unit alone (volume 3, chapter 4, instruction formats, I5 to I29).
//!
//! They are shifts, bit fields, tests of a bit and of NaT, extensions, moves from and to branch, predicate and application
//! registers and from the instruction pointer, the speculation check, and break, nop and hint of the unit. Which there are
//! is a table: `rows` has a row an opcode. [`FamilyI`] decodes and encodes by them.
//! Both are exact: a word with a bit set that its format leaves blank, a reserved code or an operand
//! out of its range is that of no instruction.
//!
//! Nothing here takes memory.
#![tactic(auto)]

ghost use Rattle.formats_i.specs.Listed.{rows};
ghost use Rattle.formats_i.specs.RowIndexes.{row_index_of};

mod row_indexes;
mod rows;

use insn_rows::{Family, Opcode, Row};
pub use rows::ROWS;

/// The I instructions, as a family.
pub struct FamilyI;

impl Family for FamilyI {
    ghost rows = { rows };

    ghost row_index_of = { row_index_of };

    ghost least = { 0 };

    // The highest of the 41 bits of a slot is 0 here, as the major opcode is below 8.
    ghost width = { 40 };

    fn rows() -> &'static [Row] {
        &ROWS
    }

    fn by_major() -> &'static [&'static [u8]; 16] {
        &rows::BY_MAJOR
    }

    fn row_index_of(opcode: Opcode) -> Option<usize> {
        row_indexes::row_index_of(opcode)
    }

    #[tactic(auto, using(crate::proofs::Table::is_family))]
    fn is_family() {}
}

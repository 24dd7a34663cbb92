//! The A instructions: integer operations that go into an M or an I slot (volume 3, chapter 4,
//! instruction formats, A1 to A9).
//!
//! They are the additions, subtractions and logical operations on registers and on immediates of
//! 8, 14 and 22 bits, shift left and add, the compares, and the additions, subtractions and compares
//! of lanes. Which there are is a table: `rows` has a row an opcode. [`FamilyA`] decodes and encodes by them. Both
//! are exact: a word with a bit set that its format leaves blank, a reserved code or an operand out
//! of its range is that of no instruction.
//!
//! Nothing here takes memory.
#![tactic(auto)]

ghost use Rattle.std.specs.Prelude.{◌^◌};
ghost use Rattle.formats_a.specs.Listed.{rows};
ghost use Rattle.formats_a.specs.RowIndexes.{row_index_of};

mod row_indexes;
mod rows;

use insn_rows::{Family, Opcode, Row};
pub use rows::ROWS;

/// The A instructions, as a family.
pub struct FamilyA;

impl Family for FamilyA {
    ghost rows = { rows };

    ghost row_index_of = { row_index_of };

    // The major opcode is 8 or more, where an instruction of the M or the I unit alone has less.
    ghost least = { 2 ^ 40 };

    ghost width = { 41 };

    fn rows() -> &'static [Row] {
        &ROWS
    }

    fn by_major() -> &'static [&'static [u8]; 16] {
        &rows::BY_MAJOR
    }

    fn row_index_of(opcode: Opcode) -> Option<usize> {
        row_indexes::row_index_of(opcode)
    }

    #[tactic(auto, using(crate::proofs::Table::is_family))]
    fn is_family() {}
}

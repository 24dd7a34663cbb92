//! The B instructions, of B slots (volume 3, chapter 4, instruction formats, B1 to B9).

ghost use Rattle.formats_b.specs.ListedB.{rows};
ghost use Rattle.formats_b.specs.RowIndexesB.{row_index_of};

mod row_indexes;
pub mod rows;

use insn_rows::{Family, Opcode, Row};

/// The B instructions, as a family.
pub struct FamilyB;

impl Family for FamilyB {
    ghost rows = { rows };

    ghost row_index_of = { row_index_of };

    ghost least = { 0 };

    ghost width = { 41 };

    fn rows() -> &'static [Row] {
        &rows::ROWS
    }

    fn by_major() -> &'static [&'static [u8]; 16] {
        &rows::BY_MAJOR
    }

    fn row_index_of(opcode: Opcode) -> Option<usize> {
        row_indexes::row_index_of(opcode)
    }

    #[tactic(auto, using(crate::proofs::TableB::is_family))]
    fn is_family() {}
}

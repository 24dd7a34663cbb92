//! The F instructions, of F slots (volume 3, chapter 4, instruction formats, F15 and F16).

ghost use Rattle.formats_b.specs.ListedF.{rows};
ghost use Rattle.formats_b.specs.RowIndexesF.{row_index_of};

mod row_indexes;
pub mod rows;

use insn_rows::{Family, Opcode, Row};

/// The F instructions, as a family.
pub struct FamilyF;

impl Family for FamilyF {
    ghost rows = { rows };

    ghost row_index_of = { row_index_of };

    ghost least = { 0 };

    ghost width = { 41 };

    fn rows() -> &'static [Row] {
        &rows::ROWS
    }

    fn by_major() -> &'static [&'static [u8]; 16] {
        &rows::BY_MAJOR
    }

    fn row_index_of(opcode: Opcode) -> Option<usize> {
        row_indexes::row_index_of(opcode)
    }

    #[tactic(auto, using(crate::proofs::TableF::is_family))]
    fn is_family() {}
}

//! Where the row of an opcode stands.

ghost use Rattle.std.specs.Prelude.{◌≡◌};
ghost use Rattle.formats_b.specs.RowIndexesB.{row_index_of};

use ia_insn::{BranchKind, Unit};
use insn_rows::Opcode;

/// The index of the row of an opcode, and None for one that no B instruction has.
pub(crate) fn row_index_of(opcode: Opcode) -> Option<usize>
    ensures { result ≡ row_index_of opcode }
{
    Some(match opcode {
        Opcode::Br(BranchKind::Cond) => 0,
        Opcode::Br(BranchKind::Wexit) => 1,
        Opcode::Br(BranchKind::Wtop) => 2,
        Opcode::Br(BranchKind::Cloop) => 3,
        Opcode::Br(BranchKind::Cexit) => 4,
        Opcode::Br(BranchKind::Ctop) => 5,
        Opcode::BrCall => 6,
        Opcode::BrInd => 7,
        Opcode::BrRet => 8,
        Opcode::BrCallInd => 9,
        Opcode::Clrrrb => 10,
        Opcode::Break(Unit::B) => 11,
        Opcode::Nop(Unit::B) => 12,
        Opcode::Hint(Unit::B) => 13,
        _ => return None,
    })
}

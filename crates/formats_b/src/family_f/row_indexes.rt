//! Where the row of an opcode stands.

ghost use Rattle.std.specs.Prelude.{◌≡◌};
ghost use Rattle.formats_b.specs.RowIndexesF.{row_index_of};

use ia_insn::Unit;
use insn_rows::Opcode;

/// The index of the row of an opcode, and None for one that no F instruction has.
pub(crate) fn row_index_of(opcode: Opcode) -> Option<usize>
    ensures { result ≡ row_index_of opcode }
{
    Some(match opcode {
        Opcode::Break(Unit::F) => 0,
        Opcode::Nop(Unit::F) => 1,
        _ => return None,
    })
}

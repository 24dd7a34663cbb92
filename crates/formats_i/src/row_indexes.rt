//! Where the row of an opcode stands.

ghost use Rattle.std.specs.Prelude.{◌≡◌};
ghost use Rattle.formats_i.specs.RowIndexes.{row_index_of};

use ia_insn::{Ar, ShiftFn, Unit};
use insn_rows::Opcode;

/// The index of the row of an opcode, and None for one that no I instruction has.
pub(crate) fn row_index_of(opcode: Opcode) -> Option<usize>
    ensures { result ≡ row_index_of opcode }
{
    Some(match opcode {
        Opcode::ShiftVar(ShiftFn::Shr) => 0,
        Opcode::ShiftVar(ShiftFn::ShrU) => 1,
        Opcode::ShiftVar(ShiftFn::Shl) => 2,
        Opcode::Popcnt => 3,
        Opcode::Shrp => 4,
        Opcode::Extr => 5,
        Opcode::DepZ => 6,
        Opcode::DepZImm => 7,
        Opcode::DepImm => 8,
        Opcode::Dep => 9,
        Opcode::Tbit => 10,
        Opcode::Tnat => 11,
        Opcode::Nop(Unit::I) => 12,
        Opcode::Hint(Unit::I) => 13,
        Opcode::Break(Unit::I) => 14,
        Opcode::ChkS(Unit::I) => 15,
        Opcode::MovToBr => 16,
        Opcode::MovFromBr => 17,
        Opcode::MovToPr => 18,
        Opcode::MovToPrRot => 19,
        Opcode::MovFromIp => 20,
        Opcode::MovFromPr => 21,
        Opcode::MovToAr(Ar::Pfs) => 22,
        Opcode::MovToAr(Ar::Lc) => 23,
        Opcode::MovToAr(Ar::Ec) => 24,
        Opcode::MovToArImm(Ar::Pfs) => 25,
        Opcode::MovToArImm(Ar::Lc) => 26,
        Opcode::MovToArImm(Ar::Ec) => 27,
        Opcode::MovFromAr(Ar::Pfs) => 28,
        Opcode::MovFromAr(Ar::Lc) => 29,
        Opcode::MovFromAr(Ar::Ec) => 30,
        Opcode::Ext => 31,
        _ => return None,
    })
}

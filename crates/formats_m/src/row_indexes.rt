//! Where the row of an opcode stands.

ghost use Rattle.std.specs.Prelude.{◌≡◌};
ghost use Rattle.formats_m.specs.RowIndexes.{row_index_of};

use ia_insn::{Ar, LoadKind, StoreKind, Unit};
use insn_rows::{Opcode, UpdateKind};

/// The index of the row of an opcode, and None for one that no M instruction has.
pub(crate) fn row_index_of(opcode: Opcode) -> Option<usize>
    ensures { result ≡ row_index_of opcode }
{
    Some(match opcode {
        Opcode::Load(LoadKind::Plain, UpdateKind::None) => 0,
        Opcode::Load(LoadKind::S, UpdateKind::None) => 1,
        Opcode::Load(LoadKind::A, UpdateKind::None) => 2,
        Opcode::Load(LoadKind::Sa, UpdateKind::None) => 3,
        Opcode::Load(LoadKind::Bias, UpdateKind::None) => 4,
        Opcode::Load(LoadKind::Acq, UpdateKind::None) => 5,
        Opcode::Load(LoadKind::Fill, UpdateKind::None) => 6,
        Opcode::Load(LoadKind::CClr, UpdateKind::None) => 7,
        Opcode::Load(LoadKind::CNc, UpdateKind::None) => 8,
        Opcode::Load(LoadKind::CClrAcq, UpdateKind::None) => 9,
        Opcode::Load(LoadKind::Plain, UpdateKind::Reg) => 10,
        Opcode::Load(LoadKind::S, UpdateKind::Reg) => 11,
        Opcode::Load(LoadKind::A, UpdateKind::Reg) => 12,
        Opcode::Load(LoadKind::Sa, UpdateKind::Reg) => 13,
        Opcode::Load(LoadKind::Bias, UpdateKind::Reg) => 14,
        Opcode::Load(LoadKind::Acq, UpdateKind::Reg) => 15,
        Opcode::Load(LoadKind::Fill, UpdateKind::Reg) => 16,
        Opcode::Load(LoadKind::CClr, UpdateKind::Reg) => 17,
        Opcode::Load(LoadKind::CNc, UpdateKind::Reg) => 18,
        Opcode::Load(LoadKind::CClrAcq, UpdateKind::Reg) => 19,
        Opcode::Load(LoadKind::Plain, UpdateKind::Imm) => 20,
        Opcode::Load(LoadKind::S, UpdateKind::Imm) => 21,
        Opcode::Load(LoadKind::A, UpdateKind::Imm) => 22,
        Opcode::Load(LoadKind::Sa, UpdateKind::Imm) => 23,
        Opcode::Load(LoadKind::Bias, UpdateKind::Imm) => 24,
        Opcode::Load(LoadKind::Acq, UpdateKind::Imm) => 25,
        Opcode::Load(LoadKind::Fill, UpdateKind::Imm) => 26,
        Opcode::Load(LoadKind::CClr, UpdateKind::Imm) => 27,
        Opcode::Load(LoadKind::CNc, UpdateKind::Imm) => 28,
        Opcode::Load(LoadKind::CClrAcq, UpdateKind::Imm) => 29,
        Opcode::Store(StoreKind::Plain, UpdateKind::None) => 30,
        Opcode::Store(StoreKind::Rel, UpdateKind::None) => 31,
        Opcode::Store(StoreKind::Spill, UpdateKind::None) => 32,
        Opcode::Store(StoreKind::Plain, UpdateKind::Imm) => 33,
        Opcode::Store(StoreKind::Rel, UpdateKind::Imm) => 34,
        Opcode::Store(StoreKind::Spill, UpdateKind::Imm) => 35,
        Opcode::Xchg => 36,
        Opcode::FetchAdd => 37,
        Opcode::ChkS(Unit::M) => 38,
        Opcode::ChkA => 39,
        Opcode::Invala => 40,
        Opcode::Mf => 41,
        Opcode::InvalaE => 42,
        Opcode::MovToAr(Ar::Unat) => 43,
        Opcode::MovToArImm(Ar::Unat) => 44,
        Opcode::MovFromAr(Ar::Unat) => 45,
        Opcode::Alloc => 46,
        Opcode::Break(Unit::M) => 47,
        Opcode::Nop(Unit::M) => 48,
        Opcode::Hint(Unit::M) => 49,
        _ => return None,
    })
}

//! Which slot an instruction fits (volume 1, chapter 3, instruction encoding).

ghost use Rattle.std.specs.Prelude.{◌↔◌, IsTrue};
ghost use Rattle.ia_program.specs.Fits.{IsBranchSlot, Fits};

use formats_a::FamilyA;
use formats_b::{FamilyB, FamilyF, is_listed_x};
use formats_i::FamilyI;
use formats_m::FamilyM;
use ia_insn::{BranchKind, Insn, Op, Unit};
use insn_rows::Family;

/// Whether the operation may stand in this slot of its bundle, in a slot of its own unit: the loop
/// branches stand in slot 2 alone (volume 3, chapter 2, `br`).
pub fn is_branch_slot(op: Op, slot: u8) -> bool
    ensures { IsTrue result ↔ IsBranchSlot op slot }
{
    match op {
        Op::Br { kind, .. } => kind == BranchKind::Cond || slot == 2,
        _ => true,
    }
}

/// Whether the instruction is listed and fits slot 0, 1 or 2 of its bundle, where the template has
/// this unit: A instructions fit M and I, the others their own unit, and the loop branches slot 2
/// alone. A long instruction stands at slot 1, over L and X. Nothing fits a slot above 2.
pub fn fits(insn: &Insn, unit: Unit, slot: u8) -> bool
    ensures { IsTrue result ↔ Fits insn.now unit slot }
{
    slot < 3
        && match unit {
            Unit::M => FamilyA::is_listed(insn) || FamilyM::is_listed(insn),
            Unit::I => FamilyA::is_listed(insn) || FamilyI::is_listed(insn),
            Unit::F => FamilyF::is_listed(insn),
            Unit::B => FamilyB::is_listed(insn) && is_branch_slot(insn.op, slot),
            Unit::L | Unit::X => is_listed_x(insn) && slot == 1,
        }
}

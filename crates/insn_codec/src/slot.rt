//! The words of the slots.

ghost use Rattle.std.specs.Prelude.{◌≡◌, ◌^◌, ◌<◌, Some, IfSome};
ghost use Rattle.ia_insn.specs.declared.insn.Insn.{Insn};
ghost use Rattle.ia_insn.specs.declared.choices.Unit.TheVariants.{B};
ghost use Rattle.insn_codec.specs.Slots.{UnitCode, IsOfUnit, IsInSlot};

use formats_a::FamilyA;
use formats_b::{FamilyB, FamilyF};
use formats_i::FamilyI;
use formats_m::FamilyM;
use ia_insn::{Insn, Unit};
use ia_program::is_branch_slot;
use insn_rows::Family;

/// The least word whose major opcode, the top four of its 41 bits, is 8: in M and I slots the A
/// instructions have the words from here on, and the unit's own those below (volume 3, chapter 4,
/// major opcodes).
const FIRST_A_WORD: u64 = 1 << 40;

/// The instruction of a B slot with this word.
fn read_branch(slot: u8, word: u64) -> Option<Insn>
    requires { slot < 3 }
    ensures found { IfSome result (λ i. IsInSlot B slot i word) }
    ensures only { (i : Insn) → IsInSlot B slot i word → result ≡ Some i }
{
    match FamilyB::decode(word) {
        Some(insn) => {
            if is_branch_slot(insn.op, slot) {
                Some(insn)
            } else {
                None
            }
        }
        None => None,
    }
}

/// The instruction of a slot of this unit with this word.
pub(crate) fn read_unit(unit: Unit, slot: u8, word: u64) -> Option<Insn>
    requires { slot < 3 }
    ensures found { IfSome result (λ i. IsInSlot unit slot i word) }
    ensures only { (i : Insn) → IsInSlot unit slot i word → result ≡ Some i }
{
    FamilyA::words_are_from();
    FamilyM::words_are_below();
    FamilyI::words_are_below();
    match unit {
        Unit::M if word < FIRST_A_WORD => FamilyM::decode(word),
        Unit::I if word < FIRST_A_WORD => FamilyI::decode(word),
        Unit::M | Unit::I => FamilyA::decode(word),
        Unit::F => FamilyF::decode(word),
        Unit::B => read_branch(slot, word),
        Unit::L | Unit::X => None,
    }
}

/// The word of an instruction of the unit.
#[tactic(auto, using(crate::proofs::Families::is_a_of_m, crate::proofs::Families::is_a_of_i, crate::proofs::Families::is_m, crate::proofs::Families::is_i))]
pub(crate) fn write_unit(unit: Unit, insn: &Insn) -> u64
    requires { IsOfUnit unit insn.now }
    ensures code { UnitCode unit insn.now result }
    ensures width { result < 2 ^ 41 }
{
    match unit {
        Unit::M | Unit::I if FamilyA::has_opcode(insn) => FamilyA::word(insn),
        Unit::M => FamilyM::word(insn),
        Unit::I => FamilyI::word(insn),
        Unit::F => FamilyF::word(insn),
        Unit::B => FamilyB::word(insn),
        Unit::L | Unit::X => unreachable!(),
    }
}

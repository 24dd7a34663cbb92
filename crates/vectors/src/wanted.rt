//! What the text of a slot has to be read as.

ghost use Rattle.std.specs.Prelude.{◌≡◌, IfSome, Some};
ghost use Rattle.ia_program.specs.Bundles.{slot_insn};

use crate::spelling::is_spelled;
use ia_insn::{Insn, Op, Unit};
use ia_program::{BundleOf, Slots};

/// A slot of a bundle.
#[derive(Drop)]
pub struct Wanted<'a> {
    /// The bytes of the bundle.
    pub bytes: &'a [u8; 16],
    /// What they are.
    pub bundle: BundleOf,
    /// The number of the slot, from 0.
    pub slot: u8,
}

impl Wanted<'_> {
    /// Whether this instruction stands in the slot: whether the bundle with it there has the same bytes.
    pub fn is(&self, insn: Insn) -> bool {
        match with_insn(&self.bundle, self.slot, insn) {
            Some(bundle) => is_spelled(&bundle, self.bytes),
            None => false,
        }
    }

    /// The unit of the slot: X in slot 1 of a long bundle. None where there is no slot of this number,
    /// as slot 2 of a long bundle.
    pub fn unit(&self) -> Option<Unit> {
        let [first, second, third] = self.bundle.template().units();
        match (self.bundle.slots(), self.slot) {
            (_, 0) => Some(first),
            (Slots::Three { .. }, 1) => Some(second),
            (Slots::Three { .. }, 2) => Some(third),
            (Slots::Long { .. }, 1) => Some(Unit::X),
            _ => None,
        }
    }

    /// Whether a stop follows the slot.
    pub fn has_stop(&self) -> bool {
        self.bundle.stop_after(self.slot)
    }
}

/// The bundle with this instruction in a slot in place of what stands there. None where there is no
/// such slot, or the instruction doesn't fit it.
fn with_insn(bundle: &BundleOf, slot: u8, insn: Insn) -> Option<BundleOf>
    ensures template { IfSome result (λ other. other.template ≡ bundle.now.template) }
    ensures slot { IfSome result (λ other. slot_insn other.slots slot ≡ Some insn) }
{
    match slots_with(bundle.slots(), slot, insn) {
        Some(slots) => BundleOf::new(bundle.template(), slots),
        None => None,
    }
}

/// The instructions with this one in a slot in place of what stands there. None where there is no such
/// slot.
fn slots_with(slots: &Slots, slot: u8, insn: Insn) -> Option<Slots>
    ensures { IfSome result (λ other. slot_insn other slot ≡ Some insn) }
{
    match (slots, slot) {
        (Slots::Three { b, c, .. }, 0) => Some(Slots::Three {
            a: insn,
            b: *b,
            c: *c,
        }),
        (Slots::Three { a, c, .. }, 1) => Some(Slots::Three {
            a: *a,
            b: insn,
            c: *c,
        }),
        (Slots::Three { a, b, .. }, 2) => Some(Slots::Three {
            a: *a,
            b: *b,
            c: insn,
        }),
        (Slots::Long { long, .. }, 0) => Some(Slots::Long {
            first: insn,
            long: *long,
        }),
        (Slots::Long { first, .. }, 1) => Some(Slots::Long {
            first: *first,
            long: insn,
        }),
        _ => None,
    }
}

/// An instruction whose unit letter the text leaves out, with the unit of its slot. Only `nop`, `break`,
/// `hint` and `chk.s` have such a letter; other instructions stay as they are.
pub fn in_unit(insn: &Insn, unit: Unit) -> Insn
    ensures { result.qp ≡ insn.now.qp }
{
    let op = match insn.op {
        Op::Nop { imm, .. } => Op::Nop { unit, imm },
        Op::Break { imm, .. } => Op::Break { unit, imm },
        Op::Hint { imm, .. } => Op::Hint { unit, imm },
        Op::ChkS { r2, disp, .. } => Op::ChkS { unit, r2, disp },
        other => other,
    };
    Insn { qp: insn.qp, op }
}

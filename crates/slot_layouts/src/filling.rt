//! What stands in the slots that no instruction of the list takes.

ghost use Rattle.std.specs.Prelude.{◌≡◌};
ghost use Rattle.slot_layouts.specs.Filled.{nop_of};

use ia_insn::{Insn, Op, Pr, Unit};

/// `nop 0` of a unit, under p0; `nop.x 0` of L and of X.
pub fn nop_of(unit: Unit) -> Insn
    ensures { result ≡ nop_of unit }
{
    let unit = match unit {
        Unit::L => Unit::X,
        other => other,
    };
    Insn {
        qp: Pr::default(),
        op: Op::Nop { unit, imm: 0 },
    }
}

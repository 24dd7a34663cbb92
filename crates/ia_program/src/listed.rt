//! Which instructions there are.

ghost use Rattle.std.specs.Prelude.{◌↔◌, IsTrue};
ghost use Rattle.ia_program.specs.Listed.{IsListed};

use formats_a::FamilyA;
use formats_b::{FamilyB, FamilyF, is_listed_x};
use formats_i::FamilyI;
use formats_m::FamilyM;
use ia_insn::Insn;
use insn_rows::Family;

/// Whether the instruction is one of the A, I, M, B, F or X formats, with its operands in their ranges.
/// Those are the instructions that some slot of some template takes.
pub fn is_listed(insn: &Insn) -> bool
    ensures { IsTrue result ↔ IsListed insn.now }
{
    FamilyA::is_listed(insn)
        || FamilyI::is_listed(insn)
        || FamilyM::is_listed(insn)
        || FamilyB::is_listed(insn)
        || FamilyF::is_listed(insn)
        || is_listed_x(insn)
}

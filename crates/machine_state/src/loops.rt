//! The turns of loop branches (volume 1, chapter 4, modulo-scheduled loop support, and volume 3, chapter 2,
//! `br`).

ghost use Rattle.std.specs.Prelude.{◌≡◌, ◌<◌, IfSome};
ghost use Rattle.ia_meaning.specs.Loops.{turn_of};

use crate::state::MachineState;
use ia_insn::BranchKind;
use ia_meaning::Turn;
use slot_effects::turn_of;

impl MachineState {
    /// The turn of a loop branch with this qualifying predicate, by the loop count and the epilog count.
    pub fn turn_of(&self, kind: BranchKind, qp: bool) -> Turn
        ensures value { result ≡ turn_of kind qp self.now.registers.lc self.now.registers.ec }
        ensures epilog { IfSome result.ec (λ e. e < 64) }
    {
        turn_of(kind, qp, self.lc, self.ec)
    }
}

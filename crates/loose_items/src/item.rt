//! Instructions of a loose text.

ghost use Rattle.std.specs.Prelude.{◌≡◌};
ghost use Rattle.loose_items.specs.Units.{bare_unit};

use ia_insn::{Insn, Op, Unit};

/// An instruction of a loose text.
#[derive(Clone, Copy)]
pub struct Item {
    /// The number of its line, from 1.
    pub line: u32,
    /// The instruction, with its unit letter. Where its line names a target, its displacement, or the number of a
    /// `movl`, is 0.
    pub insn: Insn,
    /// Whether a label of text or a relation stands between it and the instruction before it, or the start.
    pub breaks: bool,
    /// Whether a `;;` stands after it.
    pub written: bool,
}

/// The unit of an instruction without its unit letter: M of a `chk.s`, and else I.
pub fn bare_unit(op: &Op) -> Unit
    ensures { result ≡ bare_unit op.now }
{
    match op {
        Op::ChkS { .. } => Unit::M,
        _ => Unit::I,
    }
}

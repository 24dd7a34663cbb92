//! Instructions with the names of their targets.

ghost use Rattle.std.specs.Prelude.{◌≡◌};
ghost use Rattle.loose_text.specs.LooseParts.{insn_of};

use asm_build::lettered;
use asm_lexemes::Name;
use asm_text::Draft;
use ia_insn::Insn;
use loose_items::{Item, bare_unit};

/// An instruction with the name of its target.
#[derive(Drop)]
pub(crate) struct ItemLine {
    pub item: Item,
    pub target: Option<Name>,
}

/// The instruction of a draft.
pub(crate) fn insn_of(draft: &Draft) -> Insn
    ensures { result ≡ insn_of draft.now }
{
    if !draft.bare {
        return draft.insn;
    }
    Insn {
        qp: draft.insn.qp,
        op: lettered(&draft.insn.op, bare_unit(&draft.insn.op)),
    }
}

//! The text of a bundle.

ghost use Rattle.std.specs.Prelude.{◌↔◌, IsTrue};
ghost use Rattle.asm_printing.specs.SlotTexts.{HasTarget};

use asm_printing::{print_slot, push_decimal};
use ia_insn::{Insn, Op};
use ia_program::{BundleOf, Place, is_listed};
use std::alloc::{AllocError, Global};

/// The number of the bundle as its text has it: no target is before bundle 0.
const HERE: u32 = 1 << 20;

/// The code of the bundle's template and then, with a `|` before each, the lines of its instructions.
pub fn bundle_text(alloc: Global, bundle: &BundleOf) -> Result<Vec<u8>, AllocError> {
    let mut text = Vec::new(alloc);
    push_decimal(&mut text, u64::from(bundle.template().code()))?;
    for slot in 0..3 {
        if let Some(insn) = bundle.slots().insn(slot) {
            push_line(&mut text, insn, bundle.stop_after(slot))?;
        }
    }
    Ok(text)
}

/// A `|`, and the instruction's line: nothing, where it has none.
fn push_line(text: &mut Vec<u8>, insn: &Insn, stop: bool) -> Result<(), AllocError> {
    text.push(b'|')?;
    if is_listed(insn) && has_target(HERE, &insn.op) {
        let place = Place {
            bundle: HERE,
            slot: 0,
        };
        print_slot(insn, place, stop, text)?;
    }
    Ok(())
}

/// Whether the target, where there is one, is no bundle before the first.
fn has_target(bundle: u32, op: &Op) -> bool
    ensures { IsTrue result ↔ HasTarget bundle op.now }
{
    match op.displacement() {
        Some(disp) => i64::from(bundle) + i64::from(disp) >= 0,
        None => true,
    }
}

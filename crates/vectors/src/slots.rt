//! The rows of slots.

ghost use Rattle.std.specs.Prelude.{IsTrue, IsOk};
ghost use Rattle.hex.specs.Hex.{decode_sized};

use crate::wanted::{Wanted, in_unit};
use asm_lexemes::Name;
use asm_lexemes::limits::LINE_LIMIT;
use asm_reading::{Draft, Line, read_line};
use hex::FromHex;
use insn_codec::decode_bundle;

/// Whether a row of a slot is right: the digits of a bundle, and then the slot, with a `:` and the label
/// that the text names if it names one, a space, and the text.
pub fn is_slot(digits: &str, rest: &str) -> bool
    ensures { IsTrue result → IsOk (decode_sized digits.now 16) }
{
    match <[u8; 16]>::from_hex(digits) {
        Ok(bytes) => is_read_in(&bytes, rest),
        Err(_) => false,
    }
}

/// Whether the text is read as what stands in its slot of the bundle with these bytes.
fn is_read_in(bytes: &[u8; 16], rest: &str) -> bool {
    let Some((place, text)) = rest.split_once(' ') else {
        return false;
    };
    let (slot, label) = match place.split_once(':') {
        Some((slot, label)) => (slot, Some(label)),
        None => (place, None),
    };
    match (decode_bundle(bytes), slot.parse::<u8>()) {
        (Ok(bundle), Ok(slot)) => {
            let wanted = Wanted {
                bytes,
                bundle,
                slot,
            };
            is_read_as(text, &wanted, label)
        }
        _ => false,
    }
}

/// Whether the text is read as the instruction of this slot with its stop, and names the label.
fn is_read_as(text: &str, wanted: &Wanted<'_>, label: Option<&str>) -> bool {
    if text.len() > LINE_LIMIT {
        return false;
    }
    match read_line(text.as_bytes()) {
        Ok(Line::Slot { draft, stop }) => {
            stop == wanted.has_stop() && is_draft(&draft, wanted, label)
        }
        _ => false,
    }
}

/// Whether the draft is that of the instruction of this slot, with this label for a target. A draft that
/// lacks its unit letter gets the unit of the slot.
fn is_draft(draft: &Draft, wanted: &Wanted<'_>, label: Option<&str>) -> bool {
    let insn = match wanted.unit() {
        Some(unit) if draft.bare => in_unit(&draft.insn, unit),
        _ => draft.insn,
    };
    wanted.is(insn) && is_target(&draft.target, label)
}

/// Whether the target is the label, and there is none where there is no label.
fn is_target(target: &Option<Name>, label: Option<&str>) -> bool {
    match (target, label) {
        (Some(name), Some(label)) => name.bytes() == label.as_bytes(),
        (None, None) => true,
        _ => false,
    }
}

//! The lines of a state, as it is printed.
//!
//! The text is `parts_text` of `ia_meaning`: how the run ended and how many groups there were, the
//! frame and the resident range of the register stack, the registers, the data and the ALAT, a line
//! each. Registers and words of the data that are 0 are left out, but for the predicates. The registers
//! and the memory are read through [`StateView`], so that every engine prints its state by the same lines.
#![tactic(auto)]

mod alat;
mod data;
mod general_registers;
mod head;
mod other_registers;
mod word;

ghost use Rattle.std.specs.Prelude.{◌≡◌, ◌≤◌, IfOk};
ghost use Rattle.ia_meaning.specs.StateText.{parts_text};

use crate::alat::push_alat;
use crate::data::push_data;
use crate::general_registers::push_general_registers;
use crate::head::push_head;
use crate::other_registers::{push_applications, push_branches, push_predicates};
pub use head::push_outcome;
use ia_meaning::{FrameShape, Rse};
use ia_program::End;
use slot_effects::StateView;
use std::alloc::{AllocError, Global};
pub use word::WordText;

/// A state as it is printed, a line for each part that there is to tell: how the run ended, how many
/// groups began, the frame, the resident range, r1 to r31 and the registers of the frame that aren't 0
/// without NaT, the predicates by place, the branch and the application registers, the words of the
/// data that aren't 0, and the entries of the ALAT, the oldest first.
///
/// The frame is that of the registers which are seen, at most 96 of them.
///
/// # Errors
///
/// Want of memory.
pub fn state_text<S: StateView>(
    alloc: Global,
    end: &End,
    groups: u64,
    frame: &FrameShape,
    range: Rse,
    seen: &S,
) -> Result<Vec<u8>, AllocError>
    requires frame { frame.now ≡ (S.registers seen.now).frame }
    requires size { frame.now.sof ≤ 96 }
    ensures { IfOk result (λ text. text.items ≡ parts_text end.now groups range (S.registers seen.now) (S.memory seen.now)) }
{
    let mut text = String::new(alloc);
    push_head(&mut text, end, groups, frame, range)?;
    push_general_registers(&mut text, frame, seen)?;
    push_predicates(&mut text, seen)?;
    push_branches(&mut text, seen)?;
    push_applications(&mut text, seen)?;
    push_data(&mut text, seen.data().bytes())?;
    push_alat(&mut text, seen.alat().entries())?;
    Ok(text.into_bytes())
}

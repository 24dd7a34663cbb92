//! The loose text that a text says.

ghost use Rattle.std.specs.Prelude.{◌≡◌, ◌≢◌, ◌⊎◌, ◌<◌, ◌+◌, ◌^◌, Ok, Err, IfOk, IfErr, length};
ghost use Rattle.first_fault.specs.Stages.{ArePassed, IsFirstFault};
ghost use Rattle.asm_build.specs.declared.reason.TextError.{TextError as ErrorOf};
ghost use Rattle.asm_build.specs.declared.reason.TextError.TheVariants as error;
ghost use Rattle.loose_text.specs.LooseReading.{loose_of, end_stages, ReadsLoose, HasLooseFault};
ghost use Rattle.loose_text.specs.LooseTexts.{Loose};
ghost use Rattle.loose_text.specs.SoundParts.{IsSound};

use crate::laws::{no_loose_fault_where_read, one_loose_fault, one_loose_text};
use crate::loose::LooseText;
use crate::parts::LooseParts;
use crate::relations::all_related;
use crate::targets::{items_of, named};
use asm_build::{Reason, TextError, fault, rising, take_lines};
use std::alloc::Global;

/// The loose text that so many lines of a text say, or the first fault after the last of them.
fn finish(alloc: Global, parts: LooseParts, count: u32) -> Result<LooseText, TextError>
    requires count { count + 1 < 2 ^ 32 }
    requires sound { IsSound parts }
    ensures ok { IfOk result (λ t. ArePassed (end_stages count parts) × (t ≡ loose_of parts)) }
    ensures err { IfErr result (λ e. (e ≡ error.Memory) ⊎ IsFirstFault (end_stages count parts) e) }
{
    let end = count + 1;
    if !parts.are_labels_inside() {
        return Err(fault(end, Reason::Misplaced));
    }
    if !parts.has_items() {
        return Err(fault(end, Reason::Empty));
    }
    let named = named(alloc, &parts)?;
    let items = items_of(alloc, &parts.items)?;
    let entries = rising(alloc, &named.entries)?;
    let related = all_related(alloc, &items, &entries, parts.declared.relations())?;
    let relations = rising(alloc, &related)?;
    let bytes = parts.declared.into_data()?;
    Ok(LooseText::of_parts(items, named.targets, entries, relations, bytes))
}

/// The loose text that a text says, or its first fault.
fn read(alloc: Global, text: &[u8]) -> Result<LooseText, TextError>
    requires { length text.now + 1 < 2 ^ 32 }
    ensures found { IfOk result (ReadsLoose text.now) }
    ensures fault { IfErr result (λ e. (e ≡ error.Memory) ⊎ HasLooseFault text.now e) }
{
    let mut parts = LooseParts::new(alloc);
    let count = take_lines(&mut parts, text)?;
    finish(alloc, parts, count)
}

/// The loose text that a text says.
///
/// # Errors
///
/// The first fault of the text. Lines are taken in order, and the fault of a line is the first of its length
/// ([`Reason::Limit`]), of the line by itself ([`Reason::Char`] to [`Reason::Form`], and then [`Reason::Range`] for a
/// `nop` or a `break` without its unit letter whose number is too large for unit I), `Misplaced`, `Twice`, and
/// `Limit` for data or for bundles if no stop were wanted. After the last come `Misplaced` and `Empty`, at the line
/// one past it; then, in the order of their lines, names without a label that fits and declared entries past the
/// limit; and last, in the order of theirs, `Relation` and declared relations past the limit. Or want of memory, which
/// may come in place of any other answer.
pub fn read_loose(alloc: Global, text: &[u8]) -> Result<LooseText, TextError>
    requires { length text.now + 1 < 2 ^ 32 }

    // What is returned is what the text says.
    ensures found { IfOk result (ReadsLoose text.now) }

    // What the text says is returned, so a fault comes only where it says no loose text.
    ensures only { (t : Loose) → ReadsLoose text.now t → (result ≡ Ok t) ⊎ (result ≡ Err error.Memory) }

    // The fault is the first one of the text.
    ensures fault { IfErr result (λ e. e ≢ error.Memory → HasLooseFault text.now e) }

    // A fault that the text has is returned, since it has no other.
    ensures only_fault { (e : ErrorOf) → HasLooseFault text.now e → (result ≡ Err e) ⊎ (result ≡ Err error.Memory) }
{
    one_loose_text();
    one_loose_fault();
    no_loose_fault_where_read();
    read(alloc, text)
}

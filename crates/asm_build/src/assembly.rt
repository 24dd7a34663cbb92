//! The program that a text says.

ghost use Rattle.std.specs.Prelude.{◌≡◌, ◌≢◌, ◌⊎◌, ◌<◌, ◌+◌, ◌^◌, None, Some, Ok, Err, IfOk, IfErr, length};
ghost use Rattle.first_fault.specs.Stages.{ArePassed, IsFirstFault};
ghost use Rattle.ia_program.specs.declared.place.Place.{Place as PlaceOf};
ghost use Rattle.ia_program.specs.Bundles.{AreBundles};
ghost use Rattle.ia_program.specs.Places.{EachPlace, IsFirstBad};
ghost use Rattle.ia_program.specs.Programs.{Program as ProgramOf, AreInRange, AreEntries, AreRelations};
ghost use Rattle.ia_program.specs.Runs.{IsWithinRun};
ghost use Rattle.ia_program.specs.Targets.{IsTargetInside};
ghost use Rattle.asm_build.specs.declared.reason.Reason.TheVariants as reason;
ghost use Rattle.asm_build.specs.declared.reason.TextError.{TextError as ErrorOf};
ghost use Rattle.asm_build.specs.declared.reason.TextError.TheVariants as error;
ghost use Rattle.asm_build.specs.Names.{name_fault, program_of, padded, line_at, earlier_of};
ghost use Rattle.asm_build.specs.TextParts.{AreLabelsInside};
ghost use Rattle.asm_build.specs.TextReading.{Reads, HasTextFault, end_stages};

use crate::data::padded;
use crate::draft::BundleLines;
use crate::laws::{no_fault_where_read, one_text_fault, one_text_program};
use crate::names::bundles_named;
use crate::reading::take_lines;
use crate::reason::{Reason, TextError, fault};
use crate::relations::all_related;
use crate::text_parts::TextParts;
use ia_program::{BundleOf, Place, Program, Relation, long_run};
use std::alloc::{AllocError, Global};
use std::collections::BTreeSet;

/// Of two faults of lines, that of the earlier line.
pub fn earlier(first: TextError, second: TextError) -> TextError
    ensures { result ≡ earlier_of first second }
{
    match (first, second) {
        (TextError::Fault { line, .. }, TextError::Fault { line: other, .. }) if other < line =>
            second,
        _ => first,
    }
}

/// Bundles and declared entries, with the addresses of their names.
#[derive(Drop)]
struct NamedParts {
    bundles: Vec<BundleOf>,
    entries: BTreeSet<u32>,
}

/// The bundles and the declared entries with the addresses of their names, or the first line's fault.
fn named(alloc: Global, parts: &TextParts) -> Result<NamedParts, TextError>
    requires { AreLabelsInside parts.now }
    ensures ok { IfOk result (λ named. (name_fault parts.now ≡ None) × (named.bundles.items ≡ (program_of parts.now).bundles) × (named.entries.keys ≡ (program_of parts.now).entries)) }
    ensures fit { IfOk result (λ named. AreBundles named.bundles.items) }
    ensures err { IfErr result (λ e. (e ≡ error.Memory) ⊎ (name_fault parts.now ≡ Some e)) }
{
    let bundles = bundles_named(alloc, &parts.labels, &parts.bundles);
    let entries = parts.declared(alloc);
    match (bundles, entries) {
        (Ok(bundles), Ok(entries)) => Ok(NamedParts { bundles, entries }),
        (Err(TextError::Memory), _) | (_, Err(TextError::Memory)) => Err(TextError::Memory),
        (Err(error), Ok(_)) | (Ok(_), Err(error)) => Err(error),
        (Err(first), Err(second)) => Err(earlier(first, second)),
    }
}

/// The items of a set, rising.
///
/// # Errors
///
/// Want of memory.
pub fn rising<T: Copy + Ord>(alloc: Global, set: &BTreeSet<T>) -> Result<Vec<T>, AllocError>
    ensures { IfOk result (λ items. items.items ≡ set.now.keys) }
{
    let mut items = Vec::with_capacity(alloc, set.len())?;
    for item in set {
        items.push(*item)?;
    }
    Ok(items)
}

/// The line of a slot.
fn line_at(bundles: &[BundleLines], place: Place) -> u32
    ensures { result ≡ line_at bundles.now place }
{
    match bundles.get(place.bundle as usize) {
        Some(lines) => lines.line(place.slot),
        None => 0,
    }
}

/// The program of these, which lack nothing but that runs end, or the fault of the first slot of a run that is too
/// long, at its line.
fn checked(
    lines: &[BundleLines],
    bundles: Vec<BundleOf>,
    entries: Vec<u32>,
    bytes: Vec<u8>,
    relations: Vec<Relation>,
) -> Result<Program, TextError>
    requires fit { AreBundles bundles.items }
    requires counts { AreInRange (length bundles.items) (length entries.items) (length bytes.items) (length relations.items) }
    requires entries { AreEntries (length bundles.items) entries.items }
    requires targets { EachPlace bundles.items (IsTargetInside bundles.items) }
    requires relations { AreRelations bundles.items entries.items relations.items }
    ensures ok { IfOk result (λ p. (p ≡ record { bundles = bundles.items; entries = entries.items; bytes = bytes.items; relations = relations.items }) × EachPlace bundles.items (IsWithinRun bundles.items)) }
    ensures err { IfErr result (λ e. (place : PlaceOf) × IsFirstBad bundles.items (IsWithinRun bundles.items) place × (e ≡ error.Fault (line_at lines.now place) reason.LongRun)) }
{
    match long_run(&bundles) {
        Some(place) => Err(fault(line_at(lines, place), Reason::LongRun)),
        None => Ok(Program::of_parts(bundles, entries, bytes, relations)),
    }
}

/// The program that so many lines of a text say, or the first fault after the last of them.
fn finish(alloc: Global, parts: TextParts, count: u32) -> Result<Program, TextError>
    requires { count + 1 < 2 ^ 32 }
    ensures ok { IfOk result (λ p. ArePassed (end_stages count parts) × (p ≡ program_of parts)) }
    ensures err { IfErr result (λ e. (e ≡ error.Memory) ⊎ IsFirstFault (end_stages count parts) e) }
{
    let end = count + 1;
    if parts.is_open || !parts.are_labels_inside() {
        return Err(fault(end, Reason::Misplaced));
    }
    if !parts.has_bundles() {
        return Err(fault(end, Reason::Empty));
    }
    let named = named(alloc, &parts)?;
    let entries = rising(alloc, &named.entries)?;
    let related = all_related(alloc, &named.bundles, &entries, &parts.relations)?;
    let relations = rising(alloc, &related)?;
    let bytes = padded(parts.data)?;
    checked(&parts.bundles, named.bundles, entries, bytes, relations)
}

/// The program that a text says, or its first fault.
fn read(alloc: Global, text: &[u8]) -> Result<Program, TextError>
    requires { length text.now + 1 < 2 ^ 32 }
    ensures found { IfOk result (Reads text.now) }
    ensures fault { IfErr result (λ e. (e ≡ error.Memory) ⊎ HasTextFault text.now e) }
{
    let mut parts = TextParts::new(alloc);
    let count = take_lines(&mut parts, text)?;
    finish(alloc, parts, count)
}

/// The program that a text says.
///
/// # Errors
///
/// The first fault of the text. Lines are taken in order, and the fault of a line is the first of its length
/// ([`Reason::Limit`]), of the line by itself ([`Reason::Char`] to [`Reason::Form`]), `Misplaced`, `Twice`,
/// `Template`, `SlotKind`, and `Limit` for a bundle or for data. After the last come `Misplaced` and `Empty`,
/// at the line one past it; then, in the order of their lines, names without a label that fits and declared
/// entries past the limit; then, in the order of theirs, `Relation` and declared relations past the limit; and
/// last `LongRun`. Or want of memory, which may come in place of any other answer.
pub fn assemble(alloc: Global, text: &[u8]) -> Result<Program, TextError>
    requires { length text.now + 1 < 2 ^ 32 }

    // What is returned is what the text says.
    ensures found { IfOk result (Reads text.now) }

    // What the text says is returned, so a fault comes only where it says no program.
    ensures only { (p : ProgramOf) → Reads text.now p → (result ≡ Ok p) ⊎ (result ≡ Err error.Memory) }

    // The fault is the first one of the text.
    ensures fault { IfErr result (λ e. e ≢ error.Memory → HasTextFault text.now e) }

    // A fault that the text has is returned, since it has no other.
    ensures only_fault { (e : ErrorOf) → HasTextFault text.now e → (result ≡ Err e) ⊎ (result ≡ Err error.Memory) }
{
    one_text_program();
    one_text_fault();
    no_fault_where_read();
    read(alloc, text)
}

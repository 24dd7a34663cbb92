//! Reading programs.

ghost use Rattle.std.specs.Prelude.{◌≡◌, ◌≢◌, ◌⊎◌, ◌/◌, ◌<◌, ◌^◌, ℕ, List, [], ◌∷◌, length, Ok, Err, IfOk, IfErr};
ghost use Rattle.first_fault.specs.Stages.{IsFirstFault};
ghost use Rattle.ia_program.specs.Programs.{Program as Parts, AreInRange, AreEntries, IsProgram};
ghost use Rattle.image_form.specs.declared.fault.ImageFault.{ImageFault as FaultOf};
ghost use Rattle.image_form.specs.Images.{AreSpelled, Spells, RawSpells};
ghost use Rattle.image_form.specs.Parts.{numbers, ArePadded};
ghost use Rattle.image_form.specs.Faults.{entry_stage, bundle_stages, relation_stage, HasImageFault, HasRawFault};

use crate::bundles::read_bundles;
use crate::fault::ImageFault;
use crate::head::Head;
use crate::laws::{
    no_fault_where_raw, no_fault_where_spelled, one_fault, one_program, one_raw_fault,
    one_raw_program,
};
use crate::numbers::read_numbers;
use crate::relations::{read_relations, unpadded_relation};
use ia_program::{BundleOf, Program, ProgramFault, Relation, are_in_range, misplaced_entry};
use std::alloc::Global;

/// The declared entries of an image of so many bundles, or the first that is misplaced.
fn read_entries(alloc: Global, count: u32, bytes: &[u8]) -> Result<Vec<u32>, ImageFault>
    requires { length bytes.now < 2 ^ 32 }
    ensures found { IfOk result (λ entries. (entries.items ≡ numbers (length bytes.now / 4) bytes.now) × AreEntries count entries.items) }
    ensures fault { IfErr result (λ fault. fault ≢ ImageFault.Memory → IsFirstFault (entry_stage count (numbers (length bytes.now / 4) bytes.now) ∷ []) fault) }
{
    let entries = read_numbers(alloc, bytes)?;
    match misplaced_entry(count, &entries) {
        Some(n) => Err(ImageFault::Entry { n }),
        None => Ok(entries),
    }
}

/// The program of these, whose counts and entries are right, or the first fault of the bundles and
/// then of the relations, which have these bytes.
fn program(
    bundles: Vec<BundleOf>,
    entries: Vec<u32>,
    bytes: Vec<u8>,
    relations: Vec<Relation>,
    relation_bytes: &[u8],
) -> Result<Program, ImageFault>
    requires counts { AreInRange (length bundles.items) (length entries.items) (length bytes.items) (length relations.items) }
    requires entries { AreEntries (length bundles.items) entries.items }
    requires relations { length relations.items ≡ length relation_bytes.now / 8 }
    requires limit { length relation_bytes.now < 2 ^ 32 }
    ensures found { IfOk result (λ p. (p ≡ record { bundles = bundles.items; entries = entries.items; bytes = bytes.items; relations = relations.items }) × IsProgram p × ArePadded (length relations.items) relation_bytes.now) }
    ensures fault { IfErr result (λ fault. (spelled : List ℕ) → AreSpelled bundles.items spelled → IsFirstFault (bundle_stages spelled (relation_stage spelled entries.items relations.items relation_bytes.now ∷ [])) fault) }
{
    let unpadded = unpadded_relation(relation_bytes);
    match Program::of_checked(bundles, entries, bytes, relations) {
        Ok(program) => match unpadded {
            None => Ok(program),
            Some(n) => Err(ImageFault::Relation { n }),
        },
        Err(fault) => match fault {
            ProgramFault::Relation { n } => Err(ImageFault::Relation {
                n: unpadded.unwrap_or(n).min(n),
            }),
            _ => Err(fault.into()),
        },
    }
}

/// The program of which the bytes are an image, or their first fault.
fn read(alloc: Global, bytes: &[u8]) -> Result<Program, ImageFault>
    ensures found { IfOk result (λ p. Spells p bytes.now) }
    ensures fault { IfErr result (λ fault. fault ≢ ImageFault.Memory → HasImageFault bytes.now fault) }
{
    let head = Head::read(bytes)?;
    let parts = head.parts(bytes);
    let entries = read_entries(alloc, head.bundle_count, parts.entries)?;
    let relations = read_relations(alloc, parts.relations)?;
    let bundles = read_bundles(alloc, parts.bundles)?;
    let data = Vec::from_slice(alloc, parts.data)?;
    program(bundles, entries, data, relations, parts.relations)
}

/// The program of which the bytes are an image, of either version.
///
/// # Errors
///
/// The first fault of the bytes, in the order of [`ImageFault`]; or `Memory`, which may come in
/// place of any other answer.
pub fn read_image(alloc: Global, bytes: &[u8]) -> Result<Program, ImageFault>
    // What is answered has this image, of the version that it begins as.
    ensures found { IfOk result (λ p. Spells p bytes.now) }

    // A program that has this image is answered, so a fault comes only where none has it.
    ensures only { (p : Parts) → Spells p bytes.now → (result ≡ Ok p) ⊎ (result ≡ Err ImageFault.Memory) }

    // The fault is the first one of the bytes.
    ensures fault { IfErr result (λ fault. fault ≢ ImageFault.Memory → HasImageFault bytes.now fault) }

    // A fault that the bytes have is answered, since they have no other.
    ensures only_fault { (fault : FaultOf) → HasImageFault bytes.now fault → (result ≡ Err fault) ⊎ (result ≡ Err ImageFault.Memory) }
{
    one_program();
    one_fault();
    no_fault_where_spelled();
    read(alloc, bytes)
}

/// The bytes of the bundles of an image.
pub fn bundles_of(image: &[u8]) -> &[u8]
    requires { (p : Parts) × Spells p image.now }
    ensures { (p : Parts) → Spells p image.now → AreSpelled p.bundles result.now }
{
    no_fault_where_spelled();
    let Ok(head) = Head::read(image) else {
        unreachable!();
    };
    head.parts(image).bundles
}

/// The program of bare bundles, or their first fault.
fn wrap(alloc: Global, bytes: &[u8]) -> Result<Program, ImageFault>
    ensures found { IfOk result (λ p. RawSpells p bytes.now) }
    ensures fault { IfErr result (λ fault. fault ≢ ImageFault.Memory → HasRawFault bytes.now fault) }
{
    if !are_in_range(bytes.len() / 16, 0, 0, 0) {
        return Err(ImageFault::Counts);
    }
    if bytes.len() % 16 != 0 {
        return Err(ImageFault::Length);
    }
    let bundles = read_bundles(alloc, bytes)?;
    program(
        bundles,
        Vec::new(alloc),
        Vec::new(alloc),
        Vec::new(alloc),
        &[],
    )
}

/// The program of bare bundles: these bytes, sixteen a bundle, and neither entries nor data nor
/// relations.
///
/// # Errors
///
/// The first fault of the bytes, in the order of [`ImageFault`]: `Counts` exactly where there are no
/// whole bundles or more than a program may have, `Length` where bytes are left over, then those of bundles,
/// targets and runs; or `Memory`, which may come in place of any other answer.
pub fn wrap_raw(alloc: Global, bytes: &[u8]) -> Result<Program, ImageFault>
    // What is answered has these bundles and nothing else.
    ensures found { IfOk result (λ p. RawSpells p bytes.now) }

    // A program that has these bundles and nothing else is answered.
    ensures only { (p : Parts) → RawSpells p bytes.now → (result ≡ Ok p) ⊎ (result ≡ Err ImageFault.Memory) }

    // The fault is the first one of the bytes.
    ensures fault { IfErr result (λ fault. fault ≢ ImageFault.Memory → HasRawFault bytes.now fault) }

    // A fault that the bytes have is answered, since they have no other.
    ensures only_fault { (fault : FaultOf) → HasRawFault bytes.now fault → (result ≡ Err fault) ⊎ (result ≡ Err ImageFault.Memory) }
{
    one_raw_program();
    one_raw_fault();
    no_fault_where_raw();
    wrap(alloc, bytes)
}

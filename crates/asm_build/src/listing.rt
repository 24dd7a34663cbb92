//! The listing of a program.

ghost use Rattle.std.specs.Prelude.{◌≡◌, ◌++◌, ◌≤◌, length, map, IfOk, OnOk};
ghost use Rattle.ia_program.specs.declared.limits.TheConstants.{BUNDLE_LIMIT};
ghost use Rattle.hex.specs.Hex.{encode_lower};
ghost use Rattle.insn_codec.specs.Spelling.{IsSpelled};
ghost use Rattle.image_form.specs.Images.{AreSpelled};
ghost use Rattle.ia_program.specs.Templates.{units_of};
ghost use Rattle.asm_build.specs.CanonicalText.{unit_letter};
ghost use Rattle.asm_build.specs.Listing.{head_listed, IsBundleListing, AreBundleListings, IsListing, IsAppended};
ghost use Rattle.asm_build.specs.Marks.{AreSound, AreAllSound};

use crate::bundles::{push_slots, unit_letter};
use asm_text::{push_bytes, push_decimal};
use hex::encode_to_slice;
use ia_program::{BundleOf, Program, Template};
use image_form::spell_bundles;
use std::alloc::{AllocError, Global};

/// The digits of a bundle's bytes, the first byte first.
fn push_digits(out: &mut Vec<u8>, bytes: [u8; 16]) -> Result<(), AllocError>
    ensures { OnOk result (out.new.items ≡ out.old.items ++ encode_lower bytes) }
{
    let mut digits = [0_u8; 32];
    match encode_to_slice(bytes, &mut digits) {
        Ok(()) => push_bytes(out, &digits),
        Err(_) => unreachable!(),
    }
}

/// The letters of a template's units, as `mii`.
fn push_letters(out: &mut Vec<u8>, template: Template) -> Result<(), AllocError>
    ensures { OnOk result (out.new.items ≡ out.old.items ++ map unit_letter (units_of template)) }
{
    let [first, second, third] = template.units();
    push_bytes(
        out,
        &[unit_letter(first), unit_letter(second), unit_letter(third)],
    )
}

/// The line of a bundle: its number, its bytes and its template's name.
fn push_head(
    out: &mut Vec<u8>,
    n: u32,
    bytes: [u8; 16],
    template: Template,
) -> Result<(), AllocError>
    ensures { OnOk result (out.new.items ≡ out.old.items ++ head_listed n bytes template) }
{
    push_decimal(out, u64::from(n))?;
    push_bytes(out, b" ")?;
    push_digits(out, bytes)?;
    push_bytes(out, b" ")?;
    push_letters(out, template)?;
    push_bytes(out, b"\n")
}

/// The lines of the n-th bundle, which has these bytes.
fn push_bundle(
    out: &mut Vec<u8>,
    count: usize,
    n: u32,
    bundle: &BundleOf,
    bytes: [u8; 16],
) -> Result<(), AllocError>
    requires sound { AreSound count n bundle.now.slots }
    requires spelled { IsSpelled bundle.now bytes }
    ensures { OnOk result (IsAppended out.old.items out.new.items (IsBundleListing n bundle.now)) }
{
    push_head(out, n, bytes, bundle.template())?;
    push_slots(out, count, n, bundle.template(), bundle.slots())
}

/// The lines of bundles, which have these bytes.
#[tactic(auto, using(crate::proofs::Listed::none_listed))]
fn push_listed(out: &mut Vec<u8>, bundles: &[BundleOf], bytes: &[u8]) -> Result<(), AllocError>
    requires few { length bundles.now ≤ BUNDLE_LIMIT }
    requires sound { AreAllSound (length bundles.now) bundles.now }
    requires spelled { AreSpelled bundles.now bytes.now }
    ensures { OnOk result (IsAppended out.old.items out.new.items (AreBundleListings 0 bundles.now)) }
{
    let mut n = 0;
    let mut rest = bytes;
    while n < bundles.len() {
        let Some((chunk, after)) = rest.split_first_chunk::<16>() else {
            unreachable!();
        };
        push_bundle(out, bundles.len(), n as u32, &bundles[n], *chunk)?;
        rest = after;
        n += 1;
    }
    Ok(())
}

/// The listing of a program: for each bundle in order a line with its number, its sixteen bytes in
/// hexadecimal as they stand in memory and its template's name, and then the lines of its slots as in the
/// canonical text. The error is want of memory.
pub fn list(alloc: Global, program: &Program) -> Result<Vec<u8>, AllocError>
    ensures { IfOk result (λ text. IsListing program.now text.items) }
{
    program.is_program();
    list_of(alloc, program, &spell_bundles(alloc, program.bundles())?)
}

/// The listing of a program, where the bytes of its bundles are known. No bundle is encoded. The error is
/// want of memory.
#[tactic(auto, using(crate::proofs::Soundness::all_sound))]
pub fn list_of(alloc: Global, program: &Program, bundles: &[u8]) -> Result<Vec<u8>, AllocError>
    requires { AreSpelled program.now.bundles bundles.now }
    ensures { IfOk result (λ text. IsListing program.now text.items) }
{
    program.is_program();
    let mut out = Vec::new(alloc);
    push_listed(&mut out, program.bundles(), bundles)?;
    Ok(out)
}

//! Bundles in sixteen bytes each.

ghost use Rattle.std.specs.Prelude.{◌≡◌, ◌≢◌, ◌+◌, ◌%◌, ◌<◌, ◌^◌, [], ◌∷◌, ◌++◌, length, vec_len, vec_capacity, IfOk, IfErr};
ghost use Rattle.first_fault.specs.Stages.{IsFirstFault};
ghost use Rattle.image_form.specs.Images.{AreSpelled};
ghost use Rattle.image_form.specs.Faults.{spelling_stage};

use crate::fault::ImageFault;
use ia_program::BundleOf;
use insn_codec::{decode_bundle, encode_bundle};
use std::alloc::{AllocError, Global};

/// Appends a bundle where there is room.
fn push(bundles: &mut Vec<BundleOf>, bundle: BundleOf)
    requires { vec_len bundles.old < vec_capacity bundles.old }
    ensures items { bundles.new.items ≡ bundles.old.items ++ bundle ∷ [] }
    ensures len { vec_len bundles.new ≡ vec_len bundles.old + 1 }
    ensures capacity { vec_capacity bundles.new ≡ vec_capacity bundles.old }
{
    bundles.push_reserved(bundle);
}

/// The bundles that bytes are, one after the other, or the first that is none.
pub(crate) fn read_bundles(alloc: Global, bytes: &[u8]) -> Result<Vec<BundleOf>, ImageFault>
    requires whole { length bytes.now % 16 ≡ 0 }
    requires limit { length bytes.now < 2 ^ 32 }
    ensures found { IfOk result (λ bundles. AreSpelled bundles.items bytes.now) }
    ensures fault { IfErr result (λ fault. fault ≢ ImageFault.Memory → IsFirstFault (spelling_stage bytes.now ∷ []) fault) }
{
    let mut bundles = Vec::with_capacity(alloc, bytes.len() / 16)?;
    let mut rest = bytes;
    while let Some((chunk, after)) = rest.split_first_chunk::<16>() {
        match decode_bundle(chunk) {
            Ok(bundle) => push(&mut bundles, bundle),
            Err(fault) => {
                return Err(ImageFault::Bundle {
                    n: bundles.len() as u32,
                    fault,
                });
            }
        }
        rest = after;
    }
    Ok(bundles)
}

/// The bytes of bundles, one after the other. The error is want of memory.
pub fn spell_bundles(alloc: Global, bundles: &[BundleOf]) -> Result<Vec<u8>, AllocError>
    requires { length bundles.now < 2 ^ 32 }
    ensures { IfOk result (λ bytes. AreSpelled bundles.now bytes.items) }
{
    let mut bytes = Vec::with_capacity(alloc, 16 * bundles.len())?;
    for bundle in bundles {
        bytes.extend_from_slice(&encode_bundle(bundle))?;
    }
    Ok(bytes)
}

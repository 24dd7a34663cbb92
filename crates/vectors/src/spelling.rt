//! The bytes of a bundle.

ghost use Rattle.std.specs.Prelude.{◌↔◌, IsTrue};
ghost use Rattle.insn_codec.specs.Spelling.{IsSpelled};

use ia_program::BundleOf;
use insn_codec::encode_bundle;

/// Whether the bundle has these bytes.
pub fn is_spelled(bundle: &BundleOf, bytes: &[u8; 16]) -> bool
    ensures { IsTrue result ↔ IsSpelled bundle.now bytes.now }
{
    encode_bundle(bundle) == *bytes
}

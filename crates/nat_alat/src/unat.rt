//! The user NaT collection register UNAT, a word of 64 NaT bits.

ghost use Rattle.std.specs.Prelude.{◌≡◌, ◌≤◌};
ghost use Rattle.ia_meaning.specs.Loads.{unat_bit};
ghost use Rattle.ia_meaning.specs.Steps.{with_bit};

use integer_ops::bit;

/// The bit of UNAT, 0 to 63, that a spill to an address or a fill from it uses: bits 8:3 of the address.
pub(crate) fn unat_bit(address: u64) -> u8
    ensures value { result ≡ unat_bit address }
    ensures within { result ≤ 63 }
{
    ((address / 8) % 64) as u8
}

/// The word with the bit at a position, 0 to 63, as given.
#[tactic(auto, using(crate::proofs::NatBits::already, crate::proofs::NatBits::bit_set, crate::proofs::NatBits::bit_cleared, crate::proofs::NatBits::sum_fits, crate::proofs::NatBits::weight_within))]
pub(crate) fn with_bit(word: u64, pos: u8, value: bool) -> u64
    requires { pos ≤ 63 }
    ensures { result ≡ with_bit word pos value }
{
    if bit(word, pos) == value {
        return word;
    }
    let weight = 1 << pos;
    if value { word + weight } else { word - weight }
}

//! Bit fields of a word.

ghost use Rattle.std.specs.Prelude.{◌≡◌, ℕ, ◌+◌, ◌*◌, ◌/◌, ◌%◌, ◌^◌, ◌<◌, ◌≤◌};
ghost use Rattle.bundle_bits.specs.Bits.{IsField};
ghost use Rattle.bundle_bits.specs.Words.{bits};

/// The `W` bits of a 64-bit word from bit `LO` up, where bit 0 is the lowest.
///
/// `W` is at least 1, and `LO + W` at most 64. The type names a field of an instruction's word,
/// as `Field<37, 4>` its major opcode, bits 40:37 (volume 3, chapter 4, format summary). No value
/// of it is needed.
pub struct Field<const LO: u32, const W: u32>;

impl<const LO: u32, const W: u32> Field<LO, W> {
    /// The number in the field, its lowest bit counting 1.
    pub fn get(word: u64) -> u64
        requires { IsField LO W }
        ensures value { result ≡ bits LO W word }
        ensures within { result < 2 ^ W }
    {
        (word >> LO) & (u64::MAX >> (64 - W))
    }
}

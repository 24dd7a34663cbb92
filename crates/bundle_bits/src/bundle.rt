//! The template and the slots of a bundle.

ghost use Rattle.std.specs.Prelude.{◌≡◌, List, ℕ};
ghost use Rattle.std.specs.Int.{w128, from_le_bytes};
ghost use Rattle.bundle_bits.specs.RawBundle.{bundle_number, HasWidths, AreBytes};

/// How many templates five bits can tell apart.
const TEMPLATES: u128 = 1 << 5;

/// How many words a slot's 41 bits can tell apart.
const SLOT_WORDS: u128 = 1 << 41;

/// The template and the three slots of a bundle, as numbers.
#[derive(Clone, Copy, Debug, PartialEq, Eq)]
pub struct RawBundle {
    /// Which units the slots take and where the stops are: below 32 in a bundle.
    pub template: u8,

    /// The words of slots 0, 1 and 2: each below 2^41 in a bundle.
    pub slots: [u64; 3],
}

/// The template and the slots of a bundle's sixteen bytes (volume 1, chapter 3, instruction
/// encoding overview). Any sixteen bytes have them; whether the template is reserved is not
/// looked at.
pub fn split(bytes: &[u8; 16]) -> RawBundle
    // A template below 32 and three slots below 2^41.
    ensures parts { HasWidths result }

    // The bytes as a little-endian number are template + slot 0 * 2^5 + slot 1 * 2^46 + slot 2 * 2^87.
    ensures number { bundle_number result ≡ from_le_bytes w128 bytes.now }

    // No other bundle has these bytes, so what was joined is split into the same parts.
    ensures only { (raw : RawBundle) → HasWidths raw → bundle_number raw ≡ from_le_bytes w128 bytes.now → raw ≡ result }
{
    let number = u128::from_le_bytes(*bytes);
    let slots = number / TEMPLATES;
    let later_slots = slots / SLOT_WORDS;
    RawBundle {
        template: (number % TEMPLATES) as u8,
        slots: [
            (slots % SLOT_WORDS) as u64,
            (later_slots % SLOT_WORDS) as u64,
            (later_slots / SLOT_WORDS) as u64,
        ],
    }
}

/// The sixteen bytes of a bundle: the way back from [`split`].
pub fn join(raw: &RawBundle) -> [u8; 16]
    requires { HasWidths raw.now }

    // The bytes as a little-endian number are template + slot 0 * 2^5 + slot 1 * 2^46 + slot 2 * 2^87.
    ensures number { from_le_bytes w128 result ≡ bundle_number raw.now }

    // No other bytes have this number, so joining what was split gives the bytes back.
    ensures only { (bytes : List ℕ) → AreBytes bytes → from_le_bytes w128 bytes ≡ bundle_number raw.now → bytes ≡ result }
{
    let number = u128::from(raw.template)
        + u128::from(raw.slots[0]) * TEMPLATES
        + u128::from(raw.slots[1]) * (TEMPLATES * SLOT_WORDS)
        + u128::from(raw.slots[2]) * (TEMPLATES * SLOT_WORDS * SLOT_WORDS);
    number.to_le_bytes()
}

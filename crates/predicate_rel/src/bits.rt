//! Rows: words whose bit y is what a set has of the y-th predicate.

ghost use Rattle.std.specs.Prelude.{◌≡◌, ◌≢◌, ℕ, ◌-◌, ◌<◌, ◌&&◌, ◌||◌, ◌==◌, nat_lt, if◌then◌else◌, not, true, false};
ghost use Rattle.std.specs.Bool.{OnTrue, OnFalse};
ghost use Rattle.predicate_rel.specs.Pairs.{has_bit};

/// The bit of a row.
#[tactic(auto, using(crate::proofs::BitLemmas::has_bit_test))]
pub fn has_bit(word: u64, y: u8) -> bool
    requires { y < 64 }
    ensures { result ≡ has_bit word y }
{
    (word >> y) & 1 == 1
}

/// The row with its bit k set or cleared.
#[tactic(auto, using(crate::proofs::BitLemmas::set_value, crate::proofs::BitLemmas::clear_value))]
pub(crate) fn with_bit(word: u64, k: u8, value: bool) -> u64
    requires { k < 64 }
    ensures { (y : ℕ) → y < 64 → has_bit result y ≡ (if y == k then value else has_bit word y) }
{
    if value {
        word | (1 << k)
    } else {
        word & !(1 << k)
    }
}

/// The row with its bit k set where `on` says so.
pub(crate) fn with_bit_where(word: u64, k: u8, on: bool) -> u64
    requires { k < 64 }
    ensures { (y : ℕ) → y < 64 → has_bit result y ≡ (has_bit word y || (on && y == k)) }
{
    if on { with_bit(word, k, true) } else { word }
}

/// The bits of both rows.
#[tactic(auto, using(crate::proofs::BitLemmas::has_bit_and))]
pub(crate) fn both(a: u64, b: u64) -> u64
    ensures { (y : ℕ) → has_bit result y ≡ (has_bit a y && has_bit b y) }
{
    a & b
}

/// The bits of either row.
#[tactic(auto, using(crate::proofs::BitLemmas::has_bit_or))]
pub(crate) fn either(a: u64, b: u64) -> u64
    ensures { (y : ℕ) → has_bit result y ≡ (has_bit a y || has_bit b y) }
{
    a | b
}

/// Whether the rows have no bit in common.
pub(crate) fn is_apart(a: u64, b: u64) -> bool
    ensures { result ≡ true → (y : ℕ) → has_bit b y ≡ true → has_bit a y ≡ false }
{
    a & b == 0
}

/// Whether each bit of a is in b.
pub(crate) fn is_within(a: u64, b: u64) -> bool
    ensures within { OnTrue result ((y : ℕ) → y < 64 → has_bit a y ≡ true → has_bit b y ≡ true) }
    ensures more { OnFalse result ((y : ℕ) × (y < 64) × (has_bit a y ≡ true) × (has_bit b y ≡ false)) }
{
    a & !b == 0
}

/// The bits of a where the mask has one, and those of b elsewhere.
#[tactic(auto, using(crate::proofs::BitLemmas::chosen_bits))]
pub(crate) fn chosen(mask: u64, a: u64, b: u64) -> u64
    ensures { (y : ℕ) → y < 64 → has_bit result y ≡ (if has_bit mask y then has_bit a y else has_bit b y) }
{
    (a & mask) | (b & !mask)
}

/// The row, where it is kept; else no bit.
#[tactic(auto, using(crate::proofs::BitLemmas::has_bit_none))]
pub(crate) fn kept_if(word: u64, keep: bool) -> u64
    ensures { (y : ℕ) → has_bit result y ≡ (has_bit word y && keep) }
{
    if keep { word } else { 0 }
}

/// Each bit, or none.
#[tactic(auto, using(crate::proofs::BitLemmas::has_bit_all, crate::proofs::BitLemmas::has_bit_none))]
pub(crate) fn all_if(on: bool) -> u64
    ensures { (y : ℕ) → y < 64 → has_bit result y ≡ on }
{
    if on { u64::MAX } else { 0 }
}

/// The bits of p0 to p15 of one row, and those of p16 to p63, which rotate, of another.
#[tactic(auto, using(crate::proofs::BitLemmas::has_bit_fixed))]
pub(crate) fn joined(fixed: u64, rotating: u64) -> u64
    ensures { (y : ℕ) → y < 64 → has_bit result y ≡ (if nat_lt y 16 then has_bit fixed y else has_bit rotating y) }
{
    chosen(0xffff, fixed, rotating)
}

/// The row with each bit at the next place; bit 63 is lost.
#[tactic(auto, using(crate::proofs::BitLemmas::has_bit_moved))]
pub(crate) fn moved_up(word: u64) -> u64
    ensures { (y : ℕ) → y < 64 → y ≢ 0 → has_bit result y ≡ has_bit word (y - 1) }
{
    word << 1
}

/// The lowest bit of a row that has one.
#[tactic(auto, using(crate::proofs::BitLemmas::lowest_there))]
pub(crate) fn lowest(word: u64) -> u8
    requires { word ≢ 0 }
    ensures range { result < 64 }
    ensures there { has_bit word result ≡ true }
{
    word.trailing_zeros() as u8
}

/// The row without its bit k, which is less.
#[tactic(auto, using(crate::proofs::BitLemmas::without_bits, crate::proofs::BitLemmas::without_less))]
pub(crate) fn without(word: u64, k: u8) -> u64
    requires range { k < 64 }
    requires there { has_bit word k ≡ true }
    ensures bits { (y : ℕ) → y < 64 → has_bit result y ≡ (not (y == k) && has_bit word y) }
    ensures less { result < word }
{
    word & !(1 << k)
}

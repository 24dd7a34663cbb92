//! Shifts (volume 3, chapter 2: `shr`, `shl` and `shrp`).

ghost use Rattle.std.specs.Prelude.{◌≡◌, ◌≤◌};
ghost use Rattle.ia_meaning.specs.Arithmetic.{shift_right, shift_left, shift_right_signed, shift, shift_pair};

use ia_insn::ShiftFn;

/// The word shifted right and filled with zeros. A count above 63 gives 0.
fn shift_right(a: u64, count: u64) -> u64
    ensures { result ≡ shift_right a count }
{
    if count < 64 { a >> count } else { 0 }
}

/// The word shifted left and filled with zeros. A count above 63 gives 0.
fn shift_left(a: u64, count: u64) -> u64
    ensures { result ≡ shift_left a count }
{
    if count < 64 { a << count } else { 0 }
}

/// The word shifted right and filled with its sign. A count above 63 gives copies of the sign.
pub(crate) fn shift_right_signed(a: u64, count: u64) -> u64
    ensures { result ≡ shift_right_signed a count }
{
    (a.cast_signed() >> count.min(63)).cast_unsigned()
}

/// A shift of `a` by a count in a register.
pub(crate) fn shift(f: ShiftFn, a: u64, count: u64) -> u64
    ensures { result ≡ shift f a count }
{
    match f {
        ShiftFn::Shr => shift_right_signed(a, count),
        ShiftFn::ShrU => shift_right(a, count),
        ShiftFn::Shl => shift_left(a, count),
    }
}

/// The low word of the pair of `a` above `b`, shifted right by `count`, 0 to 63.
#[tactic(auto, using(crate::proofs::Words::pair_of))]
pub(crate) fn shift_pair(count: u8, a: u64, b: u64) -> u64
    requires { count ≤ 63 }
    ensures { result ≡ shift_pair count a b }
{
    if count == 0 {
        b
    } else {
        (a << (64 - count)) | (b >> count)
    }
}

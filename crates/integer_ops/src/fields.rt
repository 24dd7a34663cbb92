//! Fields of a word (volume 3, chapter 2: `extr`, `dep`, `sxt`, `zxt` and `tbit`).

ghost use Rattle.std.specs.Prelude.{◌≡◌, ◌+◌, ◌-◌, ◌*◌, ◌%◌, ◌<◌, ◌≤◌, ◌^◌};
ghost use Rattle.ia_insn.specs.Ranges.{IsBitField, IsPartSize};
ghost use Rattle.ia_meaning.specs.Arithmetic.{extended, cut, extract, deposit, extend, bit};

use crate::shifts::shift_right_signed;

/// The word whose lowest bits, 1 to 64 of them, are ones.
#[tactic(auto, using(crate::proofs::Words::ones_of))]
fn low_ones(width: u8) -> u64
    requires some { 1 ≤ width }
    requires within { width ≤ 64 }
    ensures { result ≡ 2 ^ width - 1 }
{
    u64::MAX >> (64 - width)
}

/// The low bits of a word, 1 to 64 of them.
#[tactic(auto, using(crate::proofs::Words::masked))]
fn low_bits(number: u64, width: u8) -> u64
    requires some { 1 ≤ width }
    requires within { width ≤ 64 }
    ensures value { result ≡ number % 2 ^ width }
    ensures fits { result < 2 ^ width }
{
    number & low_ones(width)
}

/// A number of so many bits, 1 to 64, sign-extended to a word.
#[tactic(auto, using(crate::proofs::Words::extended_of))]
fn extended(width: u8, number: u64) -> u64
    requires some { 1 ≤ width }
    requires within { width ≤ 64 }
    requires fits { number < 2 ^ width }
    ensures { result ≡ extended width number }
{
    let unused = 64 - width;
    shift_right_signed(number << unused, u64::from(unused))
}

/// The length of a field, cut at bit 63.
fn cut(pos: u8, len: u8) -> u8
    requires { IsBitField pos len 64 }
    ensures value { result ≡ cut pos len }
    ensures some { 1 ≤ result }
    ensures within { pos + result ≤ 64 }
{
    len.min(64 - pos)
}

/// The field of a word from a position on, filled with zeros or, where `signed` is set, with its sign. A
/// field that passes bit 63 is cut there, and its sign is bit 63.
pub(crate) fn extract(signed: bool, pos: u8, len: u8, a: u64) -> u64
    requires { IsBitField pos len 64 }
    ensures { result ≡ extract signed pos len a }
{
    let width = cut(pos, len);
    let number = low_bits(a >> pos, width);
    if signed {
        extended(width, number)
    } else {
        number
    }
}

/// The low bits of `x` as a field of `a`, whose other bits stay. A field that passes bit 63 is cut there.
#[tactic(auto, using(crate::proofs::Words::deposited))]
pub(crate) fn deposit(pos: u8, len: u8, x: u64, a: u64) -> u64
    requires { IsBitField pos len 64 }
    ensures { result ≡ deposit pos len x a }
{
    let width = cut(pos, len);
    let others = !(low_ones(width) << pos);
    (a & others) | (low_bits(x, width) << pos)
}

/// The low 1, 2 or 4 bytes of a word, filled with zeros or, where `signed` is set, with their sign.
pub(crate) fn extend(signed: bool, size: u8, a: u64) -> u64
    requires { IsPartSize size }
    ensures { result ≡ extend signed size a }
{
    let width = 8 * size;
    let number = low_bits(a, width);
    if signed {
        extended(width, number)
    } else {
        number
    }
}

/// Whether the bit at a position, 0 to 63, is 1.
pub fn bit(a: u64, pos: u8) -> bool
    requires { pos ≤ 63 }
    ensures { result ≡ bit a pos }
{
    (a >> pos) & 1 == 1
}

//! Sums, differences and bitwise operations (volume 3, chapter 2: `add`, `sub`, `addp4`, `and`, `andcm`,
//! `or`, `xor`, `shladd` and `shladdp4`).

ghost use Rattle.std.specs.Prelude.{◌≡◌, ◌^◌, ◌≤◌};
ghost use Rattle.ia_meaning.specs.Arithmetic.{immediate, pointer, alu, shift_add};

use ia_insn::AluFn;

/// A signed immediate as a word: sign-extended.
pub(crate) fn immediate(imm: i64) -> u64
    ensures { result ≡ immediate imm }
{
    imm.cast_unsigned()
}

/// A sum as a pointer of 32 bits: its low 32 bits, and bits 31:30 of the base as bits 62:61.
fn pointer(sum: u64, base: u64) -> u64
    ensures { result ≡ pointer sum base }
{
    (((base >> 30) & 3) << 61) | (sum & 0xffff_ffff)
}

/// An operation of the arithmetic and logic unit on two words.
pub(crate) fn alu(f: AluFn, a: u64, b: u64) -> u64
    ensures { result ≡ alu f a b }
{
    match f {
        AluFn::Add => a.wrapping_add(b),
        AluFn::Add1 => a.wrapping_add(b).wrapping_add(1),
        AluFn::Sub => a.wrapping_sub(b),
        AluFn::Sub1 => a.wrapping_sub(b).wrapping_sub(1),
        AluFn::Addp4 => pointer(a.wrapping_add(b), b),
        AluFn::And => a & b,
        AluFn::Andcm => a & !b,
        AluFn::Or => a | b,
        AluFn::Xor => a ^ b,
    }
}

/// `a` shifted left by `count`, 0 to 63, plus `b`; where `p4` is set, the sum as a pointer of 32 bits.
pub(crate) fn shift_add(p4: bool, count: u8, a: u64, b: u64) -> u64
    requires { count ≤ 63 }
    ensures { result ≡ shift_add p4 count a b }
{
    let sum = (a << count).wrapping_add(b);
    if p4 { pointer(sum, b) } else { sum }
}

//! The codes of values, and the values of codes.

ghost use Rattle.std.specs.Prelude.{◌≡◌, ◌≢◌, ℕ, ◌+◌, ◌*◌, ◌/◌, ◌%◌, ◌<◌, ◌≤◌, ◌^◌, ◌↔◌, IsTrue, IfSome, pos, neg_ℤ, unsigned_abs, if◌then◌else◌, nat_lt};
ghost use Rattle.ia_insn.specs.Signed.{twos, signed_value, FitsSigned, flag};
ghost use Rattle.ia_insn.specs.Sizes.{code_of_size, size_of_code};
ghost use Rattle.ia_insn.specs.Ranges.{IsAccessSize, IsIncrement};
ghost use Rattle.insn_rows.specs.Codings.{Takes, code, is_negative, code_of_step};
ghost use Rattle.insn_rows.specs.Reading.{value, step_of_code, increment_of_code};
ghost use Rattle.insn_rows.specs.WellMade.{is_sized};
ghost use Rattle.insn_rows.specs.Rows.{operand_width};
ghost use Rattle.insn_rows.specs.declared.value.Value.TheVariants.{Small, Short, Signed};

use crate::row::{Coding, Operand};
use crate::value::Value;
use ia_insn::{Br, Gr, Pr};

/// Whether a number has at most `width` bits.
#[inline]
#[tactic(auto, using(crate::proofs::Numbers::shifted, crate::proofs::Numbers::unshifted))]
fn is_within(number: u64, width: u32) -> bool
    requires { width ≤ 62 }
    ensures { IsTrue result ↔ number < 2 ^ width }
{
    number >> width == 0
}

/// 2 to a power.
#[inline]
#[tactic(auto, using(crate::proofs::Numbers::power_is, crate::proofs::Numbers::power_most))]
fn power(exponent: u32) -> u64
    requires { exponent ≤ 61 }
    ensures value { result ≡ 2 ^ exponent }
    ensures within { result ≤ 2 ^ 61 }
{
    1 << exponent
}

/// Whether `width` bits are enough for the two's complement of a signed number.
#[inline]
fn fits_signed(number: i64, width: u32) -> bool
    requires some { 1 ≤ width }
    requires within { width ≤ 62 }
    ensures { IsTrue result ↔ FitsSigned width number }
{
    let half = power(width - 1) as i64;
    -half <= number && number < half
}

/// The two's complement, of `width` bits, of a signed number for which these are enough.
#[inline]
fn twos(number: i64, width: u32) -> u64
    requires some { 1 ≤ width }
    requires within { width ≤ 62 }
    requires fits { FitsSigned width number }
    ensures code { result ≡ twos width number }
    ensures within { result < 2 ^ width }
{
    if number >= 0 {
        number as u64
    } else {
        2 * power(width - 1) - 1 - (-(number + 1)) as u64
    }
}

/// The signed number whose two's complement of `width` bits this is.
#[tactic(auto, using(crate::proofs::Numbers::signed_fits))]
fn signed_within(number: u64, width: u32) -> i64
    requires some { 1 ≤ width }
    requires within { width ≤ 62 }
    requires bits { number < 2 ^ width }
    ensures value { result ≡ signed_value width number }
    ensures fits { FitsSigned width result }
{
    let half = power(width - 1);
    if number < half {
        number as i64
    } else {
        -((2 * half - 1 - number) as i64) - 1
    }
}

/// The signed number whose two's complement of `width` bits this is, at most 16.
#[tactic(auto, using(crate::proofs::Numbers::wider))]
fn short_within(number: u64, width: u32) -> i16
    requires some { 1 ≤ width }
    requires within { width ≤ 16 }
    requires bits { number < 2 ^ width }
    ensures { result ≡ signed_value width number }
{
    signed_within(number, width) as i16
}

/// The signed number whose two's complement of `width` bits this is, at most 32.
#[tactic(auto, using(crate::proofs::Numbers::wider))]
fn displacement_within(number: u64, width: u32) -> i32
    requires some { 1 ≤ width }
    requires within { width ≤ 32 }
    requires bits { number < 2 ^ width }
    ensures { result ≡ signed_value width number }
{
    signed_within(number, width) as i32
}

/// The signed number whose 16 low bits are zeros and whose others are these `width` bits.
#[tactic(auto, using(crate::proofs::Numbers::raised_in_64, crate::proofs::Numbers::raised_whole))]
fn signed_above(number: u64, width: u32) -> i64
    requires within { width ≤ 41 }
    requires fits { number < 2 ^ width }
    ensures { result ≡ signed_value (width + 16) (number * 2 ^ 16) }
{
    signed_within(number << 16, width + 16)
}

/// Whether this is 1, 2, 4 or 8.
fn is_size(number: u8) -> bool
    ensures { IsTrue result ↔ IsAccessSize number }
{
    matches!(number, 1 | 2 | 4 | 8)
}

/// The code of 1, 2, 4 or 8 bytes.
fn code_of_size(size: u8) -> u64
    ensures { result ≡ code_of_size size }
{
    match size {
        1 => 0,
        2 => 1,
        4 => 2,
        _ => 3,
    }
}

/// How many bytes a code says by its low two bits: 1, 2, 4 or 8.
fn size_of_code(code: u64) -> u8
    ensures { result ≡ size_of_code code }
{
    match code % 4 {
        0 => 1,
        1 => 2,
        2 => 4,
        _ => 8,
    }
}

/// Whether this is an increment of a fetch-and-add.
fn is_increment(number: i16) -> bool
    ensures { IsTrue result ↔ IsIncrement number }
{
    matches!(number.unsigned_abs(), 1 | 4 | 8 | 16)
}

/// The code of an increment of a fetch-and-add.
fn code_of_increment(number: i16) -> u64
    ensures { result ≡ 4 * flag (is_negative number) + code_of_step (unsigned_abs number) }
{
    let step = match number.unsigned_abs() {
        16 => 0,
        8 => 1,
        4 => 2,
        _ => 3,
    };
    if number < 0 { step + 4 } else { step }
}

/// The increment with a code.
fn increment_of_code(code: u64) -> i16
    requires { code < 8 }
    ensures { result ≡ increment_of_code code }
{
    let step = match code % 4 {
        0 => 16,
        1 => 8,
        2 => 4,
        _ => 1,
    };
    if code < 4 { step } else { -step }
}

/// Whether an operand may have a number.
fn takes_small(operand: &Operand, number: u8) -> bool
    requires { IsTrue (is_sized operand.now) }
    ensures { IsTrue result ↔ Takes operand.now.coding (operand_width operand.now) (Small number) }
{
    match operand.coding {
        Coding::Small => is_within(u64::from(number), operand.bits.width()),
        Coding::UpTo(most) => number <= most,
        Coding::LoadHint => number <= 3 && number != 2,
        Coding::StoreHint => number == 0 || number == 3,
        Coding::LessOne => number >= 1 && is_within(u64::from(number - 1), operand.bits.width()),
        Coding::From63 => number <= 63,
        Coding::Size(least, most) => is_size(number) && least <= number && number <= most,
        _ => false,
    }
}

/// Whether an operand may have a signed number.
fn takes_signed(operand: &Operand, number: i64) -> bool
    requires { IsTrue (is_sized operand.now) }
    ensures { IsTrue result ↔ Takes operand.now.coding (operand_width operand.now) (Signed number) }
{
    match operand.coding {
        Coding::Signed => fits_signed(number, operand.bits.width()),
        Coding::RotatingMask => {
            let width = operand.bits.width() + 16;
            fits_signed(number, width) && twos(number, width) % 0x1_0000 == 0
        }
        _ => false,
    }
}

/// Whether an operand may have a value.
#[inline]
#[tactic(auto, using(crate::proofs::Numbers::half_below, crate::proofs::Numbers::half_above, crate::proofs::Numbers::known_above))]
pub(crate) fn takes(operand: &Operand, value: &Value) -> bool
    requires { IsTrue (is_sized operand.now) }
    ensures { IsTrue result ↔ Takes operand.now.coding (operand_width operand.now) value.now }
{
    let value = *value;
    match value {
        Value::Absent => matches!(operand.coding, Coding::Absent),
        Value::Gr(r) => match operand.coding {
            Coding::Gr => true,
            Coding::LowGr => r.number() <= 3,
            Coding::Target => !r.is_zero(),
            _ => false,
        },
        Value::Pr(p) => match operand.coding {
            Coding::Pr => true,
            Coding::NoPredicate => p.is_zero(),
            _ => false,
        },
        Value::Br(_b) => matches!(operand.coding, Coding::Br),
        Value::Flag(_) => matches!(operand.coding, Coding::Flag),
        Value::Small(number) => takes_small(operand, number),
        Value::Wide(number) => {
            matches!(operand.coding, Coding::Wide) && is_within(number, operand.bits.width())
        }
        Value::Mask(mask) => {
            matches!(operand.coding, Coding::PredicateMask)
                && mask % 2 == 0
                && is_within(u64::from(mask) / 2, operand.bits.width())
        }
        Value::Signed(number) => takes_signed(operand, number),
        Value::Short(number) => match operand.coding {
            Coding::Short => fits_signed(i64::from(number), operand.bits.width()),
            Coding::Increment => is_increment(number),
            _ => false,
        },
        Value::Displacement(number) => {
            matches!(operand.coding, Coding::Displacement)
                && fits_signed(i64::from(number), operand.bits.width())
        }
    }
}

/// The code of a number that an operand may have.
fn code_of_small(coding: Coding, number: u8) -> u64
    requires { (width : ℕ) × Takes coding width (Small number) }
    ensures { (width : ℕ) → result ≡ code coding width (Small number) }
{
    match coding {
        Coding::LessOne => u64::from(number - 1),
        Coding::From63 => u64::from(63 - number),
        Coding::Size(_, _) => code_of_size(number),
        _ => u64::from(number),
    }
}

/// The code of a value that an operand may have.
#[inline]
pub(crate) fn code_of(operand: &Operand, value: &Value) -> u64
    requires sized { IsTrue (is_sized operand.now) }
    requires takes { Takes operand.now.coding (operand_width operand.now) value.now }
    ensures { result ≡ code operand.now.coding (operand_width operand.now) value.now }
{
    match *value {
        Value::Absent => 0,
        Value::Gr(r) => u64::from(r.number()),
        Value::Pr(p) => u64::from(p.number()),
        Value::Br(b) => u64::from(b.number()),
        Value::Flag(set) => u64::from(set),
        Value::Small(number) => code_of_small(operand.coding, number),
        Value::Wide(number) => number,
        Value::Mask(mask) => u64::from(mask / 2),
        Value::Signed(number) => match operand.coding {
            Coding::RotatingMask => twos(number, operand.bits.width() + 16) / 0x1_0000,
            _ => twos(number, operand.bits.width()),
        },
        Value::Short(number) => match operand.coding {
            Coding::Increment => code_of_increment(number),
            _ => twos(i64::from(number), operand.bits.width()),
        },
        Value::Displacement(number) => twos(i64::from(number), operand.bits.width()),
    }
}

/// Sets a value to the one with a code, and says whether the operand may have it.
#[tactic(auto, using(crate::proofs::Numbers::small_below, crate::proofs::Numbers::mask_below, crate::proofs::Numbers::known_below, crate::proofs::Numbers::half_above, crate::proofs::Numbers::raised_fits, crate::proofs::Numbers::raised_zeros, crate::proofs::Numbers::signed_fits))]
pub(crate) fn set_value(operand: &Operand, code: u64, target: &mut Value) -> bool
    requires sized { IsTrue (is_sized operand.now) }
    requires fits { code < 2 ^ operand_width operand.now }
    ensures takes { IsTrue result ↔ Takes operand.now.coding (operand_width operand.now) (value operand.now.coding (operand_width operand.now) code) }
    ensures value { target.new ≡ value operand.now.coding (operand_width operand.now) code }
{
    match operand.coding {
        Coding::Absent => *target = Value::Absent,
        Coding::NoPredicate => *target = Value::Pr(Pr::default()),
        Coding::Gr | Coding::LowGr => *target = Value::Gr(Gr::of_field(code)),
        Coding::Target => {
            *target = Value::Gr(Gr::of_field(code));
            return code != 0;
        }
        Coding::Pr => *target = Value::Pr(Pr::of_field(code)),
        Coding::Br => *target = Value::Br(Br::of_field(code)),
        Coding::Flag => *target = Value::Flag(code == 1),
        Coding::Small => *target = Value::Small(code as u8),
        Coding::UpTo(most) => {
            *target = Value::Small(code as u8);
            return code <= u64::from(most);
        }
        Coding::LoadHint => {
            *target = Value::Small(code as u8);
            return code != 2;
        }
        Coding::StoreHint => {
            *target = Value::Small(code as u8);
            return code == 0 || code == 3;
        }
        Coding::LessOne => *target = Value::Small(code as u8 + 1),
        Coding::From63 => *target = Value::Small(63 - code as u8),
        Coding::Size(least, most) => {
            let size = size_of_code(code);
            *target = Value::Small(size);
            return least <= size && size <= most;
        }
        Coding::Increment => *target = Value::Short(increment_of_code(code)),
        Coding::Wide => *target = Value::Wide(code),
        Coding::PredicateMask => *target = Value::Mask(2 * code as u32),
        Coding::Signed => *target = Value::Signed(signed_within(code, operand.bits.width())),
        Coding::RotatingMask => *target = Value::Signed(signed_above(code, operand.bits.width())),
        Coding::Short => *target = Value::Short(short_within(code, operand.bits.width())),
        Coding::Displacement => {
            *target = Value::Displacement(displacement_within(code, operand.bits.width()))
        }
    }
    true
}

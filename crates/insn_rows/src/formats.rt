//! The formats, by the manual's names (volume 3, chapter 4, instruction formats). Formats of the same operands have the
//! name of the first. The number before each is its mask: the bits that are no operand's, of which the proof of each row says
//! that they are those.

use crate::operands::*;
use crate::row::{Check, Format, OperandList};

macro_rules! picture {
    ($mask:literal; $check:expr; $a:ident) => { picture!($mask; $check; $a, ABSENT) };
    ($mask:literal; $check:expr; $a:ident, $b:ident) => { picture!($mask; $check; $a, $b, ABSENT) };
    ($mask:literal; $check:expr; $a:ident, $b:ident, $c:ident) => { picture!($mask; $check; $a, $b, $c, ABSENT) };
    ($mask:literal; $check:expr; $a:ident, $b:ident, $c:ident, $d:ident) => {
        picture!($mask; $check; $a, $b, $c, $d, ABSENT)
    };
    ($mask:literal; $check:expr; $a:ident, $b:ident, $c:ident, $d:ident, $e:ident) => {
        picture!($mask; $check; $a, $b, $c, $d, $e, ABSENT)
    };
    ($mask:literal; $check:expr; $a:ident, $b:ident, $c:ident, $d:ident, $e:ident, $f:ident) => {
        picture!($mask; $check; $a, $b, $c, $d, $e, $f, ABSENT)
    };
    ($mask:literal; $check:expr; $a:ident, $b:ident, $c:ident, $d:ident, $e:ident, $f:ident, $g:ident) => {
        Format {
            operands: OperandList {
                first: $a,
                second: $b,
                third: $c,
                fourth: $d,
                fifth: $e,
                sixth: $f,
                seventh: $g,
            },
            check: $check,
            mask: $mask,
        }
    };
}

// The A formats.

/// Two registers.
pub const A1: Format = picture!(0xffff_ffff_f800_0000; Check::Free; QP, R1, R2, R3);

/// Shift left and add.
pub const A2: Format =
    picture!(0xffff_ffff_a000_0000; Check::Free; QP, POINTER_A2, R1, R2, COUNT2, R3);

/// An immediate of 8 bits and a register.
pub const A3: Format = picture!(0xffff_ffef_f800_0000; Check::Free; QP, R1, IMM8, R3);

/// An immediate of 14 bits and a register.
pub const A4: Format = picture!(0xffff_ffea_0000_0000; Check::Free; QP, POINTER_A4, R1, IMM14, R3);

/// An immediate of 22 bits and one of r0 to r3.
pub const A5: Format = picture!(0xffff_ffe0_0000_0000; Check::Free; QP, R1, IMM22, R3_A5);

/// A compare of two registers.
pub const A6: Format =
    picture!(0xffff_fffa_0000_1000; Check::Differ(2, 3); QP, FOUR, P1, P2, R2, R3);

/// A compare of r0 and a register.
pub const A7: Format = picture!(0xffff_fffa_000f_f000; Check::Differ(2, 3); QP, FOUR, P1, P2, R3);

/// A compare of an immediate and a register.
pub const A8: Format =
    picture!(0xffff_ffea_0000_1000; Check::Differ(2, 3); QP, FOUR, P1, P2, IMM8, R3);

/// Lanes of two registers.
pub const A9: Format = picture!(0xffff_ffed_f800_0000; Check::Free; QP, LANE_SIZE, R1, R2, R3);

// The I formats.

/// A shift right by a register.
pub const I5: Format = picture!(0xffff_ffff_f800_0000; Check::Free; QP, R1, R3, R2);

/// A shift left by a register.
pub const I7: Format = picture!(0xffff_ffff_f800_0000; Check::Free; QP, R1, R2, R3);

/// A population count.
pub const I9: Format = picture!(0xffff_ffff_f80f_e000; Check::Free; QP, R1, R3);

/// A shift right of a pair.
pub const I10: Format = picture!(0xffff_fffe_0000_0000; Check::Free; QP, R1, R2, R3, COUNT6);

/// Extract.
pub const I11: Format =
    picture!(0xffff_fffe_0000_0000; Check::Free; QP, SIGNED_I11, R1, R3, POS6, LEN6);

/// Zero and deposit.
pub const I12: Format = picture!(0xffff_fffe_0400_0000; Check::Free; QP, R1, R2, CPOS6_I12, LEN6);

/// Zero and deposit of an immediate of 8 bits.
pub const I13: Format = picture!(0xffff_ffee_0400_0000; Check::Free; QP, R1, IMM8, CPOS6_I12, LEN6);

/// Deposit of an immediate of one bit.
pub const I14: Format =
    picture!(0xffff_ffee_0000_2000; Check::Free; QP, R1, ONES, R3, CPOS6_I14, LEN6);

/// Deposit.
pub const I15: Format =
    picture!(0xffff_ffe0_0000_0000; Check::Free; QP, R1, R2, R3, CPOS6_I15, LEN4);

/// Test a bit.
pub const I16: Format =
    picture!(0xffff_fffe_0000_2000; Check::Differ(2, 3); QP, UNC, P1, P2, R3, POS6);

/// Test NaT.
pub const I17: Format = picture!(0xffff_fffe_000f_e000; Check::Differ(2, 3); QP, UNC, P1, P2, R3);

/// A number: I18 and I19, M37 and M48, B9, F15 and F16, and of X1 and X5 the part that the X slot holds.
pub const I18: Format = picture!(0xffff_ffef_fc00_0000; Check::Free; QP, IMM21);

/// A speculation check: I20 and M20.
pub const I20: Format = picture!(0xffff_ffee_0000_0000; Check::Free; QP, R2, DISPLACEMENT_I20);

/// A move to a branch register.
pub const I21: Format =
    picture!(0xffff_fffe_0000_1e00; Check::Free; QP, BR1, R2, RET, IH, WH_I21, TAG);

/// A move from a branch register.
pub const I22: Format = picture!(0xffff_ffff_ffff_0000; Check::Free; QP, R1, BR2);

/// A move to the predicates under a mask.
pub const I23: Format = picture!(0xffff_ffef_00f0_0000; Check::Free; QP, R2, MASK17);

/// A move of an immediate to the rotating predicates.
pub const I24: Format = picture!(0xffff_ffee_0000_0000; Check::Free; QP, IMM44);

/// A move into a register: I25, I28 and M31.
pub const I25: Format = picture!(0xffff_ffff_ffff_e000; Check::Free; QP, R1);

/// A move from a register: I26 and M29.
pub const I26: Format = picture!(0xffff_ffff_fff0_1fc0; Check::Free; QP, R2);

/// A move of an immediate: I27 and M30.
pub const I27: Format = picture!(0xffff_ffef_fff0_1fc0; Check::Free; QP, IMM8);

/// An extension.
pub const I29: Format =
    picture!(0xffff_ffff_c00f_e000; Check::Free; QP, SIGNED_I29, EXTENDED_SIZE, R1, R3);

// The M formats.

/// A load.
pub const M1: Format =
    picture!(0xffff_ffff_080f_e000; Check::Free; QP, ACCESS_SIZE, LOAD_HINT, R1, R3);

/// A fill.
pub const M1_FILL: Format =
    picture!(0xffff_ffff_080f_e000; Check::Free; QP, WHOLE_SIZE, LOAD_HINT, R1, R3);

/// A load, the base updated by a register.
pub const M2: Format =
    picture!(0xffff_ffff_0800_0000; Check::Differ(3, 4); QP, ACCESS_SIZE, LOAD_HINT, R1, BASE, R2);

/// A fill, the base updated by a register.
pub const M2_FILL: Format =
    picture!(0xffff_ffff_0800_0000; Check::Differ(3, 4); QP, WHOLE_SIZE, LOAD_HINT, R1, BASE, R2);

/// A load, the base updated by an immediate of 9 bits.
pub const M3: Format =
    picture!(0xffff_ffef_0000_0000; Check::Differ(3, 4); QP, ACCESS_SIZE, LOAD_HINT, R1, BASE, IMM9_M3);

/// A fill, the base updated by an immediate of 9 bits.
pub const M3_FILL: Format =
    picture!(0xffff_ffef_0000_0000; Check::Differ(3, 4); QP, WHOLE_SIZE, LOAD_HINT, R1, BASE, IMM9_M3);

/// A store.
pub const M4: Format =
    picture!(0xffff_ffff_0800_1fc0; Check::Free; QP, ACCESS_SIZE, STORE_HINT, R3, R2);

/// A spill.
pub const M4_SPILL: Format =
    picture!(0xffff_ffff_0800_1fc0; Check::Free; QP, WHOLE_SIZE, STORE_HINT, R3, R2);

/// A store, the base updated by an immediate of 9 bits.
pub const M5: Format =
    picture!(0xffff_ffef_0000_0000; Check::Free; QP, ACCESS_SIZE, STORE_HINT, BASE, R2, IMM9_M5);

/// A spill, the base updated by an immediate of 9 bits.
pub const M5_SPILL: Format =
    picture!(0xffff_ffef_0000_0000; Check::Free; QP, WHOLE_SIZE, STORE_HINT, BASE, R2, IMM9_M5);

/// An exchange.
pub const M16: Format =
    picture!(0xffff_ffff_0800_0000; Check::Free; QP, ACCESS_SIZE, LOAD_HINT, R1, R3, R2);

/// A fetch-and-add.
pub const M17: Format =
    picture!(0xffff_fffe_080f_0000; Check::Free; QP, FETCH_ADD_SIZE, RELEASE, LOAD_HINT, R1, R3, INC3);

/// An advanced load check.
pub const M22: Format =
    picture!(0xffff_ffec_0000_0000; Check::Free; QP, CLEAR, CHECKED_R1, DISPLACEMENT);

/// No operand but the qualifying predicate.
pub const M24: Format = picture!(0xffff_ffff_ffff_ffc0; Check::Free; QP);

/// The invalidation of an ALAT entry.
pub const M26: Format = picture!(0xffff_ffff_ffff_e000; Check::Free; QP, CHECKED_R1);

/// The allocation of a register stack frame.
pub const M34: Format =
    picture!(0xffff_ffff_8000_003f; Check::Frame(2, 3, 4); NO_QP, R1, SOF, SOL, SOR);

// The B formats.

/// A branch.
pub const B1: Format = picture!(0xffff_ffe0_0000_0fc0; Check::Free; QP, WH, P, D, DISPLACEMENT);

/// A counted loop branch.
pub const B2: Format = picture!(0xffff_ffe0_0000_0fff; Check::Free; NO_QP, WH, P, D, DISPLACEMENT);

/// A call.
pub const B3: Format =
    picture!(0xffff_ffe0_0000_0e00; Check::Free; QP, BR1, WH, P, D, DISPLACEMENT);

/// An indirect branch and a return.
pub const B4: Format = picture!(0xffff_fff1_ffff_0fc0; Check::Free; QP, BR2, WH, P, D);

/// An indirect call.
pub const B5: Format = picture!(0xffff_fff1_ffff_0e00; Check::Free; QP, BR1, BR2, WH, P, D);

/// The clearing of the rotating register bases.
pub const B8: Format = picture!(0xffff_ffff_f7ff_ffff; Check::Free; NO_QP, PREDICATES_ALONE);

// The X formats, of the word of the X slot.

/// A move of the part of an immediate of 64 bits that the X slot holds.
pub const X2: Format = picture!(0xffff_ffe0_0010_0000; Check::Free; QP, R1, IMM23);

//! The lowest bits of the fields of opcodes, by the manual's names (volume 3, chapter 4, instruction formats). A name that
//! stands in a second format too has there the first format that has it.

/// The major opcode.
pub const MAJOR: u32 = 37;

/// za.
pub const ZA: u32 = 36;

/// tb.
pub const TB: u32 = 36;

/// m.
pub const M: u32 = 36;

/// x2, of which the compares leave a bit to an operand.
pub const X2: u32 = 34;

/// x2a, of which A4 leaves a bit to an operand.
pub const X2A: u32 = 34;

/// x3, of which M22 leaves a bit to an operand.
pub const X3: u32 = 33;

/// x.
pub const X: u32 = 33;

/// ve.
pub const VE: u32 = 33;

/// zb.
pub const ZB: u32 = 33;

/// ta.
pub const TA: u32 = 33;

/// The lowest bit of wh of B5.
pub const WH_LOWEST_B5: u32 = 32;

/// ve of I5 to I9.
pub const VE_I5: u32 = 32;

/// x2 of M24 to M48.
pub const X2_M24: u32 = 31;

/// x2c.
pub const X2C: u32 = 30;

/// x6 of M1 to M17, whose low bits are a size and, of M17, one more a release.
pub const X6_M1: u32 = 30;

/// x4, of which A2 leaves a bit to an operand.
pub const X4: u32 = 29;

/// x2b of I5 to I9.
pub const X2B_I5: u32 = 28;

/// x2b.
pub const X2B: u32 = 27;

/// x4 of M24 to M48.
pub const X4_M24: u32 = 27;

/// x6, of which I29 and B8 leave bits to operands.
pub const X6: u32 = 27;

/// x of M1 to M17.
pub const X_M1: u32 = 27;

/// y.
pub const Y: u32 = 26;

/// ar3: the application register.
pub const AR3: u32 = 20;

/// vc.
pub const VC: u32 = 20;

/// y of I11, I16 and I17.
pub const Y_I11: u32 = 13;

/// c.
pub const C: u32 = 12;

/// btype.
pub const BTYPE: u32 = 6;

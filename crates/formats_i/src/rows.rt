//! The rows of the I instructions (volume 3, chapter 4, instruction formats, I5 to I29, and the tables of opcodes).

use ia_insn::{Ar, ShiftFn, Unit};
use insn_rows::{Opcode, Row, row};

/// The rows.
pub static ROWS: [Row; 32] = [
    // I5: a shift right by a register
    row!(Opcode::ShiftVar(ShiftFn::Shr), I5; MAJOR = 7, ZA = 1, X2A = 0, ZB = 1, VE_I5 = 0, X2C = 0, X2B_I5 = 2),
    row!(Opcode::ShiftVar(ShiftFn::ShrU), I5; MAJOR = 7, ZA = 1, X2A = 0, ZB = 1, VE_I5 = 0, X2C = 0, X2B_I5 = 0),
    // I7: a shift left by a register
    row!(Opcode::ShiftVar(ShiftFn::Shl), I7; MAJOR = 7, ZA = 1, X2A = 0, ZB = 1, VE_I5 = 0, X2C = 1, X2B_I5 = 0),
    // I9: a population count
    row!(Opcode::Popcnt, I9; MAJOR = 7, ZA = 0, X2A = 1, ZB = 1, VE_I5 = 0, X2C = 2, X2B_I5 = 1),
    // I10: a shift right of a pair
    row!(Opcode::Shrp, I10; MAJOR = 5, X2 = 3, X = 0),
    // I11: extract
    row!(Opcode::Extr, I11; MAJOR = 5, X2 = 1, X = 0),
    // I12: zero and deposit
    row!(Opcode::DepZ, I12; MAJOR = 5, X2 = 1, X = 1, Y = 0),
    // I13: zero and deposit of an immediate of 8 bits
    row!(Opcode::DepZImm, I13; MAJOR = 5, X2 = 1, X = 1, Y = 1),
    // I14: deposit of an immediate of one bit
    row!(Opcode::DepImm, I14; MAJOR = 5, X2 = 3, X = 1),
    // I15: deposit
    row!(Opcode::Dep, I15; MAJOR = 4),
    // I16: test a bit
    row!(Opcode::Tbit, I16; MAJOR = 5, TB = 0, X2 = 0, TA = 0, Y_I11 = 0),
    // I17: test NaT
    row!(Opcode::Tnat, I17; MAJOR = 5, TB = 0, X2 = 0, TA = 0, Y_I11 = 1),
    // I18: nop and hint
    row!(Opcode::Nop(Unit::I), I18; MAJOR = 0, X3 = 0, X6 = 1, Y = 0),
    row!(Opcode::Hint(Unit::I), I18; MAJOR = 0, X3 = 0, X6 = 1, Y = 1),
    // I19: break
    row!(Opcode::Break(Unit::I), I18; MAJOR = 0, X3 = 0, X6 = 0),
    // I20: a speculation check
    row!(Opcode::ChkS(Unit::I), I20; MAJOR = 0, X3 = 1),
    // I21: a move to a branch register
    row!(Opcode::MovToBr, I21; MAJOR = 0, X3 = 7),
    // I22: a move from a branch register
    row!(Opcode::MovFromBr, I22; MAJOR = 0, X3 = 0, X6 = 0x31),
    // I23: a move to the predicates under a mask
    row!(Opcode::MovToPr, I23; MAJOR = 0, X3 = 3),
    // I24: a move of an immediate to the rotating predicates
    row!(Opcode::MovToPrRot, I24; MAJOR = 0, X3 = 2),
    // I25: moves from the instruction pointer and from the predicates
    row!(Opcode::MovFromIp, I25; MAJOR = 0, X3 = 0, X6 = 0x30),
    row!(Opcode::MovFromPr, I25; MAJOR = 0, X3 = 0, X6 = 0x33),
    // I26: moves to an application register
    row!(Opcode::MovToAr(Ar::Pfs), I26; MAJOR = 0, X3 = 0, X6 = 0x2a, AR3 = 64),
    row!(Opcode::MovToAr(Ar::Lc), I26; MAJOR = 0, X3 = 0, X6 = 0x2a, AR3 = 65),
    row!(Opcode::MovToAr(Ar::Ec), I26; MAJOR = 0, X3 = 0, X6 = 0x2a, AR3 = 66),
    // I27: moves of an immediate to an application register
    row!(Opcode::MovToArImm(Ar::Pfs), I27; MAJOR = 0, X3 = 0, X6 = 0x0a, AR3 = 64),
    row!(Opcode::MovToArImm(Ar::Lc), I27; MAJOR = 0, X3 = 0, X6 = 0x0a, AR3 = 65),
    row!(Opcode::MovToArImm(Ar::Ec), I27; MAJOR = 0, X3 = 0, X6 = 0x0a, AR3 = 66),
    // I28: moves from an application register
    row!(Opcode::MovFromAr(Ar::Pfs), I25; MAJOR = 0, X3 = 0, X6 = 0x32, AR3 = 64),
    row!(Opcode::MovFromAr(Ar::Lc), I25; MAJOR = 0, X3 = 0, X6 = 0x32, AR3 = 65),
    row!(Opcode::MovFromAr(Ar::Ec), I25; MAJOR = 0, X3 = 0, X6 = 0x32, AR3 = 66),
    // I29: a zero or sign extension
    row!(Opcode::Ext, I29; MAJOR = 0, X3 = 0, X6 = 0x10),
];

/// The indexes of the rows of each major opcode, in the order in which they are tried.
pub static BY_MAJOR: [&[u8]; 16] = [
    &[
        12, 31, 13, 14, 15, 16, 17, 18, 19, 20, 21, 22, 23, 24, 25, 26, 27, 28, 29, 30,
    ],
    &[],
    &[],
    &[],
    &[9],
    &[5, 6, 4, 7, 8, 10, 11],
    &[],
    &[0, 1, 2, 3],
    &[],
    &[],
    &[],
    &[],
    &[],
    &[],
    &[],
    &[],
];

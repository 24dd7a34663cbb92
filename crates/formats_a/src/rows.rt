//! The rows of the A instructions (volume 3, chapter 4, instruction formats, A1 to A9, and the tables of opcodes).

use ia_insn::{AluFn, CmpKind, LaneFn, Rel};
use insn_rows::{Opcode, Row, row};

/// The rows.
pub static ROWS: [Row; 57] = [
    // A1: two registers
    row!(Opcode::Alu(AluFn::Add), A1; MAJOR = 8, X2A = 0, VE = 0, X4 = 0, X2B = 0),
    row!(Opcode::Alu(AluFn::Add1), A1; MAJOR = 8, X2A = 0, VE = 0, X4 = 0, X2B = 1),
    row!(Opcode::Alu(AluFn::Sub), A1; MAJOR = 8, X2A = 0, VE = 0, X4 = 1, X2B = 1),
    row!(Opcode::Alu(AluFn::Sub1), A1; MAJOR = 8, X2A = 0, VE = 0, X4 = 1, X2B = 0),
    row!(Opcode::Alu(AluFn::Addp4), A1; MAJOR = 8, X2A = 0, VE = 0, X4 = 2, X2B = 0),
    row!(Opcode::Alu(AluFn::And), A1; MAJOR = 8, X2A = 0, VE = 0, X4 = 3, X2B = 0),
    row!(Opcode::Alu(AluFn::Andcm), A1; MAJOR = 8, X2A = 0, VE = 0, X4 = 3, X2B = 1),
    row!(Opcode::Alu(AluFn::Or), A1; MAJOR = 8, X2A = 0, VE = 0, X4 = 3, X2B = 2),
    row!(Opcode::Alu(AluFn::Xor), A1; MAJOR = 8, X2A = 0, VE = 0, X4 = 3, X2B = 3),
    // A2: shift left and add
    row!(Opcode::ShlAdd, A2; MAJOR = 8, X2A = 0, VE = 0, X4 = 4),
    // A3: an immediate of 8 bits and a register
    row!(Opcode::AluImm8(AluFn::Sub), A3; MAJOR = 8, X2A = 0, VE = 0, X4 = 9, X2B = 1),
    row!(Opcode::AluImm8(AluFn::And), A3; MAJOR = 8, X2A = 0, VE = 0, X4 = 11, X2B = 0),
    row!(Opcode::AluImm8(AluFn::Andcm), A3; MAJOR = 8, X2A = 0, VE = 0, X4 = 11, X2B = 1),
    row!(Opcode::AluImm8(AluFn::Or), A3; MAJOR = 8, X2A = 0, VE = 0, X4 = 11, X2B = 2),
    row!(Opcode::AluImm8(AluFn::Xor), A3; MAJOR = 8, X2A = 0, VE = 0, X4 = 11, X2B = 3),
    // A4: an immediate of 14 bits and a register
    row!(Opcode::AddImm14, A4; MAJOR = 8, X2A = 2, VE = 0),
    // A5: an immediate of 22 bits and one of r0 to r3
    row!(Opcode::AddImm22, A5; MAJOR = 9),
    // A6: a compare of two registers
    row!(Opcode::Cmp(Rel::Lt, CmpKind::Normal), A6; MAJOR = 12, TB = 0, X2 = 0, TA = 0, C = 0),
    row!(Opcode::Cmp(Rel::Ltu, CmpKind::Normal), A6; MAJOR = 13, TB = 0, X2 = 0, TA = 0, C = 0),
    row!(Opcode::Cmp(Rel::Eq, CmpKind::Normal), A6; MAJOR = 14, TB = 0, X2 = 0, TA = 0, C = 0),
    row!(Opcode::Cmp(Rel::Lt, CmpKind::Unc), A6; MAJOR = 12, TB = 0, X2 = 0, TA = 0, C = 1),
    row!(Opcode::Cmp(Rel::Ltu, CmpKind::Unc), A6; MAJOR = 13, TB = 0, X2 = 0, TA = 0, C = 1),
    row!(Opcode::Cmp(Rel::Eq, CmpKind::Unc), A6; MAJOR = 14, TB = 0, X2 = 0, TA = 0, C = 1),
    row!(Opcode::Cmp(Rel::Eq, CmpKind::And), A6; MAJOR = 12, TB = 0, X2 = 0, TA = 1, C = 0),
    row!(Opcode::Cmp(Rel::Ne, CmpKind::And), A6; MAJOR = 12, TB = 0, X2 = 0, TA = 1, C = 1),
    row!(Opcode::Cmp(Rel::Eq, CmpKind::Or), A6; MAJOR = 13, TB = 0, X2 = 0, TA = 1, C = 0),
    row!(Opcode::Cmp(Rel::Ne, CmpKind::Or), A6; MAJOR = 13, TB = 0, X2 = 0, TA = 1, C = 1),
    row!(Opcode::Cmp(Rel::Eq, CmpKind::OrAndcm), A6; MAJOR = 14, TB = 0, X2 = 0, TA = 1, C = 0),
    row!(Opcode::Cmp(Rel::Ne, CmpKind::OrAndcm), A6; MAJOR = 14, TB = 0, X2 = 0, TA = 1, C = 1),
    // A7: a compare of r0 and a register
    row!(Opcode::CmpZero(Rel::Gt, CmpKind::And), A7; MAJOR = 12, TB = 1, X2 = 0, TA = 0, C = 0),
    row!(Opcode::CmpZero(Rel::Le, CmpKind::And), A7; MAJOR = 12, TB = 1, X2 = 0, TA = 0, C = 1),
    row!(Opcode::CmpZero(Rel::Ge, CmpKind::And), A7; MAJOR = 12, TB = 1, X2 = 0, TA = 1, C = 0),
    row!(Opcode::CmpZero(Rel::Lt, CmpKind::And), A7; MAJOR = 12, TB = 1, X2 = 0, TA = 1, C = 1),
    row!(Opcode::CmpZero(Rel::Gt, CmpKind::Or), A7; MAJOR = 13, TB = 1, X2 = 0, TA = 0, C = 0),
    row!(Opcode::CmpZero(Rel::Le, CmpKind::Or), A7; MAJOR = 13, TB = 1, X2 = 0, TA = 0, C = 1),
    row!(Opcode::CmpZero(Rel::Ge, CmpKind::Or), A7; MAJOR = 13, TB = 1, X2 = 0, TA = 1, C = 0),
    row!(Opcode::CmpZero(Rel::Lt, CmpKind::Or), A7; MAJOR = 13, TB = 1, X2 = 0, TA = 1, C = 1),
    row!(Opcode::CmpZero(Rel::Gt, CmpKind::OrAndcm), A7; MAJOR = 14, TB = 1, X2 = 0, TA = 0, C = 0),
    row!(Opcode::CmpZero(Rel::Le, CmpKind::OrAndcm), A7; MAJOR = 14, TB = 1, X2 = 0, TA = 0, C = 1),
    row!(Opcode::CmpZero(Rel::Ge, CmpKind::OrAndcm), A7; MAJOR = 14, TB = 1, X2 = 0, TA = 1, C = 0),
    row!(Opcode::CmpZero(Rel::Lt, CmpKind::OrAndcm), A7; MAJOR = 14, TB = 1, X2 = 0, TA = 1, C = 1),
    // A8: a compare of an immediate and a register
    row!(Opcode::CmpImm(Rel::Lt, CmpKind::Normal), A8; MAJOR = 12, X2 = 2, TA = 0, C = 0),
    row!(Opcode::CmpImm(Rel::Ltu, CmpKind::Normal), A8; MAJOR = 13, X2 = 2, TA = 0, C = 0),
    row!(Opcode::CmpImm(Rel::Eq, CmpKind::Normal), A8; MAJOR = 14, X2 = 2, TA = 0, C = 0),
    row!(Opcode::CmpImm(Rel::Lt, CmpKind::Unc), A8; MAJOR = 12, X2 = 2, TA = 0, C = 1),
    row!(Opcode::CmpImm(Rel::Ltu, CmpKind::Unc), A8; MAJOR = 13, X2 = 2, TA = 0, C = 1),
    row!(Opcode::CmpImm(Rel::Eq, CmpKind::Unc), A8; MAJOR = 14, X2 = 2, TA = 0, C = 1),
    row!(Opcode::CmpImm(Rel::Eq, CmpKind::And), A8; MAJOR = 12, X2 = 2, TA = 1, C = 0),
    row!(Opcode::CmpImm(Rel::Ne, CmpKind::And), A8; MAJOR = 12, X2 = 2, TA = 1, C = 1),
    row!(Opcode::CmpImm(Rel::Eq, CmpKind::Or), A8; MAJOR = 13, X2 = 2, TA = 1, C = 0),
    row!(Opcode::CmpImm(Rel::Ne, CmpKind::Or), A8; MAJOR = 13, X2 = 2, TA = 1, C = 1),
    row!(Opcode::CmpImm(Rel::Eq, CmpKind::OrAndcm), A8; MAJOR = 14, X2 = 2, TA = 1, C = 0),
    row!(Opcode::CmpImm(Rel::Ne, CmpKind::OrAndcm), A8; MAJOR = 14, X2 = 2, TA = 1, C = 1),
    // A9: lanes of two registers
    row!(Opcode::Lane(LaneFn::Padd), A9; MAJOR = 8, X2A = 1, X4 = 0, X2B = 0),
    row!(Opcode::Lane(LaneFn::Psub), A9; MAJOR = 8, X2A = 1, X4 = 1, X2B = 0),
    row!(Opcode::Lane(LaneFn::PcmpEq), A9; MAJOR = 8, X2A = 1, X4 = 9, X2B = 0),
    row!(Opcode::Lane(LaneFn::PcmpGt), A9; MAJOR = 8, X2A = 1, X4 = 9, X2B = 1),
];

/// The indexes of the rows of each major opcode, in the order in which they are tried.
pub static BY_MAJOR: [&[u8]; 16] = [
    &[],
    &[],
    &[],
    &[],
    &[],
    &[],
    &[],
    &[],
    &[
        15, 0, 9, 2, 5, 7, 1, 3, 4, 6, 8, 10, 11, 12, 13, 14, 53, 54, 55, 56,
    ],
    &[16],
    &[],
    &[],
    &[41, 17, 44, 20, 23, 24, 29, 30, 31, 32, 47, 48],
    &[42, 18, 45, 21, 25, 26, 33, 34, 35, 36, 49, 50],
    &[43, 19, 46, 22, 27, 28, 37, 38, 39, 40, 51, 52],
    &[],
];

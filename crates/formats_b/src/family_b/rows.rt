//! The rows of the B instructions (volume 3, chapter 4, instruction formats, B1 to B9, and the tables of opcodes).

use ia_insn::{BranchKind, Unit};
use insn_rows::{Opcode, Row, row};

/// The rows.
pub static ROWS: [Row; 14] = [
    // B1: branches
    row!(Opcode::Br(BranchKind::Cond), B1; MAJOR = 4, BTYPE = 0),
    row!(Opcode::Br(BranchKind::Wexit), B1; MAJOR = 4, BTYPE = 2),
    row!(Opcode::Br(BranchKind::Wtop), B1; MAJOR = 4, BTYPE = 3),
    // B2: counted loop branches
    row!(Opcode::Br(BranchKind::Cloop), B2; MAJOR = 4, BTYPE = 5),
    row!(Opcode::Br(BranchKind::Cexit), B2; MAJOR = 4, BTYPE = 6),
    row!(Opcode::Br(BranchKind::Ctop), B2; MAJOR = 4, BTYPE = 7),
    // B3: a call
    row!(Opcode::BrCall, B3; MAJOR = 5),
    // B4: an indirect branch and a return
    row!(Opcode::BrInd, B4; MAJOR = 0, X6 = 0x20, BTYPE = 0),
    row!(Opcode::BrRet, B4; MAJOR = 0, X6 = 0x21, BTYPE = 4),
    // B5: an indirect call
    row!(Opcode::BrCallInd, B5; MAJOR = 1, WH_LOWEST_B5 = 1),
    // B8: the clearing of the rotating register bases
    row!(Opcode::Clrrrb, B8; MAJOR = 0, X6 = 4),
    // B9: break, nop and hint
    row!(Opcode::Break(Unit::B), I18; MAJOR = 0, X6 = 0),
    row!(Opcode::Nop(Unit::B), I18; MAJOR = 2, X6 = 0),
    row!(Opcode::Hint(Unit::B), I18; MAJOR = 2, X6 = 1),
];

/// The indexes of the rows of each major opcode, in the order in which they are tried.
pub static BY_MAJOR: [&[u8]; 16] = [
    &[7, 8, 10, 11],
    &[9],
    &[12, 13],
    &[],
    &[0, 1, 2, 3, 4, 5],
    &[6],
    &[],
    &[],
    &[],
    &[],
    &[],
    &[],
    &[],
    &[],
    &[],
    &[],
];

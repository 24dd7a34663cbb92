//! The rows of the words of X slots (volume 3, chapter 4, instruction formats, X1, X2 and X5, and the tables of opcodes).

use ia_insn::Unit;
use insn_rows::{Opcode, Row, row};

/// The rows.
pub static ROWS: [Row; 3] = [
    // X1: break
    row!(Opcode::Break(Unit::X), I18; MAJOR = 0, X3 = 0, X6 = 0),
    // X2: a move of an immediate of 64 bits
    row!(Opcode::Movl, X2; MAJOR = 6, VC = 0),
    // X5: nop
    row!(Opcode::Nop(Unit::X), I18; MAJOR = 0, X3 = 0, X6 = 1, Y = 0),
];

/// The indexes of the rows of each major opcode, in the order in which they are tried.
pub static BY_MAJOR: [&[u8]; 16] = [
    &[0, 2],
    &[],
    &[],
    &[],
    &[],
    &[],
    &[1],
    &[],
    &[],
    &[],
    &[],
    &[],
    &[],
    &[],
    &[],
    &[],
];

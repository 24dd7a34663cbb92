//! The rows of the F instructions (volume 3, chapter 4, instruction formats, F15 and F16, and the tables of opcodes).

use ia_insn::Unit;
use insn_rows::{Opcode, Row, row};

/// The rows.
pub static ROWS: [Row; 2] = [
    // F15: break
    row!(Opcode::Break(Unit::F), I18; MAJOR = 0, X = 0, X6 = 0),
    // F16: nop
    row!(Opcode::Nop(Unit::F), I18; MAJOR = 0, X = 0, X6 = 1, Y = 0),
];

/// The indexes of the rows of each major opcode, in the order in which they are tried.
pub static BY_MAJOR: [&[u8]; 16] = [
    &[0, 1],
    &[],
    &[],
    &[],
    &[],
    &[],
    &[],
    &[],
    &[],
    &[],
    &[],
    &[],
    &[],
    &[],
    &[],
    &[],
];

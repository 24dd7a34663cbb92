//! The values of operands.

use ia_insn::{Br, Gr, Pr};

/// The value of an operand.
#[derive(Clone, Copy)]
pub enum Value {
    /// None: there is no such operand.
    Absent,
    /// A general register.
    Gr(Gr),
    /// A predicate register.
    Pr(Pr),
    /// A branch register.
    Br(Br),
    /// A choice of two.
    Flag(bool),
    /// A number.
    Small(u8),
    /// A number of up to 64 bits.
    Wide(u64),
    /// A mask of predicates.
    Mask(u32),
    /// A signed number.
    Signed(i64),
    /// A signed number of up to 16 bits.
    Short(i16),
    /// A displacement, in bundles.
    Displacement(i32),
}

/// The values of the operands of an instruction, the qualifying predicate first, then in the order of its format, and
/// absent ones behind them.
pub type Values = [Value; 7];

//! The choices within an instruction.

use crate::registers::Gr;

/// An execution unit that a slot names (volume 1, chapter 3, instruction encoding).
#[derive(Clone, Copy, Debug, PartialEq, Eq)]
pub enum Unit {
    /// Memory, and integer operations of the A type.
    M,
    /// Integer.
    I,
    /// Floating point.
    F,
    /// Branch.
    B,
    /// The first slot of a long instruction.
    L,
    /// The second slot of a long instruction.
    X,
}

/// An integer operation on two operands (volume 3, chapter 4, formats A1 and A3).
#[derive(Clone, Copy, Debug, PartialEq, Eq)]
pub enum AluFn {
    /// The sum.
    Add,
    /// The sum and one.
    Add1,
    /// The difference.
    Sub,
    /// The difference less one.
    Sub1,
    /// The sum as a pointer of 32 bits.
    Addp4,
    /// The bits that both have.
    And,
    /// The bits of the first that the second has not.
    Andcm,
    /// The bits that either has.
    Or,
    /// The bits that just one has.
    Xor,
}

/// An operation on the lanes of two registers, parallel in the manual (volume 3, chapter 4, format A9).
#[derive(Clone, Copy, Debug, PartialEq, Eq)]
pub enum LaneFn {
    /// The sums.
    Padd,
    /// The differences.
    Psub,
    /// Ones where the lanes are equal, else zeros.
    PcmpEq,
    /// Ones where the first lane is greater than the second, signed, else zeros.
    PcmpGt,
}

/// A shift by a count in a register (volume 3, chapter 4, formats I5 and I7).
#[derive(Clone, Copy, Debug, PartialEq, Eq)]
pub enum ShiftFn {
    /// To the right, filled with the sign.
    Shr,
    /// To the right, filled with zeros.
    ShrU,
    /// To the left.
    Shl,
}

/// The relation of a compare, crel in the manual (volume 3, chapter 2, `cmp`).
#[derive(Clone, Copy, Debug, PartialEq, Eq)]
pub enum Rel {
    /// Equal.
    Eq,
    /// Not equal.
    Ne,
    /// Less than, signed.
    Lt,
    /// Less than, unsigned.
    Ltu,
    /// Greater than, signed.
    Gt,
    /// Greater than or equal, signed.
    Ge,
    /// Less than or equal, signed.
    Le,
}

/// What a compare does with its result, ctype in the manual (volume 3, chapter 2, `cmp`, comparison
/// types).
#[derive(Clone, Copy, Debug, PartialEq, Eq)]
pub enum CmpKind {
    /// Both targets are written, the second with the complement.
    Normal,
    /// As `Normal`, and both targets are cleared where the qualifying predicate is 0.
    Unc,
    /// Both targets are cleared where the result is 0.
    And,
    /// Both targets are set where the result is 1.
    Or,
    /// The first target is set and the second cleared where the result is 1.
    OrAndcm,
}

/// The kind of a load, ldtype in the manual (volume 3, chapter 2, `ld`, load types).
#[derive(Clone, Copy, Debug, PartialEq, Eq)]
pub enum LoadKind {
    /// A plain load.
    Plain,
    /// `s`, speculative.
    S,
    /// `a`, advanced.
    A,
    /// `sa`, speculative and advanced.
    Sa,
    /// `bias`, with a hint to own the cache line.
    Bias,
    /// `acq`, ordered before what follows.
    Acq,
    /// `c.clr`, a check that clears the entry.
    CClr,
    /// `c.nc`, a check that keeps the entry.
    CNc,
    /// `c.clr.acq`, an ordered check that clears the entry.
    CClrAcq,
    /// `fill`, with the NaT bit, in 8 bytes alone.
    Fill,
}

/// The kind of a store, sttype in the manual (volume 3, chapter 2, `st`, store types).
#[derive(Clone, Copy, Debug, PartialEq, Eq)]
pub enum StoreKind {
    /// A plain store.
    Plain,
    /// `rel`, ordered after what precedes.
    Rel,
    /// `spill`, with the NaT bit, in 8 bytes alone.
    Spill,
}

/// The kind of a direct branch that is no call, btype in the manual (volume 3, chapter 2, `br`,
/// branch types).
#[derive(Clone, Copy, Debug, PartialEq, Eq)]
pub enum BranchKind {
    /// `cond`, by its qualifying predicate.
    Cond,
    /// `wexit`, out of a while loop.
    Wexit,
    /// `wtop`, to the top of a while loop.
    Wtop,
    /// `cloop`, to the top of a counted loop.
    Cloop,
    /// `cexit`, out of a modulo-scheduled counted loop.
    Cexit,
    /// `ctop`, to the top of a modulo-scheduled counted loop.
    Ctop,
}

/// What a load or a store adds to its base register (volume 3, chapter 4, formats M1 to M5).
#[derive(Clone, Copy, Debug, PartialEq, Eq)]
pub enum Update {
    /// Nothing.
    None,
    /// A register, which a load alone can add.
    Reg(Gr),
    /// A signed number of bytes, -256 to 255.
    Imm(i16),
}
